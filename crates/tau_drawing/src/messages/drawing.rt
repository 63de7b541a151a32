//! What message lines are drawn by.
use crate::messages::bearers::Bearer;
use tau_layout::Layout;
use tau_layout::paths::{Source, Spot};
use tau_trace::Trace;
use tau_tree::Program;

/// What message lines are drawn by: a program, its trace, where things stand, and of each message where its value stands and whether a
/// drawn step receives or loses it.
#[derive(Clone, Copy)]
pub(crate) struct Drawing<'a> {
    pub(crate) program: &'a Program,
    pub(crate) trace: &'a Trace,
    pub(crate) layout: &'a Layout,
    pub(crate) bearers: &'a [Bearer],
    pub(crate) met: &'a [bool],
}

/// A message: its number, the transactor to which its line leads, and where its value stands.
#[derive(Clone, Copy)]
pub(crate) struct Message {
    pub(crate) number: u32,
    pub(crate) to: u32,
    pub(crate) bearer: Bearer,
}

/// A message that the step at a place receives or loses: where it comes from, and the middle of the step's lane in its row.
#[derive(Clone, Copy)]
pub(crate) struct Receipt {
    pub(crate) place: u32,
    pub(crate) message: Message,
    pub(crate) source: Source,
    pub(crate) middle: Spot,
}

/// A message that the step at a place makes, and no drawn step receives or loses: whether it flies at the end, and the spot of the step.
#[derive(Clone, Copy)]
pub(crate) struct Sending {
    pub(crate) place: u32,
    pub(crate) message: Message,
    pub(crate) flies: bool,
    pub(crate) at: Spot,
}

/// The New of a transactor at a place, and the one that it creates.
#[derive(Clone, Copy)]
pub(crate) struct Birth {
    pub(crate) place: u32,
    pub(crate) who: u32,
    pub(crate) born: u32,
}
