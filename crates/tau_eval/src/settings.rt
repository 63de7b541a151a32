//! What a turn is evaluated with.
use std::alloc::Global;
use tau_value::Value;

/// The number of nodes, the own number and the message, with the allocator.
#[derive(Clone, Copy)]
pub struct Setting<'t> {
    pub nodes: u32,
    pub own: u32,
    pub message: &'t Value,
    pub alloc: Global,
}
