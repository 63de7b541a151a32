//! What a seat knows, and what the table was told.
use std::collections::LinkedList;

/// No value of it is made.
pub struct SeatView<G, E> {
    // The key of the kept value. A seat that was joined to another names none.
    pub names: Option<G>,
    pub numbers: LinkedList<u64>,
    // What it has seen, each entry with its owner.
    pub seen: LinkedList<(E, u64)>,
    // What a seat had seen that was joined to this one.
    pub told: LinkedList<(E, u64)>,
    // That seat's numbers, which are now this one's.
    pub teller: LinkedList<u64>,
    // The tickets that it holds, at most one.
    pub tickets: u64,
    pub ticket: u64,
    pub turn: bool,
}

/// How many numbers there are, and the key of the kept value.
#[derive(Drop)]
pub struct Named<G> {
    pub count: u32,
    pub key: G,
}
