//! Gates that hold a turn until another has come so far. Turn 0 is the turn whose Take stands at place 0. In case A its first `enter` is
//! held until the other turn has left three times. In case B its first `enter` is held until the other turn has entered, and the first
//! `enter` of that one until turn 0 has left three times.
use std::hint::spin_loop;
use std::sync::atomic::{AtomicBool, AtomicU64, Ordering};
use tau_cli::{Gate, Watch};

/// After how many looks a hold ends by itself.
const LOOKS: u32 = 1_000_000_000;

/// Which turn is held.
#[derive(Clone, Copy)]
pub enum Case {
    A,
    B,
}

impl Case {
    /// The letter of the case.
    pub fn name(self) -> &'static str {
        match self {
            Case::A => "A",
            Case::B => "B",
        }
    }
}

/// The gate of a case. It counts how often turn 0 and the other turn have entered and left.
#[derive(Drop)]
pub struct HoldingGate {
    case: Case,
    first: Passed,
    other: Passed,
    ran_out: AtomicBool,
}

/// How often a turn has entered and left.
#[derive(Drop)]
struct Passed {
    entered: AtomicU64,
    left: AtomicU64,
}

impl Passed {
    fn new() -> Passed {
        Passed {
            entered: AtomicU64::new(0),
            left: AtomicU64::new(0),
        }
    }
}

impl HoldingGate {
    /// The gate of a case.
    pub fn new(case: Case) -> HoldingGate {
        HoldingGate {
            case,
            first: Passed::new(),
            other: Passed::new(),
            ran_out: AtomicBool::new(false),
        }
    }

    /// Whether a hold has ended by itself.
    pub fn ran_out(&self) -> bool {
        self.ran_out.load(Ordering::SeqCst)
    }

    /// Which counts are a turn's.
    fn counts(&self, turn: u32) -> &Passed {
        if turn == 0 { &self.first } else { &self.other }
    }

    /// Holds until a count has come so far.
    fn hold(&self, count: &AtomicU64, least: u64) {
        for _ in 0..LOOKS {
            if count.load(Ordering::SeqCst) >= least {
                return;
            }
            spin_loop();
        }
        self.ran_out.store(true, Ordering::SeqCst);
    }
}

impl Gate for HoldingGate {
    fn enter(&self, _worker: u32, turn: u32) {
        let before = self.counts(turn).entered.fetch_add(1, Ordering::SeqCst);
        if before > 0 {
            return;
        }
        match (self.case, turn) {
            (Case::A, 0) => self.hold(&self.other.left, 3),
            (Case::A, _) => {}
            (Case::B, 0) => self.hold(&self.other.entered, 1),
            (Case::B, _) => self.hold(&self.first.left, 3),
        }
    }

    fn leave(&self, _worker: u32, turn: u32) {
        self.counts(turn).left.fetch_add(1, Ordering::SeqCst);
    }
}

/// No case has a storm.
impl Watch for HoldingGate {
    fn begin(&self, _seeds: u32) {}

    fn run_made(&self, _outcomes: usize) {}

    fn seed_done(&self) {}

    fn end(&self) {}
}
