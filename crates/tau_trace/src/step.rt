//! Steps.
ghost use Rattle.std.specs.Prelude.{◌≡◌, IfOk};
ghost use Rattle.tau_trace.specs.Steps.{actor, removed_by, is_echo};

use std::alloc::AllocError;
use tau_value::Value;

/// A step of a run (docs/rules.md, "Steps"). `who` is the transactor that makes it. An Echo, a Heed and a Repeat stand in
/// version 2 alone.
#[derive(Clone, Drop)]
pub enum Step {
    Take {
        who: u32,
        message: u32,
    },
    Drop {
        who: u32,
        message: u32,
    },
    Fall {
        who: u32,
        message: u32,
    },
    Void {
        who: u32,
        message: u32,
    },
    Get {
        who: u32,
    },
    Set {
        who: u32,
        value: Value,
    },
    Skip {
        who: u32,
    },
    Send {
        who: u32,
        to: u32,
        value: Value,
    },
    New {
        who: u32,
        behaviour: u32,
        node: u32,
        state: Value,
    },
    Stabilize {
        who: u32,
    },
    Ask {
        who: u32,
        answer: bool,
    },
    Checkpoint {
        who: u32,
    },
    Hold {
        who: u32,
    },
    Rollback {
        who: u32,
    },
    Stay {
        who: u32,
    },
    Done {
        who: u32,
    },
    Trap {
        who: u32,
        code: u8,
    },
    Fail {
        who: u32,
    },
    Lose {
        message: u32,
    },
    Echo {
        who: u32,
        message: u32,
    },
    Heed {
        who: u32,
        message: u32,
    },
    Repeat {
        message: u32,
    },
}

impl Step {
    /// The transactor that makes the step; `None` for a Lose and a Repeat.
    pub fn actor(&self) -> Option<u32>
        ensures { result ≡ actor self.now }
    {
        match self {
            Step::Take { who, .. }
            | Step::Drop { who, .. }
            | Step::Fall { who, .. }
            | Step::Void { who, .. }
            | Step::Get { who }
            | Step::Set { who, .. }
            | Step::Skip { who }
            | Step::Send { who, .. }
            | Step::New { who, .. }
            | Step::Stabilize { who }
            | Step::Ask { who, .. }
            | Step::Checkpoint { who }
            | Step::Hold { who }
            | Step::Rollback { who }
            | Step::Stay { who }
            | Step::Done { who }
            | Step::Trap { who, .. }
            | Step::Fail { who }
            | Step::Echo { who, .. }
            | Step::Heed { who, .. } => Some(*who),
            Step::Lose { .. } | Step::Repeat { .. } => None,
        }
    }

    /// The message that the step takes out of flight: that of a Take, Drop, Void, Echo, Heed or Lose.
    pub fn removed(&self) -> Option<u32>
        ensures { result ≡ removed_by self.now }
    {
        match self {
            Step::Take { message, .. }
            | Step::Drop { message, .. }
            | Step::Void { message, .. }
            | Step::Lose { message }
            | Step::Echo { message, .. }
            | Step::Heed { message, .. } => Some(*message),
            _ => None,
        }
    }

    /// Whether the step is an Echo.
    pub fn is_echo(&self) -> bool
        ensures { result ≡ is_echo self.now }
    {
        matches!(self, Step::Echo { .. })
    }

    /// An equal step, which shares its value. The error is want of memory.
    pub fn copy(&self) -> Result<Step, AllocError>
        ensures { IfOk result (λ s. s ≡ self.now) }
    {
        self.clone()
    }
}
