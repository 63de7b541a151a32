//! Counts of steps.
ghost use Rattle.std.specs.Prelude.{◌≡◌};
ghost use Rattle.tau_report.specs.Inner.Counted.{no_counts, counts_after, AreFew};

use tau_trace::Step;

/// How many steps are a Checkpoint, a Hold, a Drop, a falling step of any kind, and a Lose (docs/definitions.md,
/// "Report").
#[derive(Clone, Copy)]
pub struct Counts {
    pub checkpoints: u32,
    pub holds: u32,
    pub drops: u32,
    pub falls: u32,
    pub losses: u32,
}

impl Counts {
    /// The counts of no steps.
    pub(crate) fn none() -> Counts
        ensures { result ≡ no_counts }
    {
        Counts {
            checkpoints: 0,
            holds: 0,
            drops: 0,
            falls: 0,
            losses: 0,
        }
    }

    /// The counts with one step more; `falls` says whether it is a falling step.
    pub(crate) fn after(self, step: &Step, falls: bool) -> Counts
        requires { AreFew self }
        ensures { result ≡ counts_after step.now falls self }
    {
        let counts = Counts {
            falls: self.falls + u32::from(falls),
            ..self
        };
        match step {
            Step::Checkpoint { .. } => Counts {
                checkpoints: self.checkpoints + 1,
                ..counts
            },
            Step::Hold { .. } => Counts {
                holds: self.holds + 1,
                ..counts
            },
            Step::Drop { .. } => Counts {
                drops: self.drops + 1,
                ..counts
            },
            Step::Lose { .. } => Counts {
                losses: self.losses + 1,
                ..counts
            },
            _ => counts,
        }
    }
}
