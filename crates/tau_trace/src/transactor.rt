//! What the steps so far say of one transactor.
ghost use Rattle.std.specs.Prelude.{◌≡◌};
ghost use Rattle.tau_trace.specs.Tracking.{transactor_after, transactor_fallen, ends_by, opened_at, created_at};

use crate::step::Step;

/// Its node, the place of its open turn, the place where it ended, whether it is stable, and whether its interval is 0.
#[derive(Clone, Copy)]
pub(crate) struct Transactor {
    pub(crate) home: u32,
    pub(crate) turn: Option<u32>,
    pub(crate) end: Option<u32>,
    pub(crate) stable: bool,
    pub(crate) at_opening: bool,
}

impl Transactor {
    /// A start transactor at the opening.
    pub(crate) fn start(home: u32) -> Transactor
        ensures { result ≡ opened_at home }
    {
        Transactor {
            home,
            turn: None,
            end: None,
            stable: false,
            at_opening: false,
        }
    }

    /// A transactor right after its New.
    pub(crate) fn created(home: u32) -> Transactor
        ensures { result ≡ created_at home }
    {
        Transactor {
            home,
            turn: None,
            end: None,
            stable: false,
            at_opening: true,
        }
    }

    /// The same after a step of its own at this place (docs/rules.md, "Steps").
    pub(crate) fn after(self, step: &Step, place: u32) -> Transactor
        ensures { result ≡ transactor_after step.now place self }
    {
        match step {
            Step::Take { .. } => Transactor {
                turn: Some(place),
                ..self
            },
            Step::Stabilize { .. } => Transactor {
                stable: true,
                ..self
            },
            Step::Checkpoint { .. } => Transactor {
                turn: None,
                stable: false,
                at_opening: false,
                ..self
            },
            Step::Fall { .. } | Step::Rollback { .. } => self.fallen(place),
            Step::Trap { .. } | Step::Fail { .. } => {
                if self.stable {
                    Transactor { turn: None, ..self }
                } else {
                    self.fallen(place)
                }
            }
            Step::Hold { .. } | Step::Stay { .. } | Step::Done { .. } => Transactor {
                turn: None,
                ..self
            },
            Step::Drop { .. }
            | Step::Void { .. }
            | Step::Get { .. }
            | Step::Set { .. }
            | Step::Skip { .. }
            | Step::Send { .. }
            | Step::New { .. }
            | Step::Ask { .. }
            | Step::Lose { .. }
            | Step::Echo { .. }
            | Step::Heed { .. }
            | Step::Repeat { .. } => self,
        }
    }

    /// Whether it has ended in the later record, and not yet in this one.
    pub(crate) fn ends_by(self, later: Transactor) -> bool
        ensures { result ≡ ends_by self later }
    {
        self.end.is_none() && later.end.is_some()
    }

    /// The same after a falling step: at interval 0 the first one ends it.
    fn fallen(self, place: u32) -> Transactor
        ensures { result ≡ transactor_fallen place self }
    {
        let end = if self.at_opening && self.end.is_none() {
            Some(place)
        } else {
            self.end
        };
        Transactor {
            turn: None,
            end,
            stable: false,
            ..self
        }
    }
}
