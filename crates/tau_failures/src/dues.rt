//! What a script makes due.
ghost use Rattle.std.specs.Prelude.{◌≡◌, IfSome, IsTrue};
ghost use Rattle.tau_script.specs.Scripts.{is_failure};
ghost use Rattle.tau_failures.specs.Dues.{step_of, due_step};

use tau_trace::Step;

/// What a script makes due: that a transactor fails, or that a message in flight is lost or repeated (docs/rules.md, "Scripts").
#[derive(Clone, Copy, Debug, PartialEq, Eq)]
pub enum Due {
    /// The transactor of this number fails.
    Fail { who: u32 },
    /// The message of this number is lost.
    Lose { message: u32 },
    /// The message of this number is repeated.
    Repeat { message: u32 },
}

impl Due {
    /// The step by which it is made.
    pub fn step(self) -> Step
        ensures { result ≡ step_of self }
    {
        match self {
            Due::Fail { who } => Step::Fail { who },
            Due::Lose { message } => Step::Lose { message },
            Due::Repeat { message } => Step::Repeat { message },
        }
    }
}

/// What is due, by the step of it.
pub(crate) fn due_of(step: Option<Step>) -> Option<Due>
    requires { IfSome step (λ s. IsTrue (is_failure s)) }
    ensures { due_step result ≡ step }
{
    match step {
        Some(Step::Fail { who }) => Some(Due::Fail { who }),
        Some(Step::Lose { message }) => Some(Due::Lose { message }),
        Some(Step::Repeat { message }) => Some(Due::Repeat { message }),
        Some(_) => unreachable!(),
        None => None,
    }
}
