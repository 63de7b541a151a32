//! Whether anything is left to do after a trace.
ghost use Rattle.std.specs.Prelude.{◌↔◌, ℕ, IsTrue};
ghost use Rattle.tau_trace.specs.Run.{len};
ghost use Rattle.tau_trace.specs.Numbering.{InFlight};
ghost use Rattle.tau_trace.specs.Known.{WellFormed};
ghost use Rattle.tau_trace.specs.Turns.{Turn};
ghost use Rattle.tau_failures.specs.LegalRun.{NothingLeft};

use tau_trace::Trace;

/// Whether no turn is open and no message is in flight.
pub(crate) fn nothing_left(trace: &Trace) -> bool
    requires { WellFormed trace.now.run }
    ensures { IsTrue result ↔ NothingLeft trace.now.run }
{
    if !none_open(trace) {
        return false;
    }
    none_in_flight(trace)
}

/// Whether no turn is open.
fn none_open(trace: &Trace) -> bool
    requires { WellFormed trace.now.run }
    ensures { IsTrue result ↔ ((t place m : ℕ) → ¬ Turn trace.now.run t (len trace.now.run) place m) }
{
    let count = trace.born();
    for who in 0..count {
        if trace.open_turn(who).is_some() {
            return false;
        }
    }
    true
}

/// Whether no message is in flight.
fn none_in_flight(trace: &Trace) -> bool
    ensures { IsTrue result ↔ ((m : ℕ) → ¬ InFlight trace.now.run m (len trace.now.run)) }
{
    let count = trace.sent();
    for message in 0..count {
        if trace.ended_by(message).is_none() {
            return false;
        }
    }
    true
}
