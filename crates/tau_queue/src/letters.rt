//! The letters of messages: of those that exist, and of those that a step is about to make.
ghost use Rattle.std.specs.Prelude.{◌≡◌, ◌<◌, IfSome};
ghost use Rattle.tau_trace.specs.Run.{len};
ghost use Rattle.tau_trace.specs.Numbering.{sent, Receives, IsHome};
ghost use Rattle.tau_legal.specs.Receivers.{HasReceiver};
ghost use Rattle.tau_queue.specs.Inner.Index.{IsNoticeLetter};

use tau_mailbox::Letter;
use tau_trace::Trace;

/// The letter of a message that has a receiver.
pub(crate) fn letter_of(trace: &Trace, message: u32) -> Letter
    requires exists { message < sent trace.now.run (len trace.now.run) }
    requires received { HasReceiver trace.now.run message }
    ensures message { result.message ≡ message }
    ensures receiver { Receives trace.now.run message result.who }
    ensures home { IsHome trace.now.run result.who result.node }
    ensures node { result.node < trace.now.run.opening.nodes }
{
    // The trace is well formed, so what a message names exists.
    let _len = trace.len();
    let Some(who) = trace.target(message) else {
        unreachable!()
    };
    let Some(node) = trace.home(who) else {
        unreachable!()
    };
    Letter { message, who, node }
}

/// The letter of the copy that a Repeat of a message makes: it goes to the same receiver.
pub(crate) fn copy_of(trace: &Trace, message: u32) -> Letter
    requires exists { message < sent trace.now.run (len trace.now.run) }
    requires received { HasReceiver trace.now.run message }
    ensures message { result.message ≡ sent trace.now.run (len trace.now.run) }
    ensures receiver { Receives trace.now.run message result.who }
    ensures home { IsHome trace.now.run result.who result.node }
    ensures node { result.node < trace.now.run.opening.nodes }
{
    let letter = letter_of(trace, message);
    Letter {
        message: trace.sent(),
        who: letter.who,
        node: letter.node,
    }
}

/// The letter of the notice that the Echo of a message makes, which goes to the sender; `None` where the receiver hasn't
/// ended or the message has no sender.
pub(crate) fn notice_of(trace: &Trace, letter: Letter) -> Option<Letter>
    requires { letter.message < sent trace.now.run (len trace.now.run) }
    ensures tells { IsNoticeLetter trace.now.run letter.who letter.message result }
    ensures node { IfSome result (λ l. l.node < trace.now.run.opening.nodes) }
{
    // The trace is well formed, so the sender of a message exists.
    let _len = trace.len();
    if trace.end_of(letter.who).is_none() {
        return None;
    }
    let Some(who) = trace.sender(letter.message) else {
        return None;
    };
    let Some(node) = trace.home(who) else {
        unreachable!()
    };
    Some(Letter {
        message: trace.sent(),
        who,
        node,
    })
}
