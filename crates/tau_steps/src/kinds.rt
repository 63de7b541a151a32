//! The words that begin the forms of steps.
ghost use Rattle.std.specs.Prelude.{◌≡◌};
ghost use Rattle.tau_steps.specs.Kinds.{kind_in, kind_at, message_step, alone_step};

use tau_sexpr::Word;
use tau_trace::Step;

/// What the form of a step is, by the word that begins it.
#[derive(Clone, Copy, Debug, PartialEq, Eq)]
pub(crate) enum Kind {
    OfMessage(MessageKind),
    Alone(AloneKind),
    Set,
    Send,
    New,
    Ask,
    Trap,
    Lose,
    Echo,
    Repeat,
    Other,
}

/// The kinds of steps that name a transactor and a message.
#[derive(Clone, Copy, Debug, PartialEq, Eq)]
pub(crate) enum MessageKind {
    Take,
    Drop,
    Fall,
    Void,
    Heed,
}

/// The kinds of steps that name their transactor alone.
#[derive(Clone, Copy, Debug, PartialEq, Eq)]
pub(crate) enum AloneKind {
    Get,
    Skip,
    Stabilize,
    Checkpoint,
    Hold,
    Rollback,
    Stay,
    Done,
    Fail,
}

/// The kind that a word begins the form of.
pub(crate) fn kind_of(word: &Word) -> Kind
    ensures { result ≡ kind_in word.now }
{
    let bytes = word.bytes();
    if bytes == b"take".as_slice() {
        return Kind::OfMessage(MessageKind::Take);
    }
    if bytes == b"drop".as_slice() {
        return Kind::OfMessage(MessageKind::Drop);
    }
    if bytes == b"fall".as_slice() {
        return Kind::OfMessage(MessageKind::Fall);
    }
    if bytes == b"void".as_slice() {
        return Kind::OfMessage(MessageKind::Void);
    }
    if bytes == b"get".as_slice() {
        return Kind::Alone(AloneKind::Get);
    }
    if bytes == b"set".as_slice() {
        return Kind::Set;
    }
    if bytes == b"skip".as_slice() {
        return Kind::Alone(AloneKind::Skip);
    }
    if bytes == b"send".as_slice() {
        return Kind::Send;
    }
    if bytes == b"new".as_slice() {
        return Kind::New;
    }
    if bytes == b"stabilize".as_slice() {
        return Kind::Alone(AloneKind::Stabilize);
    }
    if bytes == b"ask".as_slice() {
        return Kind::Ask;
    }
    if bytes == b"checkpoint".as_slice() {
        return Kind::Alone(AloneKind::Checkpoint);
    }
    if bytes == b"hold".as_slice() {
        return Kind::Alone(AloneKind::Hold);
    }
    if bytes == b"rollback".as_slice() {
        return Kind::Alone(AloneKind::Rollback);
    }
    if bytes == b"stay".as_slice() {
        return Kind::Alone(AloneKind::Stay);
    }
    if bytes == b"done".as_slice() {
        return Kind::Alone(AloneKind::Done);
    }
    if bytes == b"trap".as_slice() {
        return Kind::Trap;
    }
    if bytes == b"fail".as_slice() {
        return Kind::Alone(AloneKind::Fail);
    }
    if bytes == b"lose".as_slice() {
        return Kind::Lose;
    }
    if bytes == b"echo".as_slice() {
        return Kind::Echo;
    }
    if bytes == b"heed".as_slice() {
        return Kind::OfMessage(MessageKind::Heed);
    }
    if bytes == b"repeat".as_slice() {
        return Kind::Repeat;
    }
    Kind::Other
}

impl Kind {
    /// What a form of this kind is in a version: in version 1 no step is an Echo, a Heed or a Repeat.
    pub(crate) fn in_version(self, version: u32) -> Kind
        ensures { result ≡ kind_at version self }
    {
        match self {
            Kind::Echo | Kind::OfMessage(MessageKind::Heed) | Kind::Repeat => {
                if version == 2 { self } else { Kind::Other }
            }
            _ => self,
        }
    }
}

impl MessageKind {
    /// The step of this kind.
    pub(crate) fn step(self, who: u32, message: u32) -> Step
        ensures { result ≡ message_step self who message }
    {
        match self {
            MessageKind::Take => Step::Take { who, message },
            MessageKind::Drop => Step::Drop { who, message },
            MessageKind::Fall => Step::Fall { who, message },
            MessageKind::Void => Step::Void { who, message },
            MessageKind::Heed => Step::Heed { who, message },
        }
    }
}

impl AloneKind {
    /// The step of this kind.
    pub(crate) fn step(self, who: u32) -> Step
        ensures { result ≡ alone_step self who }
    {
        match self {
            AloneKind::Get => Step::Get { who },
            AloneKind::Skip => Step::Skip { who },
            AloneKind::Stabilize => Step::Stabilize { who },
            AloneKind::Checkpoint => Step::Checkpoint { who },
            AloneKind::Hold => Step::Hold { who },
            AloneKind::Rollback => Step::Rollback { who },
            AloneKind::Stay => Step::Stay { who },
            AloneKind::Done => Step::Done { who },
            AloneKind::Fail => Step::Fail { who },
        }
    }
}
