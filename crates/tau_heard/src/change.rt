//! What a step changes in what is kept.
ghost use Rattle.std.specs.Prelude.{◌≡◌, IfOk};
ghost use Rattle.tau_heard.specs.Next.{actor_change, turn_change};

use crate::letter::Letter;
use crate::own::Own;
use std::alloc::{AllocError, Global};
use std::marker::Model;
use tau_points::Point;
use tau_versions::logs::{Log, Version};
use tau_versions::roots::Roots;

/// What a step changes, with all memory that it takes.
#[derive(Drop)]
pub struct HearingChange {
    /// What becomes of the transactor that makes the step.
    pub actor: Option<ActorChange>,
    /// The transactor that the step makes.
    pub newborn: Option<BoxedNewborn>,
    /// The message that the step takes out of flight.
    pub gone: Option<u32>,
    /// The message that the step makes.
    pub letter: Option<Letter>,
    /// Whether it is a falling step.
    pub falls: bool,
}

/// What becomes of the transactor that makes a step.
#[derive(Drop)]
pub struct ActorChange {
    /// The transactor.
    pub who: u32,
    /// The message that it hears of.
    pub hears: Option<u32>,
    /// What becomes of its log.
    pub log: LogChange,
    /// What becomes of its turn.
    pub turn: TurnChange,
}

/// A transactor that a step makes.
#[derive(Drop)]
pub struct Newborn {
    pub log: Log,
    pub own: Own,
}

/// A new transactor behind its address: few steps make one, and the change of each step is moved from call to call. Contracts see the
/// transactor.
#[derive(Drop)]
pub struct BoxedNewborn {
    newborn: Box<Newborn>,
}

impl Model for BoxedNewborn {
    ghost use Rattle.tau_heard.specs.declared.change.Newborn.{Newborn};

    ghost Value = { Newborn };

    ghost view = { λ b. b.newborn.value };
}

impl BoxedNewborn {
    /// The new transactor behind a new box. The error is want of memory.
    pub(crate) fn new(alloc: Global, newborn: Newborn) -> Result<BoxedNewborn, AllocError>
        ensures { IfOk result (λ b. b ≡ newborn) }
    {
        Ok(BoxedNewborn {
            newborn: Box::new(alloc, newborn)?,
        })
    }

    /// The new transactor, out of its box.
    pub(crate) fn into_newborn(self) -> Newborn
        ensures { result ≡ self }
    {
        Box::into_inner(self.newborn)
    }
}

/// What becomes of a log.
#[derive(Drop)]
pub enum LogChange {
    /// Nothing.
    Stays,
    /// A version is added.
    Moves(Version),
    /// Takes are added, and a version that has them.
    Takes(Vec<Point>, Version),
    /// The interval is closed with an incarnation, and the first version of the next one is added.
    Closes(u32, Version),
}

/// What becomes of a turn.
#[derive(Drop)]
pub enum TurnChange {
    /// Nothing.
    Stays,
    /// It touches the own point.
    Touches,
    /// It touches the own point, which has taken all that the turn takes along.
    Depends,
    /// It begins with these roots.
    Begins(Roots),
    /// It ends.
    Ends,
}

impl ActorChange {
    /// What becomes of a transactor: the message that it hears of, its log and its turn.
    pub(crate) fn of(who: u32, hears: Option<u32>, log: LogChange, turn: TurnChange) -> ActorChange
        ensures { result ≡ record { who = who; hears = hears; log = log; turn = turn } }
    {
        ActorChange {
            who,
            hears,
            log,
            turn,
        }
    }
}

impl HearingChange {
    /// A change of the transactor that makes the step alone, and of a message that is out of flight then.
    pub(crate) fn of_actor(actor: ActorChange, gone: Option<u32>, falls: bool) -> HearingChange
        ensures { result ≡ actor_change actor gone falls }
    {
        HearingChange {
            actor: Some(actor),
            newborn: None,
            gone,
            letter: None,
            falls,
        }
    }

    /// A change of its turn alone.
    pub(crate) fn of_turn(who: u32, turn: TurnChange) -> HearingChange
        ensures { result ≡ turn_change who turn }
    {
        HearingChange::of_actor(
            ActorChange::of(who, None, LogChange::Stays, turn),
            None,
            false,
        )
    }
}
