//! The book.
ghost use Rattle.std.specs.Prelude.{◌≡◌, ◌≢◌, ◌<◌, ◌≤◌, ◌↔◌, ℕ, [], IsTrue, IsFalse, IfOk, IfErr, OnOk, OnErr, length};
ghost use Rattle.tau_value.specs.declared.limits.TheConstants.{STEP_LIMIT};
ghost use Rattle.tau_tree.specs.Sound.{Sound};
ghost use Rattle.tau_script.specs.Openings.{program_opening};
ghost use Rattle.tau_trace.specs.Run.{len};
ghost use Rattle.tau_trace.specs.Known.{WellFormed};
ghost use Rattle.tau_legal.specs.Traces.{Legal};
ghost use Rattle.tau_rules.specs.Answers.{IsOpenJob, IsUnacted, acted_by};
ghost use Rattle.tau_rules.specs.KnownJobs.{WasOpenJob};
ghost use Rattle.tau_book.specs.Books.{IsBook, IsComplete, IsAtLimit, GoesOn};
ghost use Rattle.tau_queue.specs.Flight.{IsDeliverable};
ghost use Rattle.tau_book.specs.Offers.{OffersMore};
ghost use Rattle.tau_book.specs.Nexts.{IsNext, IsDueTried};
ghost use Rattle.tau_book.specs.Tolds.{IsTold, IsTried, IsTurnStep, StaysAtRedo, IsGivenBack, IsFinished};
ghost use Rattle.tau_book.specs.Places.{LeavesRoom, ComesBack};

use crate::choosing::choose;
use crate::jobs::keep_open;
use crate::{Hand, Next, Told};
use std::alloc::{AllocError, Global};
use std::marker::Model;
use tau_eval::{Job, Pending};
use tau_knowledge::Knowledge;
use tau_queue::Scripted;
use tau_rules::{ActError, Acted, System};
use tau_trace::Trace;
use tau_tree::Program;
use tau_value::Value;

/// The step book: a legal run of a program to which steps are appended up to a limit, and the jobs that workers have given back, at most
/// one of each turn (docs/rules.md, "Choice of a worker"). Contracts see the system, the letters of the messages in flight, the
/// cursor of the script, the limit and the returned jobs.
#[derive(Drop)]
pub struct Book<'p, K: Knowledge + Drop> {
    pub(crate) scripted: Scripted<'p, K>,
    pub(crate) limit: u32,
    pub(crate) store: Vec<Job<'p>>,
    pub(crate) alloc: Global,
}

impl<'p, K: Knowledge + Drop> Model for Book<'p, K> {
    ghost use Rattle.std.specs.Vec.{vec_capacity};
    ghost use Rattle.std.specs.Coded.{codes};
    ghost use Rattle.tau_value.specs.Val.{val_code};
    ghost use Rattle.tau_tree.specs.Code.{code_code};
    ghost use Rattle.tau_eval.specs.Turn.{turn_code};
    ghost use Rattle.tau_book.specs.Books.{Booked, booked, IsKept};

    ghost Value = { Booked };

    ghost coded = { Prim.hlevel (codes, val_code, code_code, turn_code) };

    ghost view = { λ b. booked b.scripted b.limit b.store.items };

    ghost invariant = { λ b. IsKept b.scripted b.limit b.store.items (vec_capacity b.store) };
}

impl<'p, K: Knowledge + Drop> Book<'p, K> {
    /// The book of a program before its first step, with a limit of steps. The error is want of memory.
    pub fn open(alloc: Global, program: &'p Program, limit: u32) -> Result<Book<'p, K>, AllocError>
        requires sound { Sound program.now }
        requires limit { limit ≤ STEP_LIMIT }
        ensures program { IfOk result (λ b. b.system.program ≡ program.entry.now) }
        ensures run { IfOk result (λ b. b.system.run ≡ record { opening = program_opening program.entry.now; steps = [] }) }
        ensures limit { IfOk result (λ b. b.limit ≡ limit) }
        ensures store { IfOk result (λ b. b.store ≡ []) }
    {
        Ok(Book {
            scripted: Scripted::open(alloc, program)?,
            limit,
            store: Vec::new(alloc),
            alloc,
        })
    }

    /// The system: the program and the trace so far, which is legal.
    pub fn system(&self) -> &System<'p, K>
        ensures system { result.now ≡ self.now.system }
        ensures book { IsBook self.now }
    {
        self.scripted.system()
    }

    /// The limit of steps.
    pub fn limit(&self) -> u32
        ensures { result ≡ self.now.limit }
    {
        self.limit
    }

    /// What the worker of this hand is to do next (docs/rules.md, "Choice of a worker"): the first that applies of `Complete`,
    /// `Stopped`, a due step of the script, and, once jobs of turns that aren't open are given up and the hand has taken up a
    /// returned job, `Idle` and a choice by the next word of the hand's generator. The error is want of memory, and nothing is
    /// different then.
    pub fn next(&mut self, hand: &mut Hand<'p>) -> Result<Next<'p>, AllocError>
        ensures ok { IfOk result (IsNext self.old self.new hand.old hand.new) }
        ensures was_book { IsBook self.old }
        ensures is_book { IsBook self.new }
        ensures room { IfOk result (LeavesRoom hand.new) }
        ensures size { hand.new.size ≡ hand.old.size }
        ensures book_on_err { OnErr result (self.new ≡ self.old) }
        ensures hand_on_err { OnErr result (hand.new ≡ hand.old) }
    {
        // What holds of the book before and after.
        let _before = self.system();
        let answer = self.answer(hand)?;
        let _after = self.system();
        Ok(answer)
    }

    /// The answer of `next`.
    fn answer(&mut self, hand: &mut Hand<'p>) -> Result<Next<'p>, AllocError>
        ensures ok { IfOk result (IsNext self.old self.new hand.old hand.new) }
        ensures room { IfOk result (LeavesRoom hand.new) }
        ensures size { hand.new.size ≡ hand.old.size }
        ensures book_on_err { OnErr result (self.new ≡ self.old) }
        ensures hand_on_err { OnErr result (hand.new ≡ hand.old) }
    {
        if self.is_complete() {
            return Ok(Next::Complete);
        }
        if self.is_at_limit() {
            return Ok(Next::Stopped);
        }
        if self.make_due()? {
            return Ok(Next::Stepped);
        }
        self.choose(hand)
    }

    /// Whether the trace is complete.
    fn is_complete(&self) -> bool
        ensures { IsTrue result ↔ IsComplete self.now }
    {
        self.scripted.is_complete()
    }

    /// Whether the trace has as many steps as the limit.
    fn is_at_limit(&self) -> bool
        ensures at { IsTrue result → IsAtLimit self.now }
        ensures below { IsFalse result → len self.now.system.run < self.now.limit }
    {
        self.scripted.len() == self.limit
    }

    /// Appends the step of the script that is due, if one is.
    fn make_due(&mut self) -> Result<bool, AllocError>
        requires { len self.old.system.run < self.old.limit }
        ensures ok { IfOk result (IsDueTried self.old self.new) }
        ensures err { OnErr result (self.new ≡ self.old) }
    {
        self.scripted.make_due()
    }

    /// Chooses what the hand does next.
    fn choose(&mut self, hand: &mut Hand<'p>) -> Result<Next<'p>, AllocError>
        requires goes_on { GoesOn self.old }
        requires incomplete { ¬ IsComplete self.old }
        ensures ok { IfOk result (IsNext self.old self.new hand.old hand.new) }
        ensures room { IfOk result (LeavesRoom hand.new) }
        ensures size { hand.new.size ≡ hand.old.size }
        ensures book_on_err { OnErr result (self.new ≡ self.old) }
        ensures hand_on_err { OnErr result (hand.new ≡ hand.old) }
    {
        // That its messages are the deliverable ones.
        let _system = self.scripted.system();
        choose(&mut self.scripted, &mut self.store, hand)
    }

    /// Gives up all returned jobs.
    pub fn give_up(&mut self)
        ensures { self.new ≡ record self.old { store = [] } }
    {
        self.store.clear();
    }

    /// Whether there is something for a hand that has room: a deliverable message, or a returned job, which may be one of a turn that
    /// isn't open any more.
    pub fn offers_more(&self) -> bool
        ensures { IsTrue result ↔ OffersMore self.now }
    {
        self.has_deliverable() || self.has_returned()
    }

    /// Whether a message is deliverable.
    fn has_deliverable(&self) -> bool
        ensures { IsTrue result ↔ ((m : ℕ) × IsDeliverable self.now.system.run m) }
    {
        // That its messages are the deliverable ones.
        let _system = self.scripted.system();
        self.scripted.deliverable() > 0
    }

    /// Whether there is a returned job.
    pub fn has_returned(&self) -> bool
        ensures { IsTrue result ↔ (self.now.store ≢ []) }
    {
        !self.store.is_empty()
    }

    /// Takes the effect to which a job has come (docs/rules.md, "Choice of a worker"): the first that applies of `Stopped`, `Later`
    /// after a due step of the script, `Stale`, `Redone` and `Stepped`. The hand has room. `was_open` says that the job was the record of
    /// an open turn at some moment of the book's run (docs/rules.md, "Seats"). The answer is the same then, and the job is compared with
    /// no record that has as many replies. Without memory the effect comes back, and nothing is different.
    pub fn act(
        &mut self,
        hand: &mut Hand<'p>,
        pending: Pending<'p>,
        was_open: bool,
    ) -> Result<Told<'p>, (Pending<'p>, AllocError)>
        requires room { length hand.old.jobs < hand.old.size }
        requires known { IsTrue was_open → WasOpenJob self.old.system.program self.old.system.run pending }
        ensures ok { IfOk result (IsTold self.old self.new hand.old hand.new pending.entry) }
        ensures was_book { IsBook self.old }
        ensures is_book { IsBook self.new }
        ensures later { IfOk result (ComesBack hand.old hand.new pending.entry) }
        ensures size { hand.new.size ≡ hand.old.size }
        ensures pending_on_err { IfErr result (λ e. e.0 ≡ pending.entry) }
        ensures book_on_err { OnErr result (self.new ≡ self.old) }
        ensures hand_on_err { OnErr result (hand.new ≡ hand.old) }
    {
        // What holds of the book before and after.
        let _before = self.system();
        let told = self.tell(hand, pending, was_open)?;
        let _after = self.system();
        Ok(told)
    }

    /// The answer of `act`.
    fn tell(
        &mut self,
        hand: &mut Hand<'p>,
        pending: Pending<'p>,
        was_open: bool,
    ) -> Result<Told<'p>, (Pending<'p>, AllocError)>
        requires room { length hand.old.jobs < hand.old.size }
        requires known { IsTrue was_open → WasOpenJob self.old.system.program self.old.system.run pending }
        ensures ok { IfOk result (IsTold self.old self.new hand.old hand.new pending.entry) }
        ensures later { IfOk result (ComesBack hand.old hand.new pending.entry) }
        ensures size { hand.new.size ≡ hand.old.size }
        ensures pending_on_err { IfErr result (λ e. e.0 ≡ pending.entry) }
        ensures book_on_err { OnErr result (self.new ≡ self.old) }
        ensures hand_on_err { OnErr result (hand.new ≡ hand.old) }
    {
        if self.is_at_limit() {
            return Ok(Told::Stopped);
        }
        match self.make_due() {
            Ok(true) => Ok(Told::Later(pending)),
            Ok(false) => {
                if was_open {
                    self.make_known(hand, pending)
                } else {
                    self.make(hand, pending)
                }
            }
            Err(failed) => Err((pending, failed)),
        }
    }

    /// Makes the step of an effect whose job is compared with the record; none of the script is due.
    fn make(
        &mut self,
        hand: &mut Hand<'p>,
        pending: Pending<'p>,
    ) -> Result<Told<'p>, (Pending<'p>, AllocError)>
        requires room { length hand.old.jobs < hand.old.size }
        requires goes_on { GoesOn self.old }
        ensures ok { IfOk result (IsTold self.old self.new hand.old hand.new pending.entry) }
        ensures later { IfOk result (ComesBack hand.old hand.new pending.entry) }
        ensures size { hand.new.size ≡ hand.old.size }
        ensures pending_on_err { IfErr result (λ e. e.0 ≡ pending.entry) }
        ensures book_on_err { OnErr result (self.new ≡ self.old) }
        ensures hand_on_err { OnErr result (hand.new ≡ hand.old) }
    {
        match self.try_effect(&pending) {
            Ok(Acted::Reply(reply)) => {
                hand.keep(pending.resume(reply));
                Ok(Told::Stepped)
            }
            Ok(Acted::TurnOver) => Ok(Told::Stepped),
            Ok(Acted::Redo(job)) => {
                hand.keep(job);
                Ok(Told::Redone)
            }
            Err(ActError::Stale { ended_by }) => Ok(Told::Stale { ended_by }),
            Err(ActError::NoMemory) => Err((pending, AllocError)),
        }
    }

    /// Tries the effect; no step of the script is due.
    fn try_effect(&mut self, pending: &Pending<'p>) -> Result<Acted<'p>, ActError>
        requires { GoesOn self.old }
        ensures ok { IfOk result (IsTried self.old self.new pending.now) }
        ensures redone { IfOk result (StaysAtRedo self.old self.new) }
        ensures unchanged { IfErr result (λ e. self.new ≡ self.old) }
        ensures err { IfErr result (IsUnacted self.old.system.run pending.now.place) }
    {
        self.scripted.act(pending)
    }

    /// Makes the step of an effect of a job that was the record of an open turn; none of the script is due.
    fn make_known(
        &mut self,
        hand: &mut Hand<'p>,
        pending: Pending<'p>,
    ) -> Result<Told<'p>, (Pending<'p>, AllocError)>
        requires room { length hand.old.jobs < hand.old.size }
        requires goes_on { GoesOn self.old }
        requires known { WasOpenJob self.old.system.program self.old.system.run pending }
        ensures ok { IfOk result (IsTold self.old self.new hand.old hand.new pending.entry) }
        ensures later { IfOk result (ComesBack hand.old hand.new pending.entry) }
        ensures size { hand.new.size ≡ hand.old.size }
        ensures pending_on_err { IfErr result (λ e. e.0 ≡ pending.entry) }
        ensures book_on_err { OnErr result (self.new ≡ self.old) }
        ensures hand_on_err { OnErr result (hand.new ≡ hand.old) }
    {
        if self.is_open_still(&pending) {
            self.bring_open(hand, pending)?;
            Ok(Told::Stepped)
        } else {
            self.make(hand, pending)
        }
    }

    /// Whether a job that was the record of an open turn is it still.
    fn is_open_still(&self, pending: &Pending<'p>) -> bool
        requires { WasOpenJob self.now.system.program self.now.system.run pending.now }
        ensures { IsTrue result ↔ IsOpenJob self.now.system.program self.now.system.run pending.now }
    {
        self.system().is_open_still(pending)
    }

    /// `act` where the book goes on and the job is known to be the record of an open turn, so nothing is compared: the step of the
    /// effect is appended, and where the turn goes on, the job with the reply joins the hand, which has room. The error is want of
    /// memory, and nothing is different then.
    pub(crate) fn act_open(
        &mut self,
        hand: &mut Hand<'p>,
        pending: Pending<'p>,
    ) -> Result<(), AllocError>
        requires room { length hand.old.jobs < hand.old.size }
        requires goes_on { GoesOn self.old }
        requires is_open { IsOpenJob self.old.system.program self.old.system.run pending }
        ensures ok { OnOk result (IsTurnStep self.old self.new hand.old hand.new pending.entry) }
        ensures was_book { IsBook self.old }
        ensures is_book { IsBook self.new }
        ensures limit { self.new.limit ≡ self.old.limit }
        ensures size { hand.new.size ≡ hand.old.size }
        ensures book_on_err { OnErr result (self.new ≡ self.old) }
        ensures hand_on_err { OnErr result (hand.new ≡ hand.old) }
    {
        // What holds of the book before and after.
        let _before = self.system();
        match self.bring_open(hand, pending) {
            Ok(()) => {}
            Err((_pending, failed)) => return Err(failed),
        }
        let _after = self.system();
        Ok(())
    }

    /// Makes the step of an effect of a job that is the record of its turn; none of the script is due. Without memory the effect comes
    /// back.
    fn bring_open(
        &mut self,
        hand: &mut Hand<'p>,
        pending: Pending<'p>,
    ) -> Result<(), (Pending<'p>, AllocError)>
        requires room { length hand.old.jobs < hand.old.size }
        requires goes_on { GoesOn self.old }
        requires is_open { IsOpenJob self.old.system.program self.old.system.run pending }
        ensures ok { OnOk result (IsTurnStep self.old self.new hand.old hand.new pending.entry) }
        ensures limit { self.new.limit ≡ self.old.limit }
        ensures size { hand.new.size ≡ hand.old.size }
        ensures pending_on_err { IfErr result (λ e. e.0 ≡ pending.entry) }
        ensures book_on_err { OnErr result (self.new ≡ self.old) }
        ensures hand_on_err { OnErr result (hand.new ≡ hand.old) }
    {
        match self.try_open(&pending) {
            Ok(Some(reply)) => {
                hand.keep(pending.resume(reply));
                Ok(())
            }
            Ok(None) => Ok(()),
            Err(failed) => Err((pending, failed)),
        }
    }

    /// Tries the effect of a job that is the record of its turn; no step of the script is due.
    fn try_open(&mut self, pending: &Pending<'p>) -> Result<Option<Value>, AllocError>
        requires goes_on { GoesOn self.old }
        requires is_open { IsOpenJob self.old.system.program self.old.system.run pending.now }
        ensures ok { IfOk result (λ r. IsTried self.old self.new pending.now (acted_by r)) }
        ensures limit { self.new.limit ≡ self.old.limit }
        ensures unchanged { OnErr result (self.new ≡ self.old) }
    {
        self.scripted.act_open(pending)
    }

    /// Takes back the jobs of a hand, which is empty then. Those whose turn isn't open are given up, and so is a second job of one
    /// turn. It takes no memory.
    pub fn give_back(&mut self, hand: &mut Hand<'p>)
        ensures given { IsGivenBack self.old self.new hand.old hand.new }
        ensures empty { hand.new.jobs ≡ [] }
        ensures size { hand.new.size ≡ hand.old.size }
    {
        let turns = self.scripted.turns();
        keep_open(turns, &mut self.store);
        hand.give_to(turns, &mut self.store);
    }

    /// The trace.
    pub fn into_trace(self) -> Trace
        ensures run { result.run ≡ self.entry.system.run }
        ensures well_formed { WellFormed result.run }
        ensures legal { Legal self.entry.system.program result.run }
    {
        self.scripted.into_trace()
    }

    /// Whether the trace is complete, where it is or has as many steps as the limit; otherwise `None`.
    pub fn finished(&self) -> Option<bool>
        ensures { IsFinished self.now result }
    {
        if self.is_complete() {
            Some(true)
        } else if self.is_at_limit() {
            Some(false)
        } else {
            None
        }
    }
}
