//! A run, and the calls that make its steps.
ghost use Rattle.std.specs.Prelude.{◌≡◌, ◌<◌, false};
ghost use Rattle.tau_tree.specs.Sound.{Sound};
ghost use Rattle.tau_trace.specs.Run.{len};
ghost use Rattle.tau_value.specs.declared.limits.TheConstants.{STEP_LIMIT};

use crate::answers::Answer;
use crate::showing::add_step;
use std::alloc::{AllocError, Global};
use tau_eval::{Job, Pending, begin};
use tau_knowledge::Knowledge;
use tau_rules::{
    ActError, Acted, DeliverError, Delivered, FailError, LoseError, RepeatError, System,
};
use tau_tree::Program;
use tau_value::{STEP_LIMIT, Value};

/// A system, and the jobs that it handed out.
#[derive(Drop)]
pub(crate) struct Run<'p, K: Knowledge + Drop> {
    alloc: Global,
    pub(crate) system: System<'p, K>,
    jobs: Vec<Job<'p>>,
}

impl<'p, K: Knowledge + Drop> Run<'p, K> {
    /// The run of a program before its first step.
    pub(crate) fn open(alloc: Global, program: &'p Program) -> Result<Run<'p, K>, AllocError>
        requires { Sound program.now }
    {
        Ok(Run {
            alloc,
            system: System::open(alloc, program)?,
            jobs: Vec::new(alloc),
        })
    }

    /// Makes a call that makes steps or keeps a job, and adds what it answers to the text. `false` where the verb names none.
    pub(crate) fn make(
        &mut self,
        text: &mut String,
        verb: &str,
        number: u32,
        value: u32,
    ) -> Result<bool, AllocError> {
        match verb {
            "run" => self.run(text, number)?,
            "begin" => self.begin(number, value)?,
            _ => return self.step(text, verb, number),
        }
        Ok(true)
    }

    /// Makes a call that makes a step, and adds what it came to. `false` where the verb names none.
    fn step(&mut self, text: &mut String, verb: &str, number: u32) -> Result<bool, AllocError> {
        let answer = match verb {
            "deliver" => self.deliver(number)?,
            "act" => self.act(number)?,
            "fail" => self.fail(number)?,
            "lose" => self.lose(number)?,
            "repeat" => self.repeat(number)?,
            _ => return Ok(false),
        };
        self.tell(text, answer)?;
        Ok(true)
    }

    /// Adds what a call came to.
    fn tell(&mut self, text: &mut String, answer: Answer) -> Result<(), AllocError> {
        match answer {
            Answer::Made => add_step(self.alloc, text, self.system.trace()),
            Answer::Redone => text.push_str("(redo)\n"),
            Answer::NotInFlight { ended_by } => writeln!(text, "(not in flight {ended_by})"),
            Answer::Busy { turn } => writeln!(text, "(busy {turn})"),
            Answer::Stale { ended_by } => writeln!(text, "(stale {ended_by})"),
            Answer::Ended { place } => writeln!(text, "(ended {place})"),
            Answer::Nothing => text.push_str("(nothing)\n"),
        }
    }

    /// Delivers a message. The job of the turn that begins is kept.
    fn deliver(&mut self, message: u32) -> Result<Answer, AllocError> {
        if message >= self.system.trace().sent() || self.is_full() {
            return Ok(Answer::Nothing);
        }
        match self.system.deliver(message) {
            Ok(Delivered::Began(job)) => self.keep(job, Answer::Made),
            Ok(_) => Ok(Answer::Made),
            Err(DeliverError::NotInFlight { ended_by }) => Ok(Answer::NotInFlight { ended_by }),
            Err(DeliverError::Busy { turn }) => Ok(Answer::Busy { turn }),
            Err(DeliverError::NoMemory) => Err(AllocError),
        }
    }

    /// Makes the next step of the job that is kept for a transactor.
    fn act(&mut self, who: u32) -> Result<Answer, AllocError> {
        let Some(place) = self.jobs.iter().position(|job| job.who() == who) else {
            return Ok(Answer::Nothing);
        };
        let job = self.jobs.swap_remove(place);
        self.act_job(job)
    }

    /// Makes the next step of a job. The job with its reply is kept.
    fn act_job(&mut self, job: Job<'p>) -> Result<Answer, AllocError> {
        let pending = pending_of(job)?;
        match self.bring(&pending) {
            Ok((answer, reply)) => self.go_on(pending, reply, answer),
            Err(failed) => {
                drop(pending);
                Err(failed)
            }
        }
    }

    /// Brings an effect. What that came to, and the reply, where the turn goes on with one.
    fn bring(&mut self, pending: &Pending<'p>) -> Result<(Answer, Option<Value>), AllocError> {
        if self.is_full() {
            return Ok((Answer::Nothing, None));
        }
        match self.system.act(pending) {
            Ok(Acted::Reply(reply)) => Ok((Answer::Made, Some(reply))),
            Ok(Acted::TurnOver) => Ok((Answer::Made, None)),
            Ok(Acted::Redo(job)) => Ok((self.keep(job, Answer::Redone)?, None)),
            Err(ActError::Stale { ended_by }) => Ok((Answer::Stale { ended_by }, None)),
            Err(ActError::NoMemory) => Err(AllocError),
        }
    }

    /// Keeps the job that goes on with a reply, where there is one, and hands on the answer.
    fn go_on(
        &mut self,
        pending: Pending<'p>,
        reply: Option<Value>,
        answer: Answer,
    ) -> Result<Answer, AllocError> {
        match reply {
            Some(reply) => self.keep(pending.resume(reply), answer),
            None => {
                drop(pending);
                Ok(answer)
            }
        }
    }

    /// Keeps a job, and hands on the answer.
    fn keep(&mut self, job: Job<'p>, answer: Answer) -> Result<Answer, AllocError> {
        self.jobs.push(job)?;
        Ok(answer)
    }

    /// Whether the run has as many steps as it may have.
    fn is_full(&self) -> bool
        ensures { result ≡ false → len self.now.system.run < STEP_LIMIT }
    {
        self.system.trace().len() >= STEP_LIMIT
    }

    /// Lets a transactor fail.
    fn fail(&mut self, who: u32) -> Result<Answer, AllocError> {
        if who >= self.system.trace().born() || self.is_full() {
            return Ok(Answer::Nothing);
        }
        match self.system.fail(who) {
            Ok(()) => Ok(Answer::Made),
            Err(FailError::Ended { place }) => Ok(Answer::Ended { place }),
            Err(FailError::NoMemory) => Err(AllocError),
        }
    }

    /// Loses a message.
    fn lose(&mut self, message: u32) -> Result<Answer, AllocError> {
        if message >= self.system.trace().sent() || self.is_full() {
            return Ok(Answer::Nothing);
        }
        match self.system.lose(message) {
            Ok(()) => Ok(Answer::Made),
            Err(LoseError::NotInFlight { ended_by }) => Ok(Answer::NotInFlight { ended_by }),
            Err(LoseError::NoMemory) => Err(AllocError),
        }
    }

    /// Repeats a message, in version 2.
    fn repeat(&mut self, message: u32) -> Result<Answer, AllocError> {
        if self.system.trace().opening().version != 2 {
            return Ok(Answer::Nothing);
        }
        if message >= self.system.trace().sent() || self.is_full() {
            return Ok(Answer::Nothing);
        }
        match self.system.repeat(message) {
            Ok(()) => Ok(Answer::Made),
            Err(RepeatError::NotInFlight { ended_by }) => Ok(Answer::NotInFlight { ended_by }),
            Err(RepeatError::NoMemory) => Err(AllocError),
        }
    }

    /// Keeps, in place of the jobs there, one of a turn from a place that takes this number as its message, of the first
    /// transactor with the first behaviour.
    fn begin(&mut self, place: u32, number: u32) -> Result<(), AllocError> {
        let program = self.system.program();
        if program.behaviours.len() == 0 {
            return Ok(());
        }
        let message = Value::Int(i64::from(number));
        let job = begin(self.alloc, program, 0, 0, place, message)?;
        self.jobs.clear();
        self.jobs.push(job)?;
        Ok(())
    }

    /// Makes up to so many steps, each of the job that was kept last, or the receipt of the least message in flight, and adds
    /// how many the run has.
    fn run(&mut self, text: &mut String, limit: u32) -> Result<(), AllocError> {
        let mut least = 0;
        for _ in 0..limit {
            if let Some(job) = self.jobs.pop() {
                self.act_job(job)?;
            } else {
                least = self.in_flight_from(least);
                if least >= self.system.trace().sent() {
                    break;
                }
                self.deliver(least)?;
            }
        }
        let steps = self.system.trace().len();
        writeln!(text, "(steps {steps})")
    }

    /// The least message in flight that isn't less, or the number of messages.
    fn in_flight_from(&self, from: u32) -> u32 {
        let trace = self.system.trace();
        for message in from..trace.sent() {
            if trace.ended_by(message).is_none() {
                return message;
            }
        }
        trace.sent()
    }
}

/// The effect to which a job comes.
fn pending_of(job: Job<'_>) -> Result<Pending<'_>, AllocError> {
    match job.advance() {
        Ok(pending) => Ok(pending),
        Err((job, failed)) => {
            drop(job);
            Err(failed)
        }
    }
}
