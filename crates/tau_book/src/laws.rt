//! Laws of serial runs, of books and of the jobs of hands, each the contract of a function that does nothing.
ghost use Rattle.tau_book.specs.Laws.{SerialRunIsUnique, RunAfterIsUnique, ComesAfterNone, AdoptedIsNotIdle};
ghost use Rattle.tau_book.specs.Knowing.{NextHandsOnKnown, ActHandsOnKnown};

/// Of a program, a number of jobs, a seed and a limit there is one serial run at most (docs/definitions.md, "Serial run"). So `run_serially`
/// makes the same trace each time, and so does every other maker of the serial run.
pub fn serial_run_is_unique()
    ensures { SerialRunIsUnique }
{}

/// Of a program, a legal run of it, a number of jobs, a seed and a limit there is one run after it at most (docs/definitions.md, "Run after a
/// run").
pub fn run_after_is_unique()
    ensures { RunAfterIsUnique }
{}

/// A run after the run without steps is the serial run (docs/definitions.md, "Run after a run").
pub fn run_after_none_is_serial()
    ensures { ComesAfterNone }
{}

/// A book that has adopted, as `Book::adopt` does, isn't Idle for an empty hand (docs/rules.md, "Workers").
pub fn adopted_is_not_idle()
    ensures { AdoptedIsNotIdle }
{}

/// Where each job of a hand was the record of an open turn at some moment of a book's run, so is each that it has after a call of `next`
/// while no job had come back, with the one that is handed out, and each that it has after a call of `act` (docs/rules.md, "Seats").
pub fn known_jobs_are_handed_on()
    ensures next { NextHandsOnKnown }
    ensures act { ActHandsOnKnown }
{}
