//! Laws of journals of runs, each the contract of a function that does nothing but call lower laws.
ghost use Rattle.tau_run_journal.specs.Laws.{RecordsStandForRuns, BytesStandForOneRun};

/// What records stand for is a sound program and a run of it (docs/journal.md, "What the records mean").
pub fn records_stand_for_runs()
    ensures { RecordsStandForRuns }
{}

/// Bytes stand for one program and one run at most (docs/journal.md, "What the records mean").
pub fn bytes_stand_for_one_run()
    ensures { BytesStandForOneRun }
{}
