//! Laws of jobs that were the record of a turn.
ghost use Rattle.tau_rules.specs.KnownJobs.{KnownJobsAreOpen, KnownJobsStayKnown, OpenJobsAreKnown};

/// Whatever the program, a job that was the record of a turn at some moment of a run is it still where the turn is open and has so many
/// replies as the job; what was so is so of each longer run; and a job that is the record of an open turn was so.
pub fn known_jobs_are_open()
    ensures still { KnownJobsAreOpen }
    ensures longer { KnownJobsStayKnown }
    ensures known { OpenJobsAreKnown }
{}
