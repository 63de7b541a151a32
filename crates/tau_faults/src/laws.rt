//! Laws of storms, each the contract of a function that does nothing but call lower laws.
ghost use Rattle.tau_faults.specs.Laws.{EndsAreRuns, FaultsComeWhereTheyArePut, ProgramsTellTheirFaults, EndsAreListed, EndsAreUnique};

use tau_book::serial_run_is_unique;
use tau_legal::legal_traces_are_safe;
use tau_script::laws::{scripts_are_determined, scripts_are_local};

/// The run of an end of a storm is a legal run of its program, complete or as long as the limit, and safe, where the limit is at most that of
/// a trace; the program is the one of the storm but for its script, which has the faults between the entries that were there
/// (docs/definitions.md, "Storm").
pub fn ends_are_runs()
    ensures { EndsAreRuns }
{
    serial_run_is_unique();
    scripts_are_determined();
    scripts_are_local();
    legal_traces_are_safe();
}

/// With one fault more a program has the serial run from before up to the fault, and then the fault's step.
pub fn faults_come_where_they_are_put()
    ensures { FaultsComeWhereTheyArePut }
{
    serial_run_is_unique();
    scripts_are_determined();
    scripts_are_local();
}

/// Two programs of a storm are the same only where they have the same faults.
pub fn programs_tell_their_faults()
    ensures { ProgramsTellTheirFaults }
{
    serial_run_is_unique();
    scripts_are_determined();
    scripts_are_local();
}

/// The ends with a seed, in their order, are all that there are, each once.
pub fn ends_are_listed()
    ensures { EndsAreListed }
{
    serial_run_is_unique();
    scripts_are_determined();
}

/// There is one such list.
pub fn ends_are_unique()
    ensures { EndsAreUnique }
{
    serial_run_is_unique();
    scripts_are_determined();
}
