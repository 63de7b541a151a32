//! Laws of reports, each the contract of a function that does nothing.
ghost use Rattle.tau_report.specs.Laws.{ReportsAreUnique};

/// A program and a trace have one report (docs/definitions.md, "Report").
pub fn reports_are_unique()
    ensures { ReportsAreUnique }
{}
