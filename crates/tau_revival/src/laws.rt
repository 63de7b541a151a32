//! Laws of revival, each the contract of a function that does nothing but call lower laws.
ghost use Rattle.tau_revival.specs.Laws.{RevivalKeepsDue, RevivalKeepsSteps, RevivalKeepsLegality, CursorsLeadOn};

use tau_script::laws::{cursors_go_on, scripts_are_determined, scripts_are_local};

/// The revived script makes the same due at each place before the end of the run, and its cursor goes on from the old one
/// there (docs/journal.md, "Going on"). So it is for every run, legal or not.
pub fn revival_keeps_due()
    ensures { RevivalKeepsDue }
{
    scripts_are_determined();
}

/// A sound program and its revival have the same legal steps of a run that agrees with the one by which it was revived, at the
/// places before that one's end (docs/journal.md, "Going on").
pub fn revival_keeps_steps()
    ensures { RevivalKeepsSteps }
{
    revival_keeps_due();
    scripts_are_local();
}

/// So that run is legal for both or for none.
pub fn revival_keeps_legality()
    ensures { RevivalKeepsLegality }
{
    revival_keeps_due();
    scripts_are_local();
}

/// The first cursor of a script leads on before the first step, and so does one that was moved past what was due behind the next step
/// (docs/rules.md, "Scripts").
pub fn cursors_lead_on()
    ensures { CursorsLeadOn }
{
    cursors_go_on();
}
