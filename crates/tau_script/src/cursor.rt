//! Cursors of scripts.
ghost use Rattle.std.specs.Prelude.{◌≡◌, ◌<◌, ◌≤◌, ℕ, length};
ghost use Rattle.tau_value.specs.declared.limits.TheConstants.{ENTRY_LIMIT};
ghost use Rattle.tau_trace.specs.declared.step.Step.TheVariants as steps;
ghost use Rattle.tau_script.specs.Cursors.{first_cursor, next_entry, moved_past};

use tau_trace::Step;
use tau_tree::Script;

/// Where a run stands in its script: the number of an entry, and the least number of a transactor that this entry can
/// still let fail (docs/rules.md, "Scripts").
#[derive(Clone, Copy, Debug, PartialEq, Eq)]
pub struct Cursor {
    pub entry: u32,
    pub who: u32,
}

impl Cursor {
    /// The cursor at the opening: entry 0 and transactor 0.
    pub fn first() -> Cursor
        ensures { result ≡ first_cursor }
    {
        Cursor { entry: 0, who: 0 }
    }

    /// The cursor at the entry after its own.
    pub(crate) fn next(self) -> Cursor
        requires { self.entry < u32.MAX }
        ensures { result ≡ next_entry self }
    {
        Cursor {
            entry: self.entry + 1,
            who: 0,
        }
    }
}

/// Moves the cursor after a step of the script was appended: past the transactor of a Fail, or to the next entry after a
/// Lose or a Repeat. Other steps leave it where it is. It takes no memory.
pub fn passed(script: &Script, cursor: &mut Cursor, step: &Step)
    requires few { length script.now ≤ ENTRY_LIMIT }
    requires entry { cursor.old.entry < length script.now }
    requires who { (t : ℕ) → step.now ≡ steps.Fail t → t < u32.MAX }
    ensures { cursor.new ≡ moved_past step.now cursor.old }
{
    prove!((cursor.entry as usize) < script.len());
    match step {
        Step::Fail { who } => cursor.who = who + 1,
        Step::Lose { .. } => *cursor = cursor.next(),
        Step::Repeat { .. } => *cursor = cursor.next(),
        _ => {}
    }
}
