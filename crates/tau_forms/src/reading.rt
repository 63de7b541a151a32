//! Programs read from forms.
ghost use Rattle.std.specs.Prelude.{◌≡◌, ◌≤◌, map, IfOk, IfErr};
ghost use Rattle.tau_sexpr.specs.Form.{tree_of};
ghost use Rattle.tau_sexpr.specs.Tree.{depths};
ghost use Rattle.tau_tree.specs.Sound.{Sound};
ghost use Rattle.tau_forms.specs.Faults.{IsFault};
ghost use Rattle.tau_forms.specs.Meaning.{Means};

use crate::ProgramError;
use crate::outline::Outline;
use std::alloc::Global;
use tau_sexpr::Form;
use tau_tree::Program;

/// The program that forms mean (docs/formats.md, "Programs"). It is sound.
/// `Limit` comes exactly where there are too many lists of a kind, the least such kind. Otherwise `Shape`, `Unknown` and
/// `Twice` come exactly at the first faulty node; where it has several faults, in this order.
pub fn program_of(alloc: Global, forms: &[Form]) -> Result<Program, ProgramError>
    requires { depths (map tree_of forms.now) ≤ 200 }
    ensures program { IfOk result (Means (map tree_of forms.now)) }
    ensures sound { IfOk result Sound }
    ensures fault { IfErr result (IsFault (map tree_of forms.now)) }
    ensures read { (p : Program) → Means (map tree_of forms.now) p → IfErr result (λ e. e ≡ ProgramError.NoMemory) }
{
    let mut outline = Outline::new(alloc);
    outline.add(forms)?;
    let mut builder = outline.builder(alloc)?;
    builder.add(alloc, forms)?;
    builder.finish()
}
