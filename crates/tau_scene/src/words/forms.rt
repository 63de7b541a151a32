//! Forms, printed one by one.
ghost use Rattle.std.specs.Prelude.{◌≡◌, ◌≤◌, IfOk};
ghost use Rattle.tau_sexpr.specs.Form.{tree_of};
ghost use Rattle.tau_sexpr.specs.Printing.{print_of};
ghost use Rattle.tau_sexpr.specs.Tree.{depth_of, HasWords};

use std::alloc::{AllocError, Global};
use tau_sexpr::{Form, Forms, print_forms};

/// A form as it is printed, with no line feed behind it.
pub(crate) fn printed(alloc: Global, form: Form) -> Result<Vec<u8>, AllocError>
    requires depth { depth_of (tree_of form) ≤ 200 }
    requires words { HasWords (tree_of form) }
    ensures { IfOk result (λ v. v.items ≡ print_of (tree_of form)) }
{
    let mut forms = Forms::new(alloc);
    forms.add(form)?;
    let mut line = print_forms(alloc, &forms)?;
    line.truncate(line.len() - 1);
    Ok(line)
}
