//! The arguments of an operation.
ghost use Rattle.tau_tree.specs.Code.{inside};
ghost use Rattle.tau_tree.specs.Expr.{codes_of};
ghost use Rattle.tau_eval.specs.Arguments.{AreArguments};

use tau_tree::{Expr, Exprs};

/// The arguments of an operation, of which a sound program has one or two.
#[derive(Clone, Copy)]
pub enum Arguments<'p> {
    One(&'p Expr),
    Two(&'p Expr, &'p Expr),
    Other,
}

/// The expressions as the arguments of an operation.
pub fn arguments_of<'p>(exprs: &'p Exprs) -> Arguments<'p>
    ensures { AreArguments result (inside (codes_of exprs.entry.now)) }
{
    match exprs.items() {
        [one] => Arguments::One(one),
        [one, two] => Arguments::Two(one, two),
        [] => Arguments::Other,
        [_, _, _, ..] => Arguments::Other,
    }
}
