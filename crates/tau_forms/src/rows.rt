//! What is wanted of the items of lists.
ghost use Rattle.std.specs.Prelude.{◌≡◌, ◌==◌, ◌^◌, [], ◌∷◌, true, Some, None, option_map, if◌then◌else◌, ◌++◌, ℕ, List, map, slice_index_or};
ghost use Rattle.tau_sexpr.specs.Form.{tree_of};
ghost use Rattle.tau_sexpr.specs.Tree.{Tree, Trees, inside, none, more};
ghost use Rattle.tau_tree.specs.Parts.{arity as arity_of};
ghost use Rattle.tau_forms.specs.Inner.Passing.{IsHeaded, IsRow, roles_of, bound_by};
ghost use Rattle.tau_forms.specs.Roles.{failure, first, count, two_names, has_items as items_test, count_of, parts_of};
ghost use Rattle.tau_forms.specs.Inner.Scopes.{names_of};
ghost use Rattle.tau_forms.specs.Inner.Wanted.{role_of};

use crate::keywords::{FailureWord, Keyword, failure_of};
use crate::scopes::Scope;
use crate::tables::Tables;
use crate::wanted::Wanted;
use tau_sexpr::{Form, Word};
use tau_tree::Prim;

/// What is wanted of the items of a list: of the first four, and of each one after them.
#[derive(Clone, Copy, Drop)]
pub(crate) struct Row<'s> {
    pub(crate) leading: [Wanted<'s>; 4],
    pub(crate) rest: Wanted<'s>,
}

impl<'s> Row<'s> {
    /// What is wanted of the item at `k`, counted from 0.
    pub(crate) fn at(&self, k: usize) -> Wanted<'s>
        ensures { role_of result ≡ role_of (slice_index_or self.now.leading k self.now.rest) }
    {
        match self.leading.get(k) {
            Some(wanted) => *wanted,
            None => self.rest,
        }
    }
}

/// A list that begins with a word: this word, and the other items.
#[derive(Clone, Copy, Drop)]
pub(crate) struct Headed<'f> {
    pub(crate) head: &'f Word,
    pub(crate) rest: &'f [Form],
}

/// The first word of a list and its other items; `None` where a list doesn't begin with a word.
pub(crate) fn split_head(items: &[Form]) -> Option<Headed<'_>>
    ensures { IsHeaded (inside (map tree_of items.now)) result }
{
    let [first, rest @ ..] = items else {
        return None;
    };
    match first {
        Form::Word(head) => Some(Headed { head, rest }),
        Form::Text(_) | Form::List(_) => None,
    }
}

/// What is wanted of the items of a failure; `None` where no such list is one.
pub(crate) fn failure_row<'s>(items: &[Form], tables: &Tables) -> Option<Row<'s>>
    ensures { IsRow tables.now failure (inside (map tree_of items.now)) result }
{
    let list = split_head(items)?;
    if list.rest.len() != 1 {
        return None;
    }
    match failure_of(list.head) {
        FailureWord::Fail => Some(number_row(tables.nodes)),
        FailureWord::Lose => Some(number_row(1 << 32)),
        FailureWord::Repeat => repeat_row(tables),
        FailureWord::Other => None,
    }
}

/// What is wanted of the items of a failure that repeats a message; `None` in version 1.
fn repeat_row<'s>(tables: &Tables) -> Option<Row<'s>>
    ensures { (t u : Tree) → option_map (λ w. roles_of w (more t (more u none))) result
        ≡ (if tables.now.version == 2 then Some (first ∷ count 0 (2 ^ 32) ∷ []) else None) }
{
    if tables.version != 2 {
        return None;
    }
    Some(number_row(1 << 32))
}

/// A list of a word and counts below `end`.
fn number_row<'s>(end: u64) -> Row<'s>
    ensures { (t u : Tree) → roles_of result (more t (more u none)) ≡ first ∷ count 0 end ∷ [] }
{
    let number = Wanted::Count { low: 0, end };
    Row {
        leading: [Wanted::First, number, number, number],
        rest: number,
    }
}

/// What is wanted of the two names of a fold; `None` where a list has another number of items.
pub(crate) fn two_names_row<'s>(items: &'s [Form], tables: &Tables) -> Option<Row<'s>>
    ensures { IsRow tables.now two_names (inside (map tree_of items.entry.now)) result }
{
    if items.len() != 2 {
        return None;
    }
    let second = Wanted::OtherThan(&items[..1]);
    Some(Row {
        leading: [Wanted::OtherThan(&[]), second, second, second],
        rest: second,
    })
}

/// Whether an expression has this many items, its first word aside.
pub(crate) fn has_items(keyword: Keyword, count: usize) -> bool
    ensures { result ≡ items_test keyword count }
{
    match keyword {
        Keyword::List => true,
        Keyword::Seq => count >= 1,
        Keyword::Name | Keyword::Set => count == 1,
        Keyword::Send => count == 2,
        Keyword::Let | Keyword::If | Keyword::New => count == 3,
        Keyword::Fold => count == 4,
        Keyword::Apply(prim) => count == arity(prim),
        Keyword::Get
        | Keyword::Stabilize
        | Keyword::Checkpoint
        | Keyword::Rollback
        | Keyword::Dependent => count == 0,
        Keyword::Other => false,
    }
}

/// How many arguments an operation has.
fn arity(prim: Prim) -> usize
    ensures { result ≡ arity_of prim }
{
    match prim {
        Prim::Not | Prim::Len => 1,
        _ => 2,
    }
}

/// What is wanted of the items of an expression that has its number of items; the variables of `inner` are bound in its
/// last item.
pub(crate) fn expression_row<'s>(
    keyword: Keyword,
    tables: &'s Tables,
    scope: &'s Scope<'s>,
    inner: &'s Scope<'s>,
) -> Row<'s>
    ensures { (t : Tree) (ts : Trees) → items_test keyword (count_of ts) ≡ true
        → names_of inner.entry.now ≡ names_of scope.entry.now ++ bound_by keyword ts
        → roles_of result (more t ts) ≡ first ∷ parts_of tables.entry.now (names_of scope.entry.now) keyword ts }
{
    let part = Wanted::Expression(scope);
    let body = Wanted::Expression(inner);
    match keyword {
        Keyword::Name => {
            let start = Wanted::Known(&tables.starts);
            Row {
                leading: [Wanted::First, start, start, start],
                rest: start,
            }
        }
        Keyword::New => Row {
            leading: [Wanted::First, Wanted::Known(&tables.behaviours), part, part],
            rest: part,
        },
        Keyword::Let => Row {
            leading: [Wanted::First, Wanted::OtherThan(&[]), part, body],
            rest: body,
        },
        Keyword::Fold => Row {
            leading: [Wanted::First, part, part, Wanted::TwoNames],
            rest: body,
        },
        _ => Row {
            leading: [Wanted::First, part, part, part],
            rest: part,
        },
    }
}
