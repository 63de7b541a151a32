//! A form at the top checked for faults.
ghost use Rattle.std.specs.Prelude.{◌≡◌, ◌≢◌, ◌+◌, ◌<◌, ◌≤◌, ◌^◌, [], true, List, length, map, Some};
ghost use Rattle.tau_sexpr.specs.Form.{tree_of};
ghost use Rattle.tau_sexpr.specs.Tree.{Tree, Trees, inside, list as list_tree, more, size_of, size_of_all};
ghost use Rattle.tau_forms.specs.Inner.Defined.{IsDefined, nodes_told as nodes_in_items, version_items};
ghost use Rattle.tau_forms.specs.Faults.{FaultAt};
ghost use Rattle.tau_forms.specs.Inner.Passing.{IsRow, Passes, PassesForms, has_top_items as top_items_test, nodes_first, version_first, roles_of};
ghost use Rattle.tau_forms.specs.Roles.{top, top_items, with_first, count_of};
ghost use Rattle.tau_forms.specs.Inner.Scopes.{names_of};
ghost use Rattle.tau_forms.specs.Tops.{nodes_of, tables_of};
ghost use Rattle.tau_forms.specs.Inner.Wanted.{role_of};

use crate::ProgramError;
use crate::checking::check_items;
use crate::keywords::{Sort, sort_of};
use crate::rows::{Row, split_head};
use crate::scopes::Scope;
use crate::tables::{Defined, Tables, nodes_told, version_told};
use crate::wanted::Wanted;
use std::alloc::Global;
use tau_sexpr::Form;
use tau_value::START_LIMIT;

/// Passes a form at the top, after forms that define this.
pub(crate) fn check_top(
    alloc: Global,
    form: &Form,
    tables: &Tables,
    earlier: &Defined,
    node: &mut u64,
) -> Result<(), ProgramError>
    requires few { length tables.now.starts ≤ START_LIMIT }
    requires range { node.old + size_of (tree_of form.now) < 2 ^ 64 }
    ensures { (before : List Tree) → IsDefined before earlier.now
        → Passes (FaultAt tables.now (top before) (tree_of form.now)) (size_of (tree_of form.now)) node.old node.new result }
{
    let Form::List(items) = form else {
        return Err(ProgramError::Shape { node: *node });
    };
    let scope = Scope::Empty;
    let row = top_row(items.items(), tables, earlier, &scope);
    check_items(alloc, items.items(), row, tables, node)
}

/// What is wanted of the items of a list at the top; `None` where no such list stands there.
fn top_row<'s>(
    items: &[Form],
    tables: &'s Tables,
    earlier: &'s Defined,
    scope: &'s Scope<'s>,
) -> Option<Row<'s>>
    ensures { (before : List Tree) → IsDefined before earlier.entry.now → names_of scope.entry.now ≡ []
        → IsRow tables.entry.now (top before) (inside (map tree_of items.now)) result }
{
    let list = split_head(items)?;
    let sort = sort_of(list.head);
    if !has_top_items(sort, list.rest.len()) {
        return None;
    }
    let first = match sort {
        Sort::Nodes => first_of_nodes(list.rest, earlier),
        Sort::Version => first_of_version(list.rest, earlier),
        _ => Wanted::First,
    };
    Some(row_of_sort(sort, first, tables, earlier, scope))
}

/// Whether a list at the top has this many items, its first word aside.
fn has_top_items(sort: Sort, count: usize) -> bool
    ensures { result ≡ top_items_test sort count }
{
    match sort {
        Sort::Nodes | Sort::Version => count == 1,
        Sort::Behaviour | Sort::Post | Sort::At => count == 2,
        Sort::Start => count == 4,
        Sort::Other => false,
    }
}

/// What is wanted of the first word of a list of nodes, from its other items: it is a mark where they tell a number of nodes.
fn first_of_nodes<'s>(items: &[Form], earlier: &Defined) -> Wanted<'s>
    ensures { (before : List Tree) → IsDefined before earlier.now
        → role_of result ≡ nodes_first before (nodes_in_items (inside (map tree_of items.now))) }
{
    if nodes_told(items).is_none() {
        return Wanted::First;
    }
    Wanted::Mark {
        again: earlier.nodes.is_some(),
    }
}

/// The same of a list of a version.
fn first_of_version<'s>(items: &[Form], earlier: &Defined) -> Wanted<'s>
    ensures { (before : List Tree) → IsDefined before earlier.now
        → role_of result ≡ version_first before (version_items (inside (map tree_of items.now))) }
{
    if version_told(items).is_none() {
        return Wanted::First;
    }
    Wanted::Mark {
        again: earlier.version.is_some(),
    }
}

/// What is wanted of the items of a list at the top that has its number of items.
fn row_of_sort<'s>(
    sort: Sort,
    first: Wanted<'s>,
    tables: &'s Tables,
    earlier: &'s Defined,
    scope: &'s Scope<'s>,
) -> Row<'s>
    ensures { (before : List Tree) (t : Tree) (ts : Trees) → IsDefined before earlier.entry.now → names_of scope.entry.now ≡ []
        → top_items_test sort (count_of ts) ≡ true
        → Some (roles_of result (more t ts)) ≡ with_first (role_of first.entry) (top_items tables.entry.now before sort ts) }
{
    match sort {
        Sort::Nodes => {
            let nodes = Wanted::Count { low: 1, end: 65 };
            Row {
                leading: [first, nodes, nodes, nodes],
                rest: nodes,
            }
        }
        Sort::Version => {
            let version = Wanted::Count { low: 1, end: 3 };
            Row {
                leading: [first, version, version, version],
                rest: version,
            }
        }
        Sort::Behaviour => {
            let body = Wanted::Expression(scope);
            Row {
                leading: [first, Wanted::Fresh(&earlier.behaviours), body, body],
                rest: body,
            }
        }
        Sort::Start => {
            let node = Wanted::Count {
                low: 0,
                end: tables.nodes,
            };
            let name = Wanted::Fresh(&earlier.starts);
            Row {
                leading: [first, name, Wanted::Known(&tables.behaviours), node],
                rest: Wanted::Value,
            }
        }
        Sort::Post => Row {
            leading: [
                first,
                Wanted::Known(&tables.starts),
                Wanted::Value,
                Wanted::Value,
            ],
            rest: Wanted::Value,
        },
        Sort::At | Sort::Other => {
            let place = Wanted::Count {
                low: 0,
                end: 1 << 32,
            };
            Row {
                leading: [first, place, Wanted::Failure, Wanted::Failure],
                rest: Wanted::Failure,
            }
        }
    }
}
