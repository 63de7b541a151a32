//! Forms checked for faults.
ghost use Rattle.std.specs.Prelude.{◌≡◌, ◌≢◌, ◌+◌, ◌<◌, ◌≤◌, ◌^◌, length, map};
ghost use Rattle.tau_sexpr.specs.Form.{tree_of};
ghost use Rattle.tau_sexpr.specs.Tree.{inside, list as list_tree, size_of, size_of_all};
ghost use Rattle.tau_forms.specs.Faults.{FaultAt};
ghost use Rattle.tau_forms.specs.Keywords.{keyword_in};
ghost use Rattle.tau_forms.specs.Inner.Passing.{Passes, PassesNode, IsRow, IsExpression, bound_by};
ghost use Rattle.tau_forms.specs.Roles.{Role, value, expression, names_in, words_of};
ghost use Rattle.tau_forms.specs.Inner.Scopes.{names_of};
ghost use Rattle.tau_forms.specs.Inner.Wanted.{role_of};
ghost use Rattle.tau_forms.specs.declared.keywords.Keyword.TheVariants as keywords;
ghost use Rattle.tau_forms.specs.declared.tables.Tables.{Tables};

use crate::ProgramError;
use crate::keywords::{Keyword, keyword_of};
use crate::rows::{Row, expression_row, failure_row, has_items, split_head, two_names_row};
use crate::scopes::Scope;
use crate::tables::Tables;
use crate::wanted::{FaultKind, Wanted, fault_of_text, fault_of_word};
use std::alloc::Global;
use tau_sexpr::{Form, Forms};
use tau_value::{Names, START_LIMIT, ValueError, value_of};

/// Passes a single node, unless it has a fault; after it `node` is the next.
fn pass(fault: Option<FaultKind>, node: &mut u64) -> Result<(), ProgramError>
    requires { node.old + 1 < 2 ^ 64 }
    ensures { PassesNode fault node.old node.new result }
{
    if let Some(fault) = fault {
        return Err(fault.at(*node));
    }
    *node += 1;
    Ok(())
}

/// Passes a value.
fn check_value(
    alloc: Global,
    form: &Form,
    starts: &Names,
    node: &mut u64,
) -> Result<(), ProgramError>
    requires few { length starts.now ≤ START_LIMIT }
    requires range { node.old + size_of (tree_of form.now) < 2 ^ 64 }
    ensures { (tb : Tables) → tb.starts ≡ starts.now
        → Passes (FaultAt tb value (tree_of form.now)) (size_of (tree_of form.now)) node.old node.new result }
{
    match value_of(alloc, form, starts, starts.len() as u32) {
        Ok(_value) => {
            *node += form.size();
            Ok(())
        }
        Err(ValueError::Shape { node: within }) => Err(ProgramError::Shape {
            node: *node + within,
        }),
        Err(ValueError::Unknown { node: within }) => Err(ProgramError::Unknown {
            node: *node + within,
        }),
        Err(ValueError::NoMemory) => Err(ProgramError::NoMemory),
    }
}

/// A list as an expression: its keyword, and its items without the first word.
#[derive(Clone, Copy)]
struct Parts<'f> {
    keyword: Keyword,
    items: &'f [Form],
}

fn parts_of(items: &[Form]) -> Option<Parts<'_>>
    ensures { IsExpression (inside (map tree_of items.now)) result }
{
    let list = split_head(items)?;
    let keyword = keyword_of(list.head);
    if !has_items(keyword, list.rest.len()) {
        return None;
    }
    Some(Parts {
        keyword,
        items: list.rest,
    })
}

/// The forms whose words an expression binds in its last item.
fn names_bound<'f>(parts: Parts<'f>) -> &'f [Form]
    ensures { words_of (inside (map tree_of result.now)) ≡ bound_by parts.entry.keyword (inside (map tree_of parts.entry.items.now)) }
{
    match parts.keyword {
        Keyword::Let => first_of(parts.items),
        Keyword::Fold => items_of_third(parts.items),
        _ => &[],
    }
}

/// The first form, if there is one.
fn first_of(items: &[Form]) -> &[Form]
    ensures { words_of (inside (map tree_of result.now)) ≡ bound_by keywords.Let (inside (map tree_of items.now)) }
{
    match items {
        [] => &[],
        [_, ..] => &items[..1],
    }
}

/// The items of the third form, if it is a list.
fn items_of_third(items: &[Form]) -> &[Form]
    ensures { words_of (inside (map tree_of result.now)) ≡ bound_by keywords.Fold (inside (map tree_of items.now)) }
{
    match items.get(2) {
        Some(form) => items_of(form),
        None => &[],
    }
}

fn items_of(form: &Form) -> &[Form]
    ensures { words_of (inside (map tree_of result.now)) ≡ names_in (tree_of form.now) }
{
    match form {
        Form::List(items) => items.items(),
        Form::Word(_) | Form::Text(_) => &[],
    }
}

/// Passes a form of which this is wanted, whose own node is `node`; after it `node` is the next.
#[cycle(check)]
pub(crate) fn check(
    alloc: Global,
    form: &Form,
    wanted: Wanted<'_>,
    tables: &Tables,
    node: &mut u64,
) -> Result<(), ProgramError>
    requires few { length tables.now.starts ≤ START_LIMIT }
    requires range { node.old + size_of (tree_of form.now) < 2 ^ 64 }
    ensures { Passes (FaultAt tables.now (role_of wanted.entry) (tree_of form.now)) (size_of (tree_of form.now)) node.old node.new result }
{
    if let Wanted::Value = wanted {
        return check_value(alloc, form, &tables.starts, node);
    }
    match form {
        Form::Word(word) => pass(fault_of_word(word, wanted), node),
        Form::Text(text) => pass(fault_of_text(text, wanted), node),
        Form::List(items) => check_list(alloc, items, wanted, tables, node),
    }
}

/// Passes a list of which something other than a value is wanted.
#[cycle(check)]
fn check_list(
    alloc: Global,
    list: &Forms,
    wanted: Wanted<'_>,
    tables: &Tables,
    node: &mut u64,
) -> Result<(), ProgramError>
    requires few { length tables.now.starts ≤ START_LIMIT }
    requires other { role_of wanted ≢ value }
    requires range { node.old + 1 + size_of_all (inside list.now) < 2 ^ 64 }
    ensures { Passes (FaultAt tables.now (role_of wanted.entry) (list_tree (inside list.now))) (1 + size_of_all (inside list.now)) node.old node.new result }
{
    let items = list.items();
    let row = match wanted {
        Wanted::Expression(scope) => {
            return check_expression(alloc, items, scope, tables, node);
        }
        Wanted::Failure => failure_row(items, tables),
        Wanted::TwoNames => two_names_row(items, tables),
        _ => None,
    };
    check_items(alloc, items, row, tables, node)
}

/// Passes a list that is wanted as an expression.
#[cycle(check)]
fn check_expression(
    alloc: Global,
    items: &[Form],
    scope: &Scope<'_>,
    tables: &Tables,
    node: &mut u64,
) -> Result<(), ProgramError>
    requires few { length tables.now.starts ≤ START_LIMIT }
    requires range { node.old + 1 + size_of_all (inside (map tree_of items.now)) < 2 ^ 64 }
    ensures { Passes (FaultAt tables.now (expression (names_of scope.now)) (list_tree (inside (map tree_of items.now)))) (1 + size_of_all (inside (map tree_of items.now))) node.old node.new result }
{
    let Some(parts) = parts_of(&*items) else {
        return Err(ProgramError::Shape { node: *node });
    };
    let inner = Scope::Inner {
        names: names_bound(parts),
        outer: &*scope,
    };
    let row = expression_row(parts.keyword, &*tables, &*scope, &inner);
    check_items(alloc, items, Some(row), tables, node)
}

/// Passes a list of whose items this is wanted; without a row no such list is wanted.
#[cycle(check)]
pub(crate) fn check_items(
    alloc: Global,
    items: &[Form],
    found: Option<Row<'_>>,
    tables: &Tables,
    node: &mut u64,
) -> Result<(), ProgramError>
    requires few { length tables.now.starts ≤ START_LIMIT }
    requires range { node.old + 1 + size_of_all (inside (map tree_of items.now)) < 2 ^ 64 }
    ensures { (r : Role) → r ≢ value → IsRow tables.now r (inside (map tree_of items.now)) found.entry
        → Passes (FaultAt tables.now r (list_tree (inside (map tree_of items.now)))) (1 + size_of_all (inside (map tree_of items.now))) node.old node.new result }
{
    let Some(row) = found else {
        return Err(ProgramError::Shape { node: *node });
    };
    *node += 1;
    for (k, item) in items.iter().enumerate() {
        check(alloc, item, row.at(k), tables, node)?;
    }
    Ok(())
}
