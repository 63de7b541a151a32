//! Expressions built from forms (docs/language.md, "Expressions").
ghost use Rattle.std.specs.Prelude.{◌≡◌, ◌==◌, List, length, map, IfOk, MatchOption, None, if◌then◌else◌};
ghost use Rattle.tau_sexpr.specs.Form.{tree_of};
ghost use Rattle.tau_sexpr.specs.Tree.{word, list, none, more, inside};
ghost use Rattle.tau_tree.specs.Code.{unit, inside as codes};
ghost use Rattle.tau_tree.specs.Expr.{code_of, codes_of};
ghost use Rattle.tau_forms.specs.Meaning.{number_of as number_in, word_code, list_code, code_in, codes_in};
ghost use Rattle.tau_forms.specs.Inner.Build.{HasParts, head_in, two_words_in};

use crate::keywords::{Keyword, keyword_of};
use crate::tables::Tables;
use std::alloc::{AllocError, Global};
use tau_sexpr::{Form, Forms, Word};
use tau_tree::{Expr, Exprs};
use tau_value::{Names, integer_of};

/// The expression that a form is, where the tables say which names are defined. A list without a meaning is `unit`, and
/// a name that isn't defined has the number 0; the reader of programs refuses both before. The error is want of memory.
#[cycle(build)]
pub(crate) fn build_expression(
    alloc: Global,
    form: &Form,
    tables: &Tables,
) -> Result<Expr, AllocError>
    ensures { IfOk result (λ e. code_of e ≡ code_in tables.now (tree_of form.now)) }
{
    match form {
        Form::Word(word) => build_word(word),
        Form::Text(text) => Ok(Expr::Text(text.copy()?)),
        Form::List(items) => match head_of(items) {
            Some((head, rest)) => build_list(alloc, keyword_of(head), rest, tables),
            None => Ok(Expr::Unit),
        },
    }
}

/// The word that begins a list, and the other items.
fn head_of(items: &Forms) -> Option<(&Word, &[Form])>
    ensures { MatchOption result (head_in (inside items.now) ≡ None) (λ r. inside items.now ≡ more (word r.0.now) (inside (map tree_of r.1.now))) }
{
    let [head, rest @ ..] = items.items() else {
        return None;
    };
    match head {
        Form::Word(head) => Some((head, rest)),
        _ => None,
    }
}

fn build_word(word: &Word) -> Result<Expr, AllocError>
    ensures { IfOk result (λ e. code_of e ≡ word_code word.now) }
{
    let bytes = word.bytes();
    if bytes == b"unit".as_slice() {
        return Ok(Expr::Unit);
    }
    if bytes == b"true".as_slice() {
        return Ok(Expr::Truth(true));
    }
    if bytes == b"false".as_slice() {
        return Ok(Expr::Truth(false));
    }
    if bytes == b"msg".as_slice() {
        return Ok(Expr::Msg);
    }
    if bytes == b"self".as_slice() {
        return Ok(Expr::Own);
    }
    match integer_of(word) {
        Some(integer) => Ok(Expr::Int(integer)),
        None => Ok(Expr::Var(word.copy()?)),
    }
}

/// The number of a name, and 0 where it isn't defined. Numbers that don't fit are answered as want of memory.
pub(crate) fn number_of(names: &Names, name: &Word) -> Result<u32, AllocError>
    ensures { IfOk result (λ n. n ≡ number_in names.now name.now) }
{
    match names.find(name) {
        Some(place) => u32::try_from(place).map_err(|_| AllocError),
        None => Ok(0),
    }
}

/// The expression that a list is, from what its first word says and its other items.
#[cycle(build)]
fn build_list(
    alloc: Global,
    keyword: Keyword,
    items: &[Form],
    tables: &Tables,
) -> Result<Expr, AllocError>
    ensures { IfOk result (λ e. code_of e ≡ list_code tables.now keyword (inside (map tree_of items.now)) (codes_in tables.now (inside (map tree_of items.now)))) }
{
    match keyword {
        Keyword::Name => build_name(items, tables),
        Keyword::List => Ok(Expr::List(build_all(alloc, items, tables)?)),
        Keyword::Let => build_let(alloc, items, tables),
        Keyword::If => build_if(alloc, items, tables),
        Keyword::Seq => Ok(Expr::Seq(build_all(alloc, items, tables)?)),
        Keyword::Fold => build_fold(alloc, items, tables),
        Keyword::Apply(prim) => Ok(Expr::Apply {
            prim,
            args: build_all(alloc, items, tables)?,
        }),
        Keyword::Set => build_set(alloc, items, tables),
        Keyword::Send => build_send(alloc, items, tables),
        Keyword::New => build_new(alloc, items, tables),
        Keyword::Get => Ok(if_alone(items, Expr::Get)),
        Keyword::Stabilize => Ok(if_alone(items, Expr::Stabilize)),
        Keyword::Checkpoint => Ok(if_alone(items, Expr::Checkpoint)),
        Keyword::Rollback => Ok(if_alone(items, Expr::Rollback)),
        Keyword::Dependent => Ok(if_alone(items, Expr::Dependent)),
        Keyword::Other => Ok(Expr::Unit),
    }
}

/// An expression that has no items.
fn if_alone(items: &[Form], expr: Expr) -> Expr
    ensures { code_of result ≡ (if length items.now == 0 then code_of expr else unit) }
{
    if items.is_empty() { expr } else { Expr::Unit }
}

/// The items of a list, its first word aside, where there are up to four.
#[derive(Clone, Copy)]
pub(crate) enum Parts<'f> {
    Zero,
    One(&'f Form),
    Two(&'f Form, &'f Form),
    Three(&'f Form, &'f Form, &'f Form),
    Four(&'f Form, &'f Form, &'f Form, &'f Form),
    Other,
}

pub(crate) fn parts_of(items: &[Form]) -> Parts<'_>
    ensures { HasParts (inside (map tree_of items.now)) result }
{
    match items {
        [] => Parts::Zero,
        [one] => Parts::One(one),
        [one, two] => Parts::Two(one, two),
        [one, two, three] => Parts::Three(one, two, three),
        [one, two, three, four] => Parts::Four(one, two, three, four),
        [_, _, _, _, _, ..] => Parts::Other,
    }
}

#[cycle(build)]
fn build_all(alloc: Global, items: &[Form], tables: &Tables) -> Result<Exprs, AllocError>
    ensures { IfOk result (λ es. codes (codes_of es) ≡ codes_in tables.now (inside (map tree_of items.now))) }
{
    let mut exprs = Exprs::with_capacity(alloc, items.len())?;
    for item in items {
        let expr = build_expression(alloc, item, tables)?;
        exprs.add(expr)?;
    }
    Ok(exprs)
}

/// `(name START)`.
fn build_name(items: &[Form], tables: &Tables) -> Result<Expr, AllocError>
    ensures { IfOk result (λ e. code_of e ≡ list_code tables.now Keyword.Name (inside (map tree_of items.now)) (codes_in tables.now (inside (map tree_of items.now)))) }
{
    let Parts::One(name) = parts_of(items) else {
        return Ok(Expr::Unit);
    };
    let Form::Word(name) = name else {
        return Ok(Expr::Unit);
    };
    Ok(Expr::Start(number_of(&tables.starts, name)?))
}

/// `(let NAME e e)`.
#[cycle(build)]
fn build_let(alloc: Global, items: &[Form], tables: &Tables) -> Result<Expr, AllocError>
    ensures { IfOk result (λ e. code_of e ≡ list_code tables.now Keyword.Let (inside (map tree_of items.now)) (codes_in tables.now (inside (map tree_of items.now)))) }
{
    let Parts::Three(name, value, body) = parts_of(items) else {
        return Ok(Expr::Unit);
    };
    let Form::Word(name) = name else {
        return Ok(Expr::Unit);
    };
    Ok(Expr::Let {
        name: name.copy()?,
        value: Box::new(alloc, build_expression(alloc, value, tables)?)?,
        body: Box::new(alloc, build_expression(alloc, body, tables)?)?,
    })
}

/// `(if e e e)`.
#[cycle(build)]
fn build_if(alloc: Global, items: &[Form], tables: &Tables) -> Result<Expr, AllocError>
    ensures { IfOk result (λ e. code_of e ≡ list_code tables.now Keyword.If (inside (map tree_of items.now)) (codes_in tables.now (inside (map tree_of items.now)))) }
{
    let Parts::Three(test, yes, no) = parts_of(items) else {
        return Ok(Expr::Unit);
    };
    Ok(Expr::If {
        test: Box::new(alloc, build_expression(alloc, test, tables)?)?,
        yes: Box::new(alloc, build_expression(alloc, yes, tables)?)?,
        no: Box::new(alloc, build_expression(alloc, no, tables)?)?,
    })
}

/// `(fold e e (SUM ITEM) e)`.
#[cycle(build)]
fn build_fold(alloc: Global, items: &[Form], tables: &Tables) -> Result<Expr, AllocError>
    ensures { IfOk result (λ e. code_of e ≡ list_code tables.now Keyword.Fold (inside (map tree_of items.now)) (codes_in tables.now (inside (map tree_of items.now)))) }
{
    let Parts::Four(list, first, names, body) = parts_of(items) else {
        return Ok(Expr::Unit);
    };
    let Some((sum, item)) = two_words(names) else {
        return Ok(Expr::Unit);
    };
    Ok(Expr::Fold {
        list: Box::new(alloc, build_expression(alloc, list, tables)?)?,
        first: Box::new(alloc, build_expression(alloc, first, tables)?)?,
        sum: sum.copy()?,
        item: item.copy()?,
        body: Box::new(alloc, build_expression(alloc, body, tables)?)?,
    })
}

/// The two words of a list of two words.
fn two_words(form: &Form) -> Option<(&Word, &Word)>
    ensures { MatchOption result (two_words_in (tree_of form.now) ≡ None) (λ r. tree_of form.now ≡ list (more (word r.0.now) (more (word r.1.now) none))) }
{
    let Form::List(items) = form else {
        return None;
    };
    let Parts::Two(sum, item) = parts_of(items.items()) else {
        return None;
    };
    let Form::Word(sum) = sum else {
        return None;
    };
    match item {
        Form::Word(item) => Some((sum, item)),
        _ => None,
    }
}

/// `(set e)`.
#[cycle(build)]
fn build_set(alloc: Global, items: &[Form], tables: &Tables) -> Result<Expr, AllocError>
    ensures { IfOk result (λ e. code_of e ≡ list_code tables.now Keyword.Set (inside (map tree_of items.now)) (codes_in tables.now (inside (map tree_of items.now)))) }
{
    let Parts::One(value) = parts_of(items) else {
        return Ok(Expr::Unit);
    };
    let value = build_expression(alloc, value, tables)?;
    Ok(Expr::Set(Box::new(alloc, value)?))
}

/// `(send e e)`.
#[cycle(build)]
fn build_send(alloc: Global, items: &[Form], tables: &Tables) -> Result<Expr, AllocError>
    ensures { IfOk result (λ e. code_of e ≡ list_code tables.now Keyword.Send (inside (map tree_of items.now)) (codes_in tables.now (inside (map tree_of items.now)))) }
{
    let Parts::Two(to, value) = parts_of(items) else {
        return Ok(Expr::Unit);
    };
    Ok(Expr::Send {
        to: Box::new(alloc, build_expression(alloc, to, tables)?)?,
        value: Box::new(alloc, build_expression(alloc, value, tables)?)?,
    })
}

/// `(new BEHAVIOUR e e)`.
#[cycle(build)]
fn build_new(alloc: Global, items: &[Form], tables: &Tables) -> Result<Expr, AllocError>
    ensures { IfOk result (λ e. code_of e ≡ list_code tables.now Keyword.New (inside (map tree_of items.now)) (codes_in tables.now (inside (map tree_of items.now)))) }
{
    let Parts::Three(behaviour, node, state) = parts_of(items) else {
        return Ok(Expr::Unit);
    };
    let Form::Word(behaviour) = behaviour else {
        return Ok(Expr::Unit);
    };
    Ok(Expr::New {
        behaviour: number_of(&tables.behaviours, behaviour)?,
        node: Box::new(alloc, build_expression(alloc, node, tables)?)?,
        state: Box::new(alloc, build_expression(alloc, state, tables)?)?,
    })
}
