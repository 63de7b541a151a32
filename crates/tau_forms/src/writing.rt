//! The texts of expressions, put straight behind a text (docs/language.md, "Expressions"): no form of an expression is made.
//! Each call takes memory for the text alone. The error is want of memory, and a part of the text may then be added.
ghost use Rattle.std.specs.Prelude.{◌≡◌, ◌∷◌, ◌++◌, [], codes, All, OnOk};
ghost use Rattle.tau_sexpr.specs.Bytes.{IsWordByte};
ghost use Rattle.tau_sexpr.specs.Printing.{print_of, HasBytes};
ghost use Rattle.tau_sexpr.specs.Tree.{word, list, none, more, headed};
ghost use Rattle.tau_tree.specs.Code.{let_in, if_else, fold, set, send, new, inside as codes_in};
ghost use Rattle.tau_tree.specs.Expr.{code_of, codes_of};
ghost use Rattle.tau_tree.specs.Parts.{Throughout, AllThroughout};
ghost use Rattle.tau_forms.specs.Inner.Fitting.{HasFittingInteger};
ghost use Rattle.tau_forms.specs.Printed.{prim_word, name_of, code_form, code_forms};

use crate::tables::Tables;
use crate::values::{put_integer, put_text, put_truth};
use std::alloc::AllocError;
use tau_sexpr::Word;
use tau_tree::{Expr, Exprs, Prim};
use tau_value::Names;

/// Adds the text of an expression's form, with the names of the behaviours and starts.
#[cycle(put)]
#[tactic(auto, using(tau_sexpr::proofs::Literals::word_literal), unfolding(tau_sexpr::specs::Bytes::is_word_byte, tau_sexpr::specs::Bytes::is_letter_or_digit, tau_sexpr::specs::Bytes::is_word_sign))]
pub(crate) fn put_expression(
    out: &mut Vec<u8>,
    expr: &Expr,
    tables: &Tables,
) -> Result<(), AllocError>
    ensures text { OnOk result (out.new.items ≡ out.old.items ++ print_of (code_form tables.now.behaviours tables.now.starts (code_of expr.now))) }
    ensures bytes { OnOk result (HasBytes (code_form tables.now.behaviours tables.now.starts (code_of expr.now))) }
    ensures integers { OnOk result (Throughout HasFittingInteger (code_of expr.now)) }
{
    match expr {
        Expr::Unit => put_word(out, b"unit"),
        Expr::Truth(truth) => put_truth(out, *truth),
        Expr::Int(integer) => put_integer(out, *integer),
        Expr::Text(text) => put_text(out, text),
        Expr::Msg => put_word(out, b"msg"),
        Expr::Own => put_word(out, b"self"),
        Expr::Var(name) => put_word(out, name.bytes()),
        Expr::Start(number) => put_start_name(out, *number, &tables.starts),
        Expr::List(items) => put_all(out, b"list", items, tables),
        Expr::Let { name, value, body } => put_let(out, name, value, body, tables),
        Expr::If { test, yes, no } => put_if(out, test, yes, no, tables),
        Expr::Seq(items) => put_all(out, b"seq", items, tables),
        Expr::Fold {
            list,
            first,
            sum,
            item,
            body,
        } => put_fold(out, list, first, sum, item, body, tables),
        Expr::Apply { prim, args } => put_all(out, word_of(*prim), args, tables),
        Expr::Get => put_alone(out, b"get"),
        Expr::Set(value) => put_set(out, value, tables),
        Expr::Send { to, value } => put_send(out, to, value, tables),
        Expr::New {
            behaviour,
            node,
            state,
        } => put_new(out, *behaviour, node, state, tables),
        Expr::Stabilize => put_alone(out, b"stabilize"),
        Expr::Checkpoint => put_alone(out, b"checkpoint"),
        Expr::Rollback => put_alone(out, b"rollback"),
        Expr::Dependent => put_alone(out, b"dependent"),
    }
}

/// Adds a list of a word and expressions.
#[cycle(put)]
fn put_all(out: &mut Vec<u8>, head: &[u8], items: &Exprs, tables: &Tables) -> Result<(), AllocError>
    requires { All IsWordByte head.now }
    ensures text { OnOk result (out.new.items ≡ out.old.items ++ print_of (list (more (word head.now) (code_forms tables.now.behaviours tables.now.starts (codes_in (codes_of items.now)))))) }
    ensures bytes { OnOk result (HasBytes (list (more (word head.now) (code_forms tables.now.behaviours tables.now.starts (codes_in (codes_of items.now)))))) }
    ensures integers { OnOk result (AllThroughout HasFittingInteger (codes_in (codes_of items.now))) }
{
    begin(out, head)?;
    for item in items.items() {
        add_expression(out, item, tables)?;
    }
    end(out)
}

/// Adds `(let NAME e e)`.
#[cycle(put)]
#[tactic(auto, using(tau_sexpr::proofs::Literals::word_literal), unfolding(tau_sexpr::specs::Bytes::is_word_byte, tau_sexpr::specs::Bytes::is_letter_or_digit, tau_sexpr::specs::Bytes::is_word_sign))]
fn put_let(
    out: &mut Vec<u8>,
    name: &Word,
    value: &Expr,
    body: &Expr,
    tables: &Tables,
) -> Result<(), AllocError>
    ensures text { OnOk result (out.new.items ≡ out.old.items ++ print_of (code_form tables.now.behaviours tables.now.starts (let_in name.now (code_of value.now) (code_of body.now)))) }
    ensures bytes { OnOk result (HasBytes (code_form tables.now.behaviours tables.now.starts (let_in name.now (code_of value.now) (code_of body.now)))) }
    ensures integers { OnOk result (Throughout HasFittingInteger (let_in name.now (code_of value.now) (code_of body.now))) }
{
    begin(out, b"let")?;
    add_word(out, name)?;
    add_expression(out, value, tables)?;
    add_expression(out, body, tables)?;
    end(out)
}

/// Adds `(if e e e)`.
#[cycle(put)]
#[tactic(auto, using(tau_sexpr::proofs::Literals::word_literal), unfolding(tau_sexpr::specs::Bytes::is_word_byte, tau_sexpr::specs::Bytes::is_letter_or_digit, tau_sexpr::specs::Bytes::is_word_sign))]
fn put_if(
    out: &mut Vec<u8>,
    test: &Expr,
    yes: &Expr,
    no: &Expr,
    tables: &Tables,
) -> Result<(), AllocError>
    ensures text { OnOk result (out.new.items ≡ out.old.items ++ print_of (code_form tables.now.behaviours tables.now.starts (if_else (code_of test.now) (code_of yes.now) (code_of no.now)))) }
    ensures bytes { OnOk result (HasBytes (code_form tables.now.behaviours tables.now.starts (if_else (code_of test.now) (code_of yes.now) (code_of no.now)))) }
    ensures integers { OnOk result (Throughout HasFittingInteger (if_else (code_of test.now) (code_of yes.now) (code_of no.now))) }
{
    begin(out, b"if")?;
    add_expression(out, test, tables)?;
    add_expression(out, yes, tables)?;
    add_expression(out, no, tables)?;
    end(out)
}

/// Adds `(fold e e (SUM ITEM) e)`.
#[cycle(put)]
#[tactic(auto, using(tau_sexpr::proofs::Literals::word_literal), unfolding(tau_sexpr::specs::Bytes::is_word_byte, tau_sexpr::specs::Bytes::is_letter_or_digit, tau_sexpr::specs::Bytes::is_word_sign))]
fn put_fold(
    out: &mut Vec<u8>,
    list: &Expr,
    first: &Expr,
    sum: &Word,
    item: &Word,
    body: &Expr,
    tables: &Tables,
) -> Result<(), AllocError>
    ensures text { OnOk result (out.new.items ≡ out.old.items ++ print_of (code_form tables.now.behaviours tables.now.starts (fold (code_of list.now) (code_of first.now) sum.now item.now (code_of body.now)))) }
    ensures bytes { OnOk result (HasBytes (code_form tables.now.behaviours tables.now.starts (fold (code_of list.now) (code_of first.now) sum.now item.now (code_of body.now)))) }
    ensures integers { OnOk result (Throughout HasFittingInteger (fold (code_of list.now) (code_of first.now) sum.now item.now (code_of body.now))) }
{
    begin(out, b"fold")?;
    add_expression(out, list, tables)?;
    add_expression(out, first, tables)?;
    add_words(out, sum, item)?;
    add_expression(out, body, tables)?;
    end(out)
}

/// Adds `(set e)`.
#[cycle(put)]
#[tactic(auto, using(tau_sexpr::proofs::Literals::word_literal), unfolding(tau_sexpr::specs::Bytes::is_word_byte, tau_sexpr::specs::Bytes::is_letter_or_digit, tau_sexpr::specs::Bytes::is_word_sign))]
fn put_set(out: &mut Vec<u8>, value: &Expr, tables: &Tables) -> Result<(), AllocError>
    ensures text { OnOk result (out.new.items ≡ out.old.items ++ print_of (code_form tables.now.behaviours tables.now.starts (set (code_of value.now)))) }
    ensures bytes { OnOk result (HasBytes (code_form tables.now.behaviours tables.now.starts (set (code_of value.now)))) }
    ensures integers { OnOk result (Throughout HasFittingInteger (set (code_of value.now))) }
{
    begin(out, b"set")?;
    add_expression(out, value, tables)?;
    end(out)
}

/// Adds `(send e e)`.
#[cycle(put)]
#[tactic(auto, using(tau_sexpr::proofs::Literals::word_literal), unfolding(tau_sexpr::specs::Bytes::is_word_byte, tau_sexpr::specs::Bytes::is_letter_or_digit, tau_sexpr::specs::Bytes::is_word_sign))]
fn put_send(out: &mut Vec<u8>, to: &Expr, value: &Expr, tables: &Tables) -> Result<(), AllocError>
    ensures text { OnOk result (out.new.items ≡ out.old.items ++ print_of (code_form tables.now.behaviours tables.now.starts (send (code_of to.now) (code_of value.now)))) }
    ensures bytes { OnOk result (HasBytes (code_form tables.now.behaviours tables.now.starts (send (code_of to.now) (code_of value.now)))) }
    ensures integers { OnOk result (Throughout HasFittingInteger (send (code_of to.now) (code_of value.now))) }
{
    begin(out, b"send")?;
    add_expression(out, to, tables)?;
    add_expression(out, value, tables)?;
    end(out)
}

/// Adds `(new BEHAVIOUR e e)`.
#[cycle(put)]
#[tactic(auto, using(tau_sexpr::proofs::Literals::word_literal), unfolding(tau_sexpr::specs::Bytes::is_word_byte, tau_sexpr::specs::Bytes::is_letter_or_digit, tau_sexpr::specs::Bytes::is_word_sign))]
fn put_new(
    out: &mut Vec<u8>,
    behaviour: u32,
    node: &Expr,
    state: &Expr,
    tables: &Tables,
) -> Result<(), AllocError>
    ensures text { OnOk result (out.new.items ≡ out.old.items ++ print_of (code_form tables.now.behaviours tables.now.starts (new behaviour (code_of node.now) (code_of state.now)))) }
    ensures bytes { OnOk result (HasBytes (code_form tables.now.behaviours tables.now.starts (new behaviour (code_of node.now) (code_of state.now)))) }
    ensures integers { OnOk result (Throughout HasFittingInteger (new behaviour (code_of node.now) (code_of state.now))) }
{
    begin(out, b"new")?;
    add_defined(out, &tables.behaviours, behaviour)?;
    add_expression(out, node, tables)?;
    add_expression(out, state, tables)?;
    end(out)
}

/// Adds a space and an expression.
#[cycle(put)]
pub(crate) fn add_expression(
    out: &mut Vec<u8>,
    expr: &Expr,
    tables: &Tables,
) -> Result<(), AllocError>
    ensures text { OnOk result (out.new.items ≡ out.old.items ++ 32 ∷ print_of (code_form tables.now.behaviours tables.now.starts (code_of expr.now))) }
    ensures bytes { OnOk result (HasBytes (code_form tables.now.behaviours tables.now.starts (code_of expr.now))) }
    ensures integers { OnOk result (Throughout HasFittingInteger (code_of expr.now)) }
{
    out.push(b' ')?;
    put_expression(out, expr, tables)
}

/// Adds `(name START)`.
#[tactic(auto, using(tau_sexpr::proofs::Literals::word_literal), unfolding(tau_sexpr::specs::Bytes::is_word_byte, tau_sexpr::specs::Bytes::is_letter_or_digit, tau_sexpr::specs::Bytes::is_word_sign))]
fn put_start_name(out: &mut Vec<u8>, number: u32, starts: &Names) -> Result<(), AllocError>
    ensures text { OnOk result (out.new.items ≡ out.old.items ++ print_of (headed (codes "name") (name_of starts.now number ∷ []))) }
    ensures bytes { OnOk result (HasBytes (headed (codes "name") (name_of starts.now number ∷ []))) }
{
    begin(out, b"name")?;
    add_defined(out, starts, number)?;
    end(out)
}

/// Adds a list of one word.
fn put_alone(out: &mut Vec<u8>, head: &[u8]) -> Result<(), AllocError>
    requires { All IsWordByte head.now }
    ensures text { OnOk result (out.new.items ≡ out.old.items ++ print_of (headed head.now [])) }
    ensures bytes { OnOk result (HasBytes (headed head.now [])) }
{
    begin(out, head)?;
    end(out)
}

/// The word of an operation.
#[tactic(auto, using(tau_sexpr::proofs::Literals::word_literal), unfolding(tau_sexpr::specs::Bytes::is_word_byte, tau_sexpr::specs::Bytes::is_letter_or_digit, tau_sexpr::specs::Bytes::is_word_sign))]
fn word_of(prim: Prim) -> &'static [u8]
    ensures value { result.now ≡ prim_word prim }
    ensures word { All IsWordByte result.now }
{
    match prim {
        Prim::Add => b"+",
        Prim::Sub => b"-",
        Prim::Mul => b"*",
        Prim::Div => b"/",
        Prim::Rem => b"%",
        Prim::Less => b"<",
        Prim::Same => b"=",
        Prim::Not => b"not",
        Prim::Len => b"len",
        Prim::Item => b"at",
        Prim::Push => b"push",
        Prim::Cat => b"cat",
    }
}

fn put_word(out: &mut Vec<u8>, bytes: &[u8]) -> Result<(), AllocError>
    requires { All IsWordByte bytes.now }
    ensures text { OnOk result (out.new.items ≡ out.old.items ++ bytes.now) }
    ensures bytes { OnOk result (All IsWordByte bytes.now) }
{
    out.extend_from_slice(bytes)
}

/// Begins a list with a word.
pub(crate) fn begin(out: &mut Vec<u8>, head: &[u8]) -> Result<(), AllocError>
    requires { All IsWordByte head.now }
    ensures text { OnOk result (out.new.items ≡ out.old.items ++ 40 ∷ head.now) }
    ensures bytes { OnOk result (All IsWordByte head.now) }
{
    out.push(b'(')?;
    put_word(out, head)
}

/// Ends a list.
pub(crate) fn end(out: &mut Vec<u8>) -> Result<(), AllocError>
    ensures { OnOk result (out.new.items ≡ out.old.items ++ 41 ∷ []) }
{
    out.push(b')')?;
    Ok(())
}

/// Adds a space and a word.
pub(crate) fn add_word(out: &mut Vec<u8>, name: &Word) -> Result<(), AllocError>
    ensures text { OnOk result (out.new.items ≡ out.old.items ++ 32 ∷ name.now) }
    ensures bytes { OnOk result (All IsWordByte name.now) }
{
    out.push(b' ')?;
    put_word(out, name.bytes())
}

/// Adds a space and a list of two words.
fn add_words(out: &mut Vec<u8>, first: &Word, second: &Word) -> Result<(), AllocError>
    ensures text { OnOk result (out.new.items ≡ out.old.items ++ 32 ∷ print_of (list (more (word first.now) (more (word second.now) none)))) }
    ensures bytes { OnOk result (HasBytes (list (more (word first.now) (more (word second.now) none)))) }
{
    out.push(b' ')?;
    begin(out, first.bytes())?;
    add_word(out, second)?;
    end(out)
}

/// Adds a space and the name with a number; no name where there is none.
pub(crate) fn add_defined(out: &mut Vec<u8>, names: &Names, number: u32) -> Result<(), AllocError>
    ensures text { OnOk result (out.new.items ≡ out.old.items ++ 32 ∷ print_of (name_of names.now number)) }
    ensures bytes { OnOk result (HasBytes (name_of names.now number)) }
{
    out.push(b' ')?;
    match names.item(number as usize) {
        Some(name) => put_word(out, name.bytes()),
        None => Ok(()),
    }
}
