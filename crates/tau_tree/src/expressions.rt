//! Expressions of the behaviour language, and lists of them.
ghost use Rattle.std.specs.Prelude.{◌≡◌, ◌↔◌, [], ◌∷◌, ◌++◌, length, map, slice_get, IsTrue, IfOk, IfErr, OnOk, OnErr, option_map};
ghost use Rattle.tau_tree.specs.Expr.{code_of, codes_of};

use std::alloc::{AllocError, Global};
use tau_sexpr::{Text, Word};

/// An operation on values (docs/language.md, "Expressions"). The crate offers it as `Prim`. Here it has another name,
/// since a library of the prover is called `Prim`, and crates above would not check.
#[derive(Clone, Copy, Debug, PartialEq, Eq)]
pub enum Operation {
    Add,
    Sub,
    Mul,
    Div,
    Rem,
    Less,
    Same,
    Not,
    Len,
    Item,
    Push,
    Cat,
}

/// An expression (docs/language.md, "Expressions"). Contracts see it as plain data, `code_of`.
#[cycle(expr)]
#[derive(Drop)]
pub enum Expr {
    Unit,
    Truth(bool),
    Int(i64),
    Text(Text),
    /// The message of the turn.
    Msg,
    /// The own name.
    Own,
    Var(Word),
    /// The name of a start transactor, by its number.
    Start(u32),
    List(Exprs),
    Let {
        name: Word,
        value: Box<Expr>,
        body: Box<Expr>,
    },
    If {
        test: Box<Expr>,
        yes: Box<Expr>,
        no: Box<Expr>,
    },
    Seq(Exprs),
    Fold {
        list: Box<Expr>,
        first: Box<Expr>,
        sum: Word,
        item: Word,
        body: Box<Expr>,
    },
    Apply {
        prim: Operation,
        args: Exprs,
    },
    Get,
    Set(Box<Expr>),
    Send {
        to: Box<Expr>,
        value: Box<Expr>,
    },
    New {
        behaviour: u32,
        node: Box<Expr>,
        state: Box<Expr>,
    },
    Stabilize,
    Checkpoint,
    Rollback,
    Dependent,
}

/// A list of expressions. Contracts see it as a list of plain data, `codes_of`.
#[cycle(expr)]
#[derive(Drop)]
pub struct Exprs {
    pub(crate) items: Vec<Expr>,
}

impl Expr {
    /// An equal expression. The error is want of memory.
    #[cycle(copy)]
    pub fn copy(&self) -> Result<Expr, AllocError>
        ensures { IfOk result (λ e. code_of e ≡ code_of self.now) }
    {
        Ok(match self {
            Expr::Unit => Expr::Unit,
            Expr::Truth(truth) => Expr::Truth(*truth),
            Expr::Int(number) => Expr::Int(*number),
            Expr::Text(text) => Expr::Text(text.copy()?),
            Expr::Msg => Expr::Msg,
            Expr::Own => Expr::Own,
            Expr::Var(name) => Expr::Var(name.copy()?),
            Expr::Start(number) => Expr::Start(*number),
            Expr::List(items) => Expr::List(items.copy()?),
            Expr::Let { name, value, body } => Expr::Let {
                name: name.copy()?,
                value: copy_box(value)?,
                body: copy_box(body)?,
            },
            Expr::If { test, yes, no } => Expr::If {
                test: copy_box(test)?,
                yes: copy_box(yes)?,
                no: copy_box(no)?,
            },
            Expr::Seq(items) => Expr::Seq(items.copy()?),
            Expr::Fold {
                list,
                first,
                sum,
                item,
                body,
            } => Expr::Fold {
                list: copy_box(list)?,
                first: copy_box(first)?,
                sum: sum.copy()?,
                item: item.copy()?,
                body: copy_box(body)?,
            },
            Expr::Apply { prim, args } => Expr::Apply {
                prim: *prim,
                args: args.copy()?,
            },
            Expr::Get => Expr::Get,
            Expr::Set(value) => Expr::Set(copy_box(value)?),
            Expr::Send { to, value } => Expr::Send {
                to: copy_box(to)?,
                value: copy_box(value)?,
            },
            Expr::New {
                behaviour,
                node,
                state,
            } => Expr::New {
                behaviour: *behaviour,
                node: copy_box(node)?,
                state: copy_box(state)?,
            },
            Expr::Stabilize => Expr::Stabilize,
            Expr::Checkpoint => Expr::Checkpoint,
            Expr::Rollback => Expr::Rollback,
            Expr::Dependent => Expr::Dependent,
        })
    }

    /// Whether two expressions are equal.
    #[cycle(same)]
    pub fn same(&self, other: &Expr) -> bool
        ensures { IsTrue result ↔ (code_of self.now ≡ code_of other.now) }
    {
        match (self, other) {
            (Expr::Unit, Expr::Unit)
            | (Expr::Msg, Expr::Msg)
            | (Expr::Own, Expr::Own)
            | (Expr::Get, Expr::Get)
            | (Expr::Stabilize, Expr::Stabilize)
            | (Expr::Checkpoint, Expr::Checkpoint)
            | (Expr::Rollback, Expr::Rollback)
            | (Expr::Dependent, Expr::Dependent) => true,
            (Expr::Truth(one), Expr::Truth(two)) => one == two,
            (Expr::Int(one), Expr::Int(two)) => one == two,
            (Expr::Text(one), Expr::Text(two)) => one.same(two),
            (Expr::Var(one), Expr::Var(two)) => one.same(two),
            (Expr::Start(one), Expr::Start(two)) => one == two,
            (Expr::List(one), Expr::List(two)) => one.same(two),
            (
                Expr::Let { name, value, body },
                Expr::Let {
                    name: other_name,
                    value: other_value,
                    body: other_body,
                },
            ) => name.same(other_name) && value.same(other_value) && body.same(other_body),
            (
                Expr::If { test, yes, no },
                Expr::If {
                    test: other_test,
                    yes: other_yes,
                    no: other_no,
                },
            ) => test.same(other_test) && yes.same(other_yes) && no.same(other_no),
            (Expr::Seq(one), Expr::Seq(two)) => one.same(two),
            (
                Expr::Fold {
                    list,
                    first,
                    sum,
                    item,
                    body,
                },
                Expr::Fold {
                    list: other_list,
                    first: other_first,
                    sum: other_sum,
                    item: other_item,
                    body: other_body,
                },
            ) => {
                list.same(other_list)
                    && first.same(other_first)
                    && sum.same(other_sum)
                    && item.same(other_item)
                    && body.same(other_body)
            }
            (
                Expr::Apply { prim, args },
                Expr::Apply {
                    prim: other_prim,
                    args: other_args,
                },
            ) => prim == other_prim && args.same(other_args),
            (Expr::Set(one), Expr::Set(two)) => one.same(two),
            (
                Expr::Send { to, value },
                Expr::Send {
                    to: other_to,
                    value: other_value,
                },
            ) => to.same(other_to) && value.same(other_value),
            (
                Expr::New {
                    behaviour,
                    node,
                    state,
                },
                Expr::New {
                    behaviour: other_behaviour,
                    node: other_node,
                    state: other_state,
                },
            ) => {
                behaviour == other_behaviour && node.same(other_node) && state.same(other_state)
            }
            _ => false,
        }
    }
}

#[cycle(copy)]
fn copy_box(expr: &Box<Expr>) -> Result<Box<Expr>, AllocError>
    ensures { IfOk result (λ e. code_of e.value ≡ code_of expr.now.value) }
{
    Ok(Box::new(*Box::allocator(expr), (**expr).copy()?)?)
}

impl Exprs {
    /// The empty list. It takes no memory.
    pub fn new(alloc: Global) -> Exprs
        ensures { codes_of result ≡ [] }
    {
        Exprs {
            items: Vec::new(alloc),
        }
    }

    /// The empty list, with room for so many expressions. The error is want of memory.
    pub fn with_capacity(alloc: Global, count: usize) -> Result<Exprs, AllocError>
        ensures { IfOk result (λ f. codes_of f ≡ []) }
    {
        Ok(Exprs {
            items: Vec::with_capacity(alloc, count)?,
        })
    }

    /// Adds an expression at the end. Without memory it comes back, and the list stays as it was.
    pub fn push(&mut self, item: Expr) -> Result<(), (Expr, AllocError)>
        ensures ok { OnOk result (codes_of self.new ≡ codes_of self.old ++ code_of item ∷ []) }
        ensures err { IfErr result (λ e. (e.0 ≡ item) × (codes_of self.new ≡ codes_of self.old)) }
    {
        match self.items.push(item) {
            Ok(()) => Ok(()),
            Err(failed) => Err((failed.value, AllocError)),
        }
    }

    /// Adds an expression at the end. Without memory it is dropped, and the list stays as it was.
    pub fn add(&mut self, item: Expr) -> Result<(), AllocError>
        ensures ok { OnOk result (codes_of self.new ≡ codes_of self.old ++ code_of item ∷ []) }
        ensures err { OnErr result (codes_of self.new ≡ codes_of self.old) }
    {
        match self.push(item) {
            Ok(()) => Ok(()),
            Err((_item, failed)) => Err(failed),
        }
    }

    /// How many expressions the list has.
    pub fn len(&self) -> usize
        ensures { result ≡ length (codes_of self.now) }
    {
        self.items.len()
    }

    /// Whether the list has no expressions.
    pub fn is_empty(&self) -> bool
        ensures { IsTrue result ↔ (codes_of self.now ≡ []) }
    {
        self.items.is_empty()
    }

    /// The expression at `k`, counted from 0; `None` where there is none.
    pub fn item(&self, k: usize) -> Option<&Expr>
        ensures { option_map (λ e. code_of e.now) result ≡ slice_get (codes_of self.now) k }
    {
        self.items.get(k)
    }

    /// The expressions of the list.
    pub fn items(&self) -> &[Expr]
        ensures { map code_of result.now ≡ codes_of self.now }
    {
        &self.items
    }

    /// An equal list. The error is want of memory.
    #[cycle(copy)]
    pub fn copy(&self) -> Result<Exprs, AllocError>
        ensures { IfOk result (λ f. codes_of f ≡ codes_of self.now) }
    {
        let mut items = Vec::with_capacity(*self.items.allocator(), self.items.len())?;
        for item in &self.items {
            items.push(item.copy()?)?;
        }
        Ok(Exprs { items })
    }

    /// Whether two lists are equal.
    #[cycle(same)]
    pub fn same(&self, other: &Exprs) -> bool
        ensures { IsTrue result ↔ (codes_of self.now ≡ codes_of other.now) }
    {
        if self.items.len() != other.items.len() {
            return false;
        }
        for (k, item) in self.items.iter().enumerate() {
            if !item.same(&other.items[k]) {
                return false;
            }
        }
        true
    }
}
