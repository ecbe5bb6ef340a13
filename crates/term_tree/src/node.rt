ghost use Rattle.std.specs.Prelude.{◌≡◌};
ghost use Rattle.std.specs.List.{list_all};
ghost use Rattle.term_tree.specs.Arena.{has_parts_below, is_below};

use crate::sort::Sort;
use base::{Copied, Items, Memory, Same};
use std::alloc::Global;

/// The number of a term in its arena, from 0.
#[derive(Clone, Copy, Debug, PartialEq, Eq)]
pub struct TermId(pub u32);

/// The operators of the theories Core and Ints. `Sub` is `-`, with one argument or more.
#[derive(Clone, Copy, Debug, PartialEq, Eq)]
pub enum OpKind {
    Not,
    And,
    Or,
    Xor,
    Implies,
    Eq,
    Distinct,
    Ite,
    Add,
    Mul,
    Sub,
    Abs,
    Div,
    Mod,
    Le,
    Lt,
    Ge,
    Gt,
}

/// One node of a term. Its parts are named by number.
#[derive(Debug)]
pub enum Node {
    Num(i64),
    True,
    False,
    /// A quantified variable of an assertion, or a parameter of a definition, numbered from 0 in
    /// the order of the text.
    Var {
        binder: u32,
        sort: Sort,
    },
    /// A name that a `let` binds to this term.
    LetVar {
        bound: TermId,
    },
    /// A predicate, numbered from 0 in the order of the declarations, at its arguments.
    Pred {
        pred: u32,
        args: Items<TermId>,
    },
    Op {
        op: OpKind,
        args: Items<TermId>,
    },
    /// `(_ divisible by)` of the argument.
    Divisible {
        by: i64,
        arg: TermId,
    },
    Let {
        bound: Items<TermId>,
        body: TermId,
    },
    /// The quantified variables are numbered from `first` on.
    Forall {
        first: u32,
        sorts: Items<Sort>,
        body: TermId,
    },
    Exists {
        first: u32,
        sorts: Items<Sort>,
        body: TermId,
    },
}

impl Drop for Node {
    fn drop(self) {
        match self {
            Node::Num(_) => {}
            Node::True => {}
            Node::False => {}
            Node::Var { binder: _, sort: _ } => {}
            Node::LetVar { bound: _ } => {}
            Node::Pred { pred: _, args: _ } => {}
            Node::Op { op: _, args: _ } => {}
            Node::Divisible { by: _, arg: _ } => {}
            Node::Let { bound: _, body: _ } => {}
            Node::Forall {
                first: _,
                sorts: _,
                body: _,
            } => {}
            Node::Exists {
                first: _,
                sorts: _,
                body: _,
            } => {}
        }
    }
}

fn are_below(ids: &[TermId], bound: usize) -> bool
    ensures { result ≡ list_all (is_below bound) ids.now }
{
    ids.iter().all(|id| (id.0 as usize) < bound)
}

impl Node {
    /// Whether all parts of the node have numbers below this one, as an arena of that length needs.
    pub fn has_parts_below(&self, bound: usize) -> bool
        ensures { result ≡ has_parts_below bound self.now }
    {
        match self {
            Node::Num(_) | Node::True | Node::False | Node::Var { .. } => true,
            Node::LetVar { bound: id } => (id.0 as usize) < bound,
            Node::Pred { args, .. } => are_below(args.as_slice(), bound),
            Node::Op { args, .. } => are_below(args.as_slice(), bound),
            Node::Divisible { arg, .. } => (arg.0 as usize) < bound,
            Node::Let { bound: ids, body } => {
                are_below(ids.as_slice(), bound) && (body.0 as usize) < bound
            }
            Node::Forall { body, .. } => (body.0 as usize) < bound,
            Node::Exists { body, .. } => (body.0 as usize) < bound,
        }
    }
}

impl Same for TermId {
    fn equals(&self, other: &TermId) -> bool {
        *self == *other
    }
}

impl Copied for TermId {
    fn copy(&self, _alloc: Global) -> Result<TermId, Memory> {
        Ok(*self)
    }
}
