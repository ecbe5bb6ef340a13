ghost use Rattle.std.specs.Prelude.{◌≡◌, IfOk};

use crate::definition::Definition;
use crate::node::{Node, OpKind};
use crate::script::{Assertion, Script};
use base::{Copied, Memory, Same};
use std::alloc::Global;

impl Same for OpKind {
    fn equals(&self, other: &OpKind) -> bool {
        *self == *other
    }
}

impl Copied for OpKind {
    fn copy(&self, _alloc: Global) -> Result<OpKind, Memory> {
        Ok(*self)
    }
}

impl Copied for Node {
    fn copy(&self, alloc: Global) -> Result<Node, Memory> {
        match self {
            Node::Num(n) => Ok(Node::Num(*n)),
            Node::True => Ok(Node::True),
            Node::False => Ok(Node::False),
            Node::Var { binder, sort } => Ok(Node::Var {
                binder: *binder,
                sort: *sort,
            }),
            Node::LetVar { bound } => Ok(Node::LetVar { bound: *bound }),
            Node::Pred { pred, args } => {
                let args = args.copy(alloc)?;
                Ok(Node::Pred { pred: *pred, args })
            }
            Node::Op { op, args } => {
                let args = args.copy(alloc)?;
                Ok(Node::Op { op: *op, args })
            }
            Node::Divisible { by, arg } => Ok(Node::Divisible { by: *by, arg: *arg }),
            Node::Let { bound, body } => {
                let bound = bound.copy(alloc)?;
                Ok(Node::Let { bound, body: *body })
            }
            Node::Forall { first, sorts, body } => {
                let sorts = sorts.copy(alloc)?;
                Ok(Node::Forall {
                    first: *first,
                    sorts,
                    body: *body,
                })
            }
            Node::Exists { first, sorts, body } => {
                let sorts = sorts.copy(alloc)?;
                Ok(Node::Exists {
                    first: *first,
                    sorts,
                    body: *body,
                })
            }
        }
    }
}

/// Copies of nodes, in order.
pub(crate) fn copy_nodes(alloc: Global, nodes: &[Node]) -> Result<Vec<Node>, Memory>
    ensures { IfOk result (λ copied. copied.items ≡ nodes.now) }
{
    let mut copied = Vec::with_capacity(alloc, nodes.len())?;
    for node in nodes {
        copied.push(node.copy(alloc)?)?;
    }
    Ok(copied)
}

impl Copied for Assertion {
    fn copy(&self, _alloc: Global) -> Result<Assertion, Memory> {
        Ok(*self)
    }
}

impl Copied for Script {
    fn copy(&self, alloc: Global) -> Result<Script, Memory> {
        let preds = self.preds.copy(alloc)?;
        let asserts = self.asserts.copy(alloc)?;
        let terms = self.terms.copy(alloc)?;
        Ok(Script {
            preds,
            asserts,
            terms,
        })
    }
}

impl Copied for Definition {
    fn copy(&self, alloc: Global) -> Result<Definition, Memory> {
        let params = self.params.copy(alloc)?;
        let terms = self.terms.copy(alloc)?;
        Ok(Definition {
            pred: self.pred,
            params,
            terms,
            body: self.body,
        })
    }
}
