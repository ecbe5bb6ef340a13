//! The nodes that terms become in an arena.

ghost use Rattle.std.specs.Prelude.{◌≡◌, length, IfOk, IsTrue, true};
ghost use Rattle.term_tree.specs.Arena.{has_parts_below};
ghost use Rattle.term_check.specs.Found.{IsAligned, Keeps};
ghost use Rattle.term_check.specs.Term.{IsNodeAt};
ghost use Rattle.term_check.specs.machinery.Known.{is_atom_below};
ghost use Rattle.term_check.specs.machinery.Reading.{IsAtomNode};

use crate::atom::Atom;
use crate::context::Context;
use base::{Items, Memory};
use term_tree::{Node, TermId, Terms};

/// Puts a node into the arena. An arena of 2 ^ 32 nodes has no room for more.
pub fn add_node(terms: &mut Terms, node: Node, start: u32) -> Result<TermId, Memory>
    requires aligned { IsAligned terms.old }
    requires below { IsTrue (has_parts_below (length terms.old.nodes) node) }
    ensures at { IfOk result (λ id. IsNodeAt terms.new id.0 node start) }
    ensures keeps { Keeps terms.old terms.new }
{
    if terms.len() >= 1 << 32 {
        return Err(Memory);
    }
    terms.add(node, start)
}

/// The node of a term without parts.
pub fn atom_node<'a>(context: &Context<'a>, atom: Atom) -> Node
    requires { is_atom_below (length context.now.lets) atom ≡ true }
    ensures { IsAtomNode context.now.lets atom result }
{
    match atom {
        Atom::Number(value) => Node::Num(value),
        Atom::Truth(true) => Node::True,
        Atom::Truth(false) => Node::False,
        Atom::BoundVariable { number, sort } => Node::Var {
            binder: number,
            sort,
        },
        Atom::LetName {
            number,
            sort: _,
            constant: _,
        } => Node::LetVar {
            bound: context.let_term(number),
        },
        Atom::Predicate(pred) => Node::Pred {
            pred,
            args: Items::new(context.alloc()),
        },
    }
}
