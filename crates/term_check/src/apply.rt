//! Terms put into an arena from what was read: leaves, heads with their arguments, and binders.

ghost use Rattle.std.specs.Prelude.{◌≡◌, ◌<◌, ◌++◌, length, IfOk, IsTrue, None, Ok, List};
ghost use Rattle.std.specs.List.{list_all};
ghost use Rattle.term_tree.specs.Arena.{is_below, has_parts_below};
ghost use Rattle.term_tree.specs.declared.node.TermId.{TermId as AnId};
ghost use Rattle.term_tree.specs.declared.sort.Sort.TheVariants.{Bool as BoolSort};
ghost use Rattle.term_check.specs.machinery.Known.{IsReady};
ghost use Rattle.term_check.specs.machinery.Reading.{IsAdded, IsGathered, Tells, quantifier_node};
ghost use Rattle.term_check.specs.Spelling.{leaf_term, head_fault, Gathered, Spelled, application, let_spelled, quantified, quantifier};
ghost use Rattle.term_check.specs.Found.{IsAligned, Keeps};
ghost use Rattle.term_check.specs.Term.{AreTermsAt, IsTermAt};

use crate::context::Context;
use crate::found::{Found, FoundAll};
use crate::head::Head;
use crate::heads::unapplied_fault;
use crate::leaves::{atom_part, leaf_atom};
use crate::names::sorts_of;
use crate::nodes::{add_node, atom_node};
use crate::part::{Fault, Part};
use crate::rules::{applied, declared_fault, divisor, same_sort};
use crate::stop::TermStop;
use base::Items;
use sexp_read::LeafKind;
use term_tree::{Kind, Node, Pred, Sort, TermId, Terms};

/// Puts the node of a term into the arena.
fn add_found(
    node: Node,
    start: u32,
    part: Part,
    next: u32,
    terms: &mut Terms,
) -> Result<Found, TermStop>
    requires aligned { IsAligned terms.old }
    requires below { IsTrue (has_parts_below (length terms.old.nodes) node) }
    ensures added { IsAdded node start part next terms.new result }
    ensures keeps { Keeps terms.old terms.new }
    ensures next { IfOk result (λ found. found.next ≡ next) }
{
    let id = add_node(terms, node, start)?;
    Ok(Found { id, part, next })
}

/// Reads a leaf as a term.
pub fn read_leaf<'a>(
    context: &Context<'a>,
    next: u32,
    kind: LeafKind,
    start: u32,
    end: u32,
    terms: &mut Terms,
) -> Result<Found, TermStop>
    requires ready { IsReady context.now terms.old next 1 }
    ensures told { Tells context.now.lets (leaf_term context.now.text context.now.scope next kind start end) terms.new result }
    ensures keeps { Keeps terms.old terms.new }
    ensures next { IfOk result (λ found. found.next ≡ next) }
{
    match leaf_atom(context, kind, start, end) {
        Ok(atom) => {
            let node = atom_node(context, atom);
            add_found(node, start, atom_part(start, atom), next, terms)
        }
        Err(fault) => Err(TermStop::Fault(fault)),
    }
}

fn bool_part(start: u32) -> Part
    ensures { result ≡ record { start = start; sort = BoolSort; constant = None } }
{
    Part {
        start,
        sort: Sort::Bool,
        constant: None,
    }
}

/// Applies a head to arguments that were read, as many as it takes.
pub fn apply(
    preds: &[Pred],
    head: Head,
    start: u32,
    ids: Vec<TermId>,
    parts: &[Part],
    next: u32,
    terms: &mut Terms,
) -> Result<Found, TermStop>
    requires aligned { IsAligned terms.old }
    requires below { IsTrue (list_all (is_below (length terms.old.nodes)) ids.items) }
    requires number { head_fault preds.now head start (length ids.items) ≡ None }
    ensures told { (lets : List AnId) (g : Gathered) → IsGathered lets terms.old g ids.items parts.now next
        → Tells lets (application preds.now head start g) terms.new result }
    ensures keeps { Keeps terms.old terms.new }
    ensures next { IfOk result (λ found. found.next ≡ next) }
{
    match head {
        Head::Operator(op) => match applied(op, start, parts) {
            Ok(part) => {
                let args = Items::from_vec(ids);
                add_found(Node::Op { op, args }, start, part, next, terms)
            }
            Err(fault) => Err(TermStop::Fault(fault)),
        },
        Head::Declared(pred) => match declared_fault(sorts_of(preds, pred), parts) {
            Some(fault) => Err(TermStop::Fault(fault)),
            None => {
                let args = Items::from_vec(ids);
                let node = Node::Pred { pred, args };
                add_found(node, start, bool_part(start), next, terms)
            }
        },
        Head::Constant => Err(TermStop::Fault(unapplied_fault(start, parts.len()))),
        Head::Divisibility(by) => match divisor(by, start, parts) {
            Ok(by) => {
                let node = Node::Divisible { by, arg: ids[0] };
                add_found(node, start, bool_part(start), next, terms)
            }
            Err(fault) => Err(TermStop::Fault(fault)),
        },
    }
}

/// A `let` of terms that were read, around a term that was read.
pub fn add_binding(
    start: u32,
    all: FoundAll,
    found: Found,
    terms: &mut Terms,
) -> Result<Found, TermStop>
    requires aligned { IsAligned terms.old }
    requires bound { IsTrue (list_all (is_below (length terms.old.nodes)) all.ids.items) }
    requires body { found.id.0 < length terms.old.nodes }
    ensures told { (lets : List AnId) (g : Gathered) (s : Spelled) → AreTermsAt terms.old lets g.terms all.ids.items → IsTermAt terms.old (lets ++ all.ids.items) s.term found.id.0
        → s.part ≡ found.part → s.next ≡ found.next → Tells lets (Ok (let_spelled start g s)) terms.new result }
    ensures keeps { Keeps terms.old terms.new }
    ensures next { IfOk result (λ made. made.next ≡ found.next) }
{
    let part = Part {
        start,
        sort: found.part.sort,
        constant: found.part.constant,
    };
    let node = Node::Let {
        bound: Items::from_vec(all.ids),
        body: found.id,
    };
    add_found(node, start, part, found.next, terms)
}

fn quantifier_node(is_universal: bool, first: u32, sorts: Items<Sort>, body: TermId) -> Node
    ensures { result ≡ quantifier_node is_universal first sorts body }
{
    if is_universal {
        Node::Forall { first, sorts, body }
    } else {
        Node::Exists { first, sorts, body }
    }
}

/// A quantifier around a term that was read, whose variables are numbered from `first` on.
pub fn add_quantifier(
    is_universal: bool,
    first: u32,
    sorts: Items<Sort>,
    start: u32,
    found: Found,
    terms: &mut Terms,
) -> Result<Found, TermStop>
    requires aligned { IsAligned terms.old }
    requires body { found.id.0 < length terms.old.nodes }
    ensures told { (lets : List AnId) (s : Spelled) → IsTermAt terms.old lets s.term found.id.0
        → s.part ≡ found.part → s.next ≡ found.next → Tells lets (quantified (quantifier is_universal start first sorts) start s) terms.new result }
    ensures keeps { Keeps terms.old terms.new }
    ensures next { IfOk result (λ made. made.next ≡ found.next) }
{
    if !same_sort(found.part.sort, Sort::Bool) {
        return Err(TermStop::Fault(Fault {
            kind: Kind::SortMismatch,
            offset: found.part.start,
        }));
    }
    let node = quantifier_node(is_universal, first, sorts, found.id);
    add_found(node, start, bool_part(start), found.next, terms)
}
