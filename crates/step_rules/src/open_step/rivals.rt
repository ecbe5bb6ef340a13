//! The rules of Open that look at live children of the parent, and what they look at.

ghost use Rattle.std.specs.Prelude.{◌≡◌, length, IfOk, filter};
ghost use Rattle.std.specs.List.{find};
ghost use Rattle.book_rules.specs.OpenRules.{is_rival, rule_7, rule_8, tuple_of};
ghost use Rattle.book_rules.specs.Walks.{first_number};
ghost use Rattle.step_rules.specs.Standing.{standing_state};
ghost use Rattle.step_rules.specs.Taken.{open_of};
ghost use Rattle.step_rules.specs.Views.{obligations_of};
ghost use Rattle.step_rules.specs.machinery.Walks.{is_twin, rival_at, twin_at};

use crate::children::is_child;
use crate::lent::Lent;
use crate::open_step::part::OpenPart;
use crate::open_step::rules::atom_of;
use base::Memory;
use book_rules::By;
use clause_form::Atom;
use cube_forms::Tuple;
use obligation_tree::Tree;

/// Whether it is one of the step's parent by the step's clause.
fn is_rival(tree: &Tree, id: u32, step: &OpenPart) -> bool
    ensures { result ≡ rival_at tree.now.nodes (open_of step.now) id }
{
    if id >= tree.count() {
        return false;
    }
    is_child(tree, id, step.parent) && tree.obligation(id).clause == step.seen.clause()
}

/// Whether it stands for the same atom besides, and holds the tuple.
fn is_twin(tree: &Tree, id: u32, step: &OpenPart, tuple: &Tuple) -> bool
    ensures { result ≡ twin_at tree.now.nodes (open_of step.now) tuple.now id }
{
    if id >= tree.count() {
        return false;
    }
    let obligation = tree.obligation(id);
    is_rival(tree, id, step)
        && obligation.atom == step.atom
        && obligation.cube.holds(tuple.as_slice())
}

/// The first of the numbers that is such a twin.
fn first_twin(tree: &Tree, numbers: &[u32], step: &OpenPart, tuple: &Tuple) -> Option<u32>
    ensures { result ≡ find (twin_at tree.now.nodes (open_of step.now) tuple.now) numbers.now }
{
    for id in numbers {
        if is_twin(tree, *id, step, tuple) {
            return Some(*id);
        }
    }
    None
}

/// The first live obligation that is one.
fn live_twin(tree: &Tree, step: &OpenPart, tuple: &Tuple) -> Option<u32>
    ensures { result ≡ first_number (is_twin (open_of step.now) tuple.now) (obligations_of tree.now.nodes) }
{
    first_twin(tree, tree.live(), step, tuple)
}

/// The first live obligation that is a twin for the tuple of the atom.
fn twin_of(parts: &Lent, step: &OpenPart, atom: &Atom) -> Result<Option<u32>, Memory>
    ensures { IfOk result (λ id. id ≡ first_number (is_twin (open_of step.now) (tuple_of (open_of step.now) atom.now)) (obligations_of parts.now.tree.nodes)) }
{
    let tuple = Tuple::at(parts.alloc, step.seen.point(), atom.args.as_slice())?;
    Ok(live_twin(parts.tree, step, &tuple))
}

/// 7: no live sibling of the same clause and atom holds the point.
pub(crate) fn open_rule_7_no_sibling_holds_point(
    parts: &Lent,
    step: &OpenPart,
) -> Result<Option<By>, Memory>
    ensures { IfOk result (λ by. by ≡ rule_7 parts.now.system (standing_state parts.now) (open_of step.now)) }
{
    match atom_of(parts, step) {
        Some(atom) => match twin_of(parts, step, atom)? {
            Some(id) => Ok(Some(By::Obligation(id))),
            None => Ok(None),
        },
        None => Ok(None),
    }
}

/// The first of the numbers that is a live child of the step's parent by the step's clause.
fn first_rival(tree: &Tree, numbers: &[u32], step: &OpenPart) -> Option<u32>
    ensures { result ≡ find (rival_at tree.now.nodes (open_of step.now)) numbers.now }
{
    for id in numbers {
        if is_rival(tree, *id, step) {
            return Some(*id);
        }
    }
    None
}

/// The first live obligation that is one.
fn live_rival(tree: &Tree, step: &OpenPart) -> Option<u32>
    ensures { result ≡ first_number (is_rival (open_of step.now)) (obligations_of tree.now.nodes) }
{
    first_rival(tree, tree.live(), step)
}

/// How many of the numbers are.
fn rivals(tree: &Tree, numbers: &[u32], step: &OpenPart) -> usize
    ensures { result ≡ length (filter (rival_at tree.now.nodes (open_of step.now)) numbers.now) }
{
    let mut count = 0;
    for id in numbers {
        if is_rival(tree, *id, step) {
            count += 1;
        }
    }
    count
}

/// How many live obligations are.
fn live_rivals(tree: &Tree, step: &OpenPart) -> usize
    ensures { result ≡ length (filter (is_rival (open_of step.now)) (obligations_of tree.now.nodes)) }
{
    rivals(tree, tree.live(), step)
}

/// 8: fewer than four children of this parent and clause are live; the oldest is told.
pub(crate) fn open_rule_8_fewer_than_four_children(parts: &Lent, step: &OpenPart) -> Option<By>
    ensures { result ≡ rule_8 (standing_state parts.now) (open_of step.now) }
{
    if live_rivals(parts.tree, step) < 4 {
        return None;
    }
    match live_rival(parts.tree, step) {
        Some(id) => Some(By::Obligation(id)),
        None => None,
    }
}
