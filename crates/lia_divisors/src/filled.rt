//! A list in place of all that is known where a tree stands, of which a node knows a part.

ghost use Rattle.std.specs.Prelude.{◌≡◌, List, length, slice_get, IfOk, OnOk, Some, true};
ghost use Rattle.std.specs.List.{list_all};
ghost use Rattle.refutation_trees.specs.Flatten.{literals};
ghost use Rattle.lin_atoms.specs.declared.lit.Lit.{Lit};
ghost use Rattle.lia_divisors.specs.machinery.There.{AreThere, StandsFor, is_blank};

use base::{Copied, Items, Memory};
use lia_guesses::Said;
use lin_atoms::{Divisor, Form, Lin, Lit};
use std::alloc::Global;

/// A literal that nothing is a multiple of.
fn blank(alloc: Global) -> Lit
    ensures { is_blank result ≡ true }
{
    match Divisor::new(1) {
        Some(one) => Lit::Div(one, Lin::of_constant(alloc, 0)),
        None => unreachable!(),
    }
}

/// `count` blank literals.
fn blanks(alloc: Global, count: usize) -> Result<Vec<Lit>, Memory>
    ensures long { IfOk result (λ made. length made.items ≡ count) }
    ensures blank { IfOk result (λ made. list_all is_blank made.items ≡ true) }
{
    let mut made = Vec::new(alloc);
    'blank: while made.len() < count {
        made.push(blank(alloc))?;
    }
    Ok(made)
}

/// A literal is put in its place.
fn put(alloc: Global, made: &mut Vec<Lit>, one: &Said) -> Result<(), Memory>
    ensures long { OnOk result (length made.new.items ≡ length made.old.items) }
    ensures stands { OnOk result ((known : List Lit) → slice_get known one.now.number ≡ Some one.now.lit → StandsFor made.old.items known → StandsFor made.new.items known) }
{
    let at = one.number as usize;
    if at >= made.len() {
        return Ok(());
    }
    made[at] = one.lit.copy(alloc)?;
    Ok(())
}

/// What the node knows, each literal in its place, and nothing of use in the other places.
pub(crate) fn filled(alloc: Global, said: &[Said], known: usize) -> Result<Vec<Lit>, Memory>
    ensures long { IfOk result (λ made. length made.items ≡ known) }
    ensures stands { IfOk result (λ made. (all : List Lit) → AreThere all said.now → StandsFor made.items all) }
{
    let mut made = blanks(alloc, known)?;
    for one in said {
        put(alloc, &mut made, one)?;
    }
    Ok(made)
}

/// The conjunction of the literals, in order.
pub(crate) fn conjunction(alloc: Global, lits: &[Lit]) -> Result<Form, Memory>
    ensures { IfOk result (λ form. literals form ≡ lits.now) }
{
    let mut parts = Items::new(alloc);
    for lit in lits {
        parts.push(Form::Lit(lit.copy(alloc)?))?;
    }
    Ok(Form::And(parts))
}
