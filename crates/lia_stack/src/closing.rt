//! The tree that closes a node by one of its literals.

ghost use Rattle.std.specs.Prelude.{◌≡◌, ◌<◌, ◌^◌, ℕ, IfOk, Some, false, length, slice_get, slice_index_or, true};
ghost use Rattle.refutation_trees.specs.Refutation.{new_variable};
ghost use Rattle.refutation_trees.specs.Split.{is_no_falsehood};
ghost use Rattle.lia_node.specs.Known.{has_short_constant};
ghost use Rattle.lia_close.specs.Placed.{IsSoundAt, Place};
ghost use Rattle.lia_stack.specs.machinery.Opened.{no_lit};

use crate::waiting::Open;
use base::Memory;
use lia_close::close_falsehood;
use refutation_trees::Refutation;
use std::alloc::Global;

/// A tree for the literal of the node at that place, which is false by itself.
pub(crate) fn by_literal(alloc: Global, waiting: &Open, at: usize) -> Result<Refutation, Memory>
    requires there { at < length waiting.now.lits }
    requires each { length waiting.now.numbers ≡ length waiting.now.lits }
    requires is_false { is_no_falsehood (slice_index_or waiting.now.lits at no_lit) ≡ false }
    requires short { has_short_constant (slice_index_or waiting.now.lits at no_lit) ≡ true }
    ensures { IfOk result (λ tree. (end : ℕ) (place : Place) → length place.known ≡ waiting.now.known
        → slice_get place.known (slice_index_or waiting.now.numbers at 0) ≡ Some (slice_index_or waiting.now.lits at no_lit)
        → new_variable end place.known < 2 ^ 32 → IsSoundAt end place tree) }
{
    let number = waiting.numbers.as_slice()[at];
    let tree = close_falsehood(alloc, &waiting.lits.as_slice()[at], number, waiting.known)?;
    Ok(tree)
}
