//! A node is closed by a tree that was only guessed: it counts after a check.

ghost use Rattle.std.specs.Prelude.{◌≡◌, ◌<◌, ◌^◌, ℕ, length, IfOk, IfSome, true};
ghost use Rattle.std.specs.List.{list_all};
ghost use Rattle.lin_atoms.specs.declared.lit.Lit.{Lit};
ghost use Rattle.lia_node.specs.Known.{are_known, has_short_constant};
ghost use Rattle.lia_close.specs.Placed.{IsSoundAt, Place};
ghost use Rattle.lia_close.specs.Said.{AreReasons};
ghost use Rattle.lia_divisors.specs.machinery.There.{AreThere};

use crate::filled::{conjunction, filled};
use crate::said::all_said;
use crate::written::tree_of;
use base::Memory;
use farkas_proof::{CheckStop, check};
use lia_guesses::{Move, Said, guessed};
use lin_atoms::Lit;
use refutation_trees::Refutation;
use std::alloc::Global;

/// The tree of the moves, where it is a proof by what the node knows: its own literals and what is
/// known of their quotients, by their numbers among all that are known.
fn checked(
    alloc: Global,
    said: &[Said],
    known: usize,
    moves: Vec<Move>,
) -> Result<Option<Refutation>, Memory>
    ensures { IfOk result (λ found. IfSome found (λ tree. (end : ℕ) (place : Place) → length place.known ≡ known → AreThere place.known said.now → IsSoundAt end place tree)) }
{
    let filled = filled(alloc, said, known)?;
    let form = conjunction(alloc, filled.as_slice())?;
    let made = tree_of(alloc, moves)?;
    let Some(tree) = made else {
        return Ok(None);
    };
    match check(alloc, &form, &tree) {
        Ok(_) => Ok(Some(tree)),
        Err(CheckStop::Memory) => Err(Memory),
        Err(CheckStop::NoProof { .. }) => Ok(None),
        Err(CheckStop::SumWide { .. }) => Ok(None),
    }
}

/// A tree for a node whose vertex has a fraction, where one is found that is a proof. The node is split
/// into at most `parts` parts by what columns may be, and a part is closed where its bounds contradict
/// or where a common divisor of a row leaves no integers: a number divides the entries of all columns
/// but some that lie between two bounds, and no multiple of it lies between what these add up to at
/// least and at most. With one part the node is closed by a common divisor alone, and with none it
/// isn't looked at. The tree stands where `known` literals are known; `reasons` has for each literal of
/// the node the number of the first of those that give its bounds, as for `close`.
pub fn close_by_parts(
    alloc: Global,
    lits: &[Lit],
    reasons: &[u32],
    known: usize,
    end: u32,
    parts: u32,
) -> Result<Option<Refutation>, Memory>
    requires known { are_known end lits.now ≡ true }
    requires short { list_all has_short_constant lits.now ≡ true }
    requires few { end < 2 ^ 31 }
    requires each { length reasons.now ≡ length lits.now }
    ensures { IfOk result (λ found. IfSome found (λ tree. (place : Place) → length place.known ≡ known → AreReasons place.known end lits.now reasons.now → IsSoundAt end place tree)) }
{
    if parts == 0 {
        return Ok(None);
    }
    let said = all_said(alloc, lits, reasons, end)?;
    match guessed(alloc, lits, end, said.as_slice(), known, parts)? {
        Some(moves) => {
            let found = checked(alloc, said.as_slice(), known, moves)?;
            Ok(found)
        }
        None => Ok(None),
    }
}
