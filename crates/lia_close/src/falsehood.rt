//! A literal without a variable that is false closes its node by itself.

ghost use Rattle.std.specs.Prelude.{◌≡◌, ◌∷◌, [], ◌≤◌, ◌<◌, ◌^◌, ℕ, length, IfOk, Some, slice_get, false, true};
ghost use Rattle.refutation_trees.specs.Refutation.{new_variable};
ghost use Rattle.refutation_trees.specs.Split.{is_no_falsehood};
ghost use Rattle.refutation_trees.specs.declared.tree.Refutation.TheViews.{Round, Quotient};
ghost use Rattle.refutation_trees.specs.declared.tree.Refutation.TheVariants.{Leaf};
ghost use Rattle.lia_node.specs.Known.{has_short_constant};
ghost use Rattle.lia_close.specs.Placed.{IsSoundAt, Place};
ghost use Rattle.lia_close.specs.machinery.Falsehood.{sign_of, summed_pair};

use crate::legal::is_legal;
use crate::numbers::{numbered, numbered_sum};
use base::{Boxed, Items, Memory};
use lin_atoms::{Lin, Lit};
use refutation_trees::Refutation;
use std::alloc::Global;

/// A leaf of one literal.
fn leaf_of_one(alloc: Global, number: u32, sign: i64) -> Result<Refutation, Memory>
    ensures { IfOk result (λ tree. tree ≡ Leaf ((number, sign) ∷ [])) }
{
    Ok(Refutation::Leaf {
        multipliers: Items::from_slice(alloc, &[(number, sign)])?,
    })
}

/// A literal is divided and rounded above a tree.
fn rounded(
    alloc: Global,
    number: u32,
    sign: i64,
    divisor: i64,
    tree: Refutation,
) -> Result<Refutation, Memory>
    ensures { IfOk result (λ made. made ≡ Round ((number, sign) ∷ []) divisor tree) }
{
    Ok(Refutation::Round {
        multipliers: Items::from_slice(alloc, &[(number, sign)])?,
        divisor,
        sub: Boxed::new(alloc, tree)?,
    })
}

/// What is known of the quotient, from the number `first` on, in two literals or as one with either
/// sign, is divided and rounded. Both results add up to a number above 0.
fn summed_pair(
    alloc: Global,
    first: usize,
    count: usize,
    divisor: i64,
) -> Result<Refutation, Memory>
    requires { (1 ≤ count) × (count ≤ 2) }
    ensures { IfOk result (λ tree. tree ≡ summed_pair first count divisor) }
{
    let low = numbered_sum(first, count)?;
    let high = numbered_sum(first, count + 1)?;
    let leaf = Refutation::Leaf {
        multipliers: Items::from_slice(alloc, &[(low, 1), (high, 1)])?,
    };
    let one = numbered(first)?;
    if count == 1 {
        let second = rounded(alloc, one, -1, divisor, leaf)?;
        rounded(alloc, one, 1, divisor, second)
    } else {
        let two = numbered_sum(first, 1)?;
        let second = rounded(alloc, two, 1, divisor, leaf)?;
        rounded(alloc, one, 1, divisor, second)
    }
}

/// The quotient of a literal gets its name above a tree.
fn named(alloc: Global, number: u32, tree: Refutation) -> Result<Refutation, Memory>
    ensures { IfOk result (λ made. made ≡ Quotient number tree) }
{
    Ok(Refutation::Quotient {
        lit: number,
        sub: Boxed::new(alloc, tree)?,
    })
}

/// 1 with the sign of the constant.
fn sign(lin: &Lin) -> i64
    ensures { result ≡ sign_of lin.now.constant }
{
    if lin.constant() > 0 { 1 } else { -1 }
}

/// A tree for a literal without a variable that is false, which stands at `number` where `known`
/// literals are known. `<=` and `=` are a leaf by themselves. A divisibility, or one denied, gets a
/// quotient, whose bounds are rounded and added up.
pub fn close_falsehood(
    alloc: Global,
    lit: &Lit,
    number: u32,
    known: usize,
) -> Result<Refutation, Memory>
    requires is_false { is_no_falsehood lit.now ≡ false }
    requires short { has_short_constant lit.now ≡ true }
    ensures { IfOk result (λ tree. (end : ℕ) (place : Place) → length place.known ≡ known → slice_get place.known number ≡ Some lit.now
        → new_variable end place.known < 2 ^ 32 → IsSoundAt end place tree) }
{
    is_legal(lit);
    match lit {
        Lit::Le(_lin) => {
            let tree = leaf_of_one(alloc, number, 1)?;
            Ok(tree)
        }
        Lit::Eq(lin) => {
            let tree = leaf_of_one(alloc, number, sign(lin))?;
            Ok(tree)
        }
        Lit::Div(n, _lin) => {
            let sum = summed_pair(alloc, known, 1, n.get())?;
            let tree = named(alloc, number, sum)?;
            Ok(tree)
        }
        Lit::NDiv(n, _lin) => {
            let pair = summed_pair(alloc, known, 2, n.get())?;
            let tree = named(alloc, number, pair)?;
            Ok(tree)
        }
    }
}
