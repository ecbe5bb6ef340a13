//! The tree of a chain of roundings, before it is checked.

ghost use Rattle.std.specs.Prelude.{◌≡◌, IfOk};
ghost use Rattle.refutation_trees.specs.declared.tree.Refutation.TheVariants.{Leaf as IsLeaf};
ghost use Rattle.refutation_trees.specs.declared.tree.Refutation.TheViews.{Round};
ghost use Rattle.lia_divisors.specs.machinery.Chain.{chained};

use base::{Boxed, Items, Memory};
use lia_guesses::{Chain, Rounding};
use refutation_trees::Refutation;
use std::alloc::Global;

/// The tree.
pub(crate) fn chain_tree(alloc: Global, chain: Chain) -> Result<Refutation, Memory>
    ensures { IfOk result (λ tree. tree ≡ chained chain.roundings.items (IsLeaf chain.multipliers.items)) }
{
    let Chain {
        mut roundings,
        multipliers,
        ..
    } = chain;
    let mut tree = Refutation::Leaf {
        multipliers: Items::from_vec(multipliers),
    };
    'under: while let Some(rounding) = roundings.pop() {
        tree = under(alloc, rounding, tree)?;
    }
    Ok(tree)
}

/// The rounding stands above the tree.
fn under(alloc: Global, rounding: Rounding, tree: Refutation) -> Result<Refutation, Memory>
    ensures { IfOk result (λ made. made ≡ Round rounding.multipliers.items rounding.divisor tree) }
{
    let Rounding {
        multipliers,
        divisor,
    } = rounding;
    Ok(Refutation::Round {
        multipliers: Items::from_vec(multipliers),
        divisor,
        sub: Boxed::new(alloc, tree)?,
    })
}
