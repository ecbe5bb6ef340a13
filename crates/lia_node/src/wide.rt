//! Evidence of giving up, from what the simplex answers.

ghost use Rattle.std.specs.Prelude.{◌≡◌, ◌<◌, ℕ, length, IfOk, true};
ghost use Rattle.base.specs.Limits.{most_rows};
ghost use Rattle.int_rows.specs.Node.{system};
ghost use Rattle.lia_node.specs.Nodes.{node_table};
ghost use Rattle.simplex_core.specs.Meaning.{Means};
ghost use Rattle.simplex_core.specs.declared.answer.Feasible.TheVariants.{Wide as IsWide};
ghost use Rattle.lia_node.specs.Tells.{IsEvidenceAt, is_of_node};

use base::{Copied, Items, Memory};
use lin_atoms::Lit;
use refutation_trees::Evidence;
use simplex_core::WideEvidence;
use std::alloc::Global;

/// Copies of the literals.
fn copies(alloc: Global, lits: &[Lit]) -> Result<Items<Lit>, Memory>
    ensures { IfOk result (λ copied. copied ≡ lits.now) }
{
    let mut copied = Items::new(alloc);
    for lit in lits {
        copied.push(lit.copy(alloc)?)?;
    }
    Ok(copied)
}

/// A number of the node's tableau without room, as evidence.
pub(crate) fn of_number(alloc: Global, lits: &[Lit], wide: WideEvidence) -> Result<Evidence, Memory>
    ensures is { IfOk result (λ evidence. (q : ℕ) → Means (node_table q lits.now) (IsWide wide) → IsEvidenceAt q lits.now evidence) }
    ensures of_node { IfOk result (λ evidence. is_of_node evidence ≡ true) }
{
    let lits = copies(alloc, lits)?;
    match wide {
        WideEvidence::Row { basis, entry } => Ok(Evidence::Row {
            lits,
            basis: Items::from_vec(basis),
            entry,
        }),
        WideEvidence::Coordinate {
            basis,
            outside,
            variable,
        } => Ok(Evidence::Coordinate {
            lits,
            basis: Items::from_vec(basis),
            outside: Items::from_vec(outside),
            variable,
        }),
    }
}

/// Too many rows, as evidence.
pub(crate) fn of_rows(alloc: Global, lits: &[Lit]) -> Result<Evidence, Memory>
    ensures is { IfOk result (λ evidence. (q : ℕ) → most_rows < length (system q lits.now).equations → IsEvidenceAt q lits.now evidence) }
    ensures of_node { IfOk result (λ evidence. is_of_node evidence ≡ true) }
{
    let lits = copies(alloc, lits)?;
    Ok(Evidence::Rows { lits })
}
