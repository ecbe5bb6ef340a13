//! A node's literals are examined.

ghost use Rattle.std.specs.Prelude.{◌≡◌, ◌+◌, ◌<◌, ◌≤◌, ◌^◌, IfOk, true};
ghost use Rattle.std.specs.List.{list_all};
ghost use Rattle.base.specs.Limits.{most_rows};
ghost use Rattle.int_rows.specs.Node.{end_of_quotients};
ghost use Rattle.refutation_trees.specs.Split.{is_no_falsehood};
ghost use Rattle.lia_node.specs.Known.{are_known, has_short_constant};
ghost use Rattle.lia_node.specs.Nodes.{node_table};
ghost use Rattle.lia_node.specs.Tells.{Tells, has_tableau};

use crate::constants::first_falsehood;
use crate::examined::Examined;
use crate::legal::are_legal;
use crate::tableau::node_tableau;
use crate::vertex::of_values;
use crate::wide::{of_number, of_rows};
use base::Memory;
use int_rows::{RowStop, Tableau};
use lin_atoms::Lit;
use simplex_core::{Feasible, feasible};
use std::alloc::Global;

/// The run of the simplex from the node's tableau, and what its end tells.
fn solved(alloc: Global, lits: &[Lit], end: u32, tableau: &mut Tableau) -> Result<Examined, Memory>
    requires known { are_known end lits.now ≡ true }
    requires constants { list_all is_no_falsehood lits.now ≡ true }
    requires is { tableau.old ≡ node_table end lits.now }
    requires few { tableau.old.variables < 2 ^ 32 }
    ensures { IfOk result (λ answer. Tells end lits.now answer) }
{
    are_legal(lits);
    let variables = tableau.columns();
    match feasible(alloc, tableau) {
        Ok(Feasible::Vertex(ratios)) => {
            let told = of_values(alloc, &ratios[..variables])?;
            Ok(told)
        }
        Ok(Feasible::Conflict(multipliers)) => Ok(Examined::Conflict(multipliers)),
        Ok(Feasible::Wide(wide)) => {
            let evidence = of_number(alloc, lits, wide)?;
            Ok(Examined::Wide(evidence))
        }
        Err(stop) => Err(stop),
    }
}

/// What the literals of a node tell: one that is false by itself, a conflict, a model, a vertex with
/// a fraction, or evidence of giving up. The literals stand in the order in which they joined the
/// node or one above it. Those of the form speak of variables below `end`; quotients are numbered on
/// from there, and a branch may be on a quotient of a literal before it. The tableau is made anew.
/// Where there is one, there are at most as many quotients as rows.
pub fn examine(alloc: Global, lits: &[Lit], end: u32) -> Result<Examined, Memory>
    requires known { are_known end lits.now ≡ true }
    requires short { list_all has_short_constant lits.now ≡ true }
    requires few { end < 2 ^ 31 }
    ensures tells { IfOk result (λ answer. Tells end lits.now answer) }
    ensures small { IfOk result (λ answer. has_tableau answer ≡ true → end_of_quotients end lits.now ≤ end + most_rows) }
{
    if let Some(at) = first_falsehood(lits) {
        return Ok(Examined::False(at));
    }
    match node_tableau(alloc, lits, end) {
        Ok(mut tableau) => {
            let told = solved(alloc, lits, end, &mut tableau)?;
            Ok(told)
        }
        Err(RowStop::Memory) => Err(Memory),
        Err(RowStop::TooMany) => {
            let evidence = of_rows(alloc, lits)?;
            Ok(Examined::Wide(evidence))
        }
    }
}
