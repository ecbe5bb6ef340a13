//! The tableau of a node's literals.

ghost use Rattle.std.specs.Prelude.{◌≡◌, ◌+◌, ◌≤◌, ◌<◌, ◌^◌, length, IfOk, OnOk, IsErrOf, true};
ghost use Rattle.std.specs.List.{list_all};
ghost use Rattle.base.specs.Limits.{most_rows};
ghost use Rattle.int_rows.specs.Node.{in_rows, system, system_of};
ghost use Rattle.int_rows.specs.Ready.{bounded_fits};
ghost use Rattle.lia_node.specs.Known.{are_known, has_short_constant};
ghost use Rattle.lia_node.specs.Nodes.{node_table, table_of};
ghost use Rattle.lia_node.specs.machinery.Columns.{is_said_below};

use crate::columns::{all_sides, forms, set_all};
use crate::gathering::{Gathered, gather};
use base::Memory;
use int_rows::{Bounded, RowStop, Tableau};
use lin_atoms::Lit;
use std::alloc::Global;

/// The tableau of what is said of `variables` variables and quotients.
fn tableau_of(alloc: Global, bounds: Vec<Bounded>, variables: u32) -> Result<Tableau, Memory>
    requires fit { list_all bounded_fits bounds.items ≡ true }
    requires below { list_all (is_said_below variables) bounds.items ≡ true }
    requires few { length (in_rows bounds.items) ≤ most_rows }
    ensures { IfOk result (λ tableau. tableau ≡ table_of (system_of variables bounds.items)) }
{
    let sides = all_sides(alloc, bounds.as_slice(), variables)?;
    let forms = forms(alloc, bounds)?;
    match Tableau::new(alloc, forms.as_slice(), variables as usize) {
        Ok(mut tableau) => {
            set_all(&mut tableau, sides.as_slice());
            Ok(tableau)
        }
        Err(RowStop::Memory) => Err(Memory),
        Err(RowStop::TooMany) => unreachable!(),
    }
}

/// The tableau of a node's literals, each made ready by itself: first the form's variables, which
/// are below `end`, then the quotients of divisibilities, then a slack for each form of two or more
/// variables, both in order of the literals. A literal may speak of quotients of those before it, as
/// the bound of a branch does. A literal without a variable has no place in it.
pub fn node_tableau(alloc: Global, lits: &[Lit], end: u32) -> Result<Tableau, RowStop>
    requires known { are_known end lits.now ≡ true }
    requires short { list_all has_short_constant lits.now ≡ true }
    requires few { end < 2 ^ 31 }
    ensures made { IfOk result (λ tableau. tableau ≡ node_table end lits.now) }
    ensures small { IfOk result (λ tableau. tableau.variables ≤ end + most_rows) }
    ensures within { OnOk result (length (system end lits.now).equations ≤ most_rows) }
    ensures too_many { IsErrOf result RowStop.TooMany → most_rows < length (system end lits.now).equations }
{
    match gather(alloc, lits, end) {
        Ok(made) => {
            let Gathered { bounds, variables } = made;
            let tableau = tableau_of(alloc, bounds, variables)?;
            Ok(tableau)
        }
        Err(stop) => Err(stop),
    }
}
