//! A search from its start to what is decided.

ghost use Rattle.std.specs.Prelude.{◌≡◌, ◌<◌, ◌≤◌, IfOk, true};
ghost use Rattle.base.specs.Limits.{most_variables};
ghost use Rattle.lin_atoms.specs.Truth.{is_below};
ghost use Rattle.lia_search.specs.Decides.{Decides, has_short_multiples};

use crate::decision::Decision;
use crate::finishing::decided;
use crate::running::run;
use base::Memory;
use lia_stack::{begun, falsehood};
use lin_atoms::Form;
use std::alloc::Global;

/// Decides whether an integer point makes the form true, with at most `nodes` inner nodes of a split
/// tree. The first `taken` literals of the flattened form join at once; the others are left out until a
/// point breaks them, and a disjunction is split where a point breaks it. Each literal is rounded by
/// itself. Where the tableau of the literals that join at once leaves its widths, the form is given up
/// at once; where a later one does, the search goes on, for there may be a point elsewhere.
pub fn search(
    alloc: Global,
    form: Form,
    taken: usize,
    vars: u32,
    nodes: u32,
) -> Result<Decision, Memory>
    requires below { is_below vars form ≡ true }
    requires short { has_short_multiples form ≡ true }
    requires few { vars ≤ most_variables }
    requires some { 0 < nodes }
    ensures { IfOk result (λ decision. Decides form vars nodes decision) }
{
    let falsehood = falsehood(alloc);
    let search = begun(alloc, &form, &falsehood, taken, nodes)?;
    let end = run(alloc, search)?;
    let decision = decided(alloc, form, end, vars, nodes)?;
    Ok(decision)
}
