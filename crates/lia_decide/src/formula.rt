//! A formula is decided in stages.

ghost use Rattle.std.specs.Prelude.{◌≡◌, ◌<◌, ◌≤◌, IfOk, true};
ghost use Rattle.base.specs.Limits.{most_variables};
ghost use Rattle.lin_atoms.specs.Truth.{is_below};
ghost use Rattle.lia_search.specs.Decides.{Decides, has_short_multiples};

use crate::deciding::decide_back;
use base::{Copied, Memory};
use lia_search::{Decision, search};
use lin_atoms::Form;
use std::alloc::Global;

/// With so few inner nodes most formulas are decided. What isn't is searched with going back first.
const FEW_NODES: u32 = 8;

/// A formula that was given up with fewer inner nodes is decided: by a search that goes back, or else with the inner
/// nodes of a split tree that are allowed.
fn again(alloc: Global, form: Form, taken: usize, vars: u32, nodes: u32) -> Result<Decision, Memory>
    requires below { is_below vars form ≡ true }
    requires short { has_short_multiples form ≡ true }
    requires few { vars ≤ most_variables }
    requires some { 0 < nodes }
    ensures { IfOk result (λ decision. Decides form vars nodes decision) }
{
    match decide_back(alloc, &form, taken, vars, nodes)? {
        Some(decision) => Ok(decision),
        None => {
            let decision = search(alloc, form, taken, vars, nodes)?;
            Ok(decision)
        }
    }
}

/// Decides the form, with the answers of `search`, in three stages: a search with at most eight inner nodes, one that
/// goes back, so that a contradiction that doesn't use its own branch or case is that of the node above, and the
/// documented search with all inner nodes that are allowed. The first `taken` literals of the flattened form join at
/// once. The variables are below `vars`, which is at most 2,048, `nodes` is at least 1, and the constant of each
/// divisibility is below 2^63 in magnitude.
pub fn decide_form(
    alloc: Global,
    form: Form,
    taken: usize,
    vars: u32,
    nodes: u32,
) -> Result<Decision, Memory>
    requires below { is_below vars form ≡ true }
    requires short { has_short_multiples form ≡ true }
    requires few { vars ≤ most_variables }
    requires some { 0 < nodes }
    ensures { IfOk result (λ decision. Decides form vars nodes decision) }
{
    if nodes <= FEW_NODES {
        let decision = search(alloc, form, taken, vars, nodes)?;
        return Ok(decision);
    }
    match search(alloc, form, taken, vars, FEW_NODES)? {
        Decision::Model(point) => Ok(Decision::Model(point)),
        Decision::Refuted(refuted) => Ok(Decision::Refuted(refuted)),
        Decision::GaveUp(gave_up) => {
            let form = gave_up.form().copy(alloc)?;
            let decision = again(alloc, form, taken, vars, nodes)?;
            Ok(decision)
        }
    }
}
