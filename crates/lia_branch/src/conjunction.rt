//! A conjunction of literals is decided.

ghost use Rattle.std.specs.Prelude.{◌≡◌, ◌<◌, ◌≤◌, IfOk, true};
ghost use Rattle.std.specs.List.{list_all};
ghost use Rattle.base.specs.Limits.{most_variables};
ghost use Rattle.lin_atoms.specs.Truth.{lit_is_below};
ghost use Rattle.lia_node.specs.Known.{has_short_constant};
ghost use Rattle.lia_search.specs.Decides.{Decides};
ghost use Rattle.lia_branch.specs.Conjunction.{conjunction};

use base::{Copied, Items, Memory};
use lia_decide::decide_form;
use lia_search::Decision;
use lin_atoms::{Form, Lit};
use std::alloc::Global;

/// The conjunction of the literals, in order.
fn conjunction(alloc: Global, lits: &[Lit]) -> Result<Form, Memory>
    ensures { IfOk result (λ form. form ≡ conjunction lits.now) }
{
    let mut parts = Items::new(alloc);
    for lit in lits {
        parts.push(Form::Lit(lit.copy(alloc)?))?;
    }
    Ok(Form::And(parts))
}

/// Decides whether an integer point makes all literals true: a point of `vars` integers, a refutation
/// of their conjunction in this order, or evidence that it was given up, with at most `nodes` inner
/// nodes of a split tree. Each literal is rounded by itself, and no two are combined before the first
/// run of the simplex on all of them; where a number of that run has no room, the conjunction is
/// given up. What eight inner nodes don't decide is searched with going back: a refutation that
/// doesn't use its own branch's literal is that of the node above. The variables are below `vars`,
/// which is at most 2,048, `nodes` is at least 1, and the constant of each divisibility is below 2^63
/// in magnitude.
pub fn decide_all(alloc: Global, lits: &[Lit], vars: u32, nodes: u32) -> Result<Decision, Memory>
    requires below { list_all (lit_is_below vars) lits.now ≡ true }
    requires short { list_all has_short_constant lits.now ≡ true }
    requires few { vars ≤ most_variables }
    requires some { 0 < nodes }
    ensures { IfOk result (λ decision. Decides (conjunction lits.now) vars nodes decision) }
{
    let form = conjunction(alloc, lits)?;
    let decision = decide_form(alloc, form, lits.len(), vars, nodes)?;
    Ok(decision)
}
