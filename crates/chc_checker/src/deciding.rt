//! A formula is decided without its links first, and by itself where that is given up.

ghost use Rattle.std.specs.Prelude.{◌≡◌, ◌<◌, ◌≤◌, ◌∷◌, ◌&&◌, [], ℕ, true, false, IfOk, IfSome};
ghost use Rattle.base.specs.Limits.{most_variables};
ghost use Rattle.lin_atoms.specs.Truth.{is_below};
ghost use Rattle.lin_atoms.specs.declared.form.Form.{Form as AForm};
ghost use Rattle.lin_atoms.specs.declared.form.Form.TheViews.{And};
ghost use Rattle.lia_search.specs.Decides.{Decides, has_short_multiples};
ghost use Rattle.chc_checker.specs.machinery.Judging.{Settles};
ghost use Rattle.chc_checker.specs.machinery.Links.{SayTheSame};

use crate::linking::without_links;
use base::{Items, Memory};
use lia_cases::{Decision, decide_owned};
use lia_search::has_short_multiples;
use lin_atoms::Form;
use std::alloc::Global;

/// The decision as it is, which settles the formula, too: one that is kept as refuted has no point.
pub(crate) fn told(decision: Decision) -> Decision
    ensures { (form : AForm) (vars nodes : ℕ) → Decides form vars nodes decision → Settles form vars nodes result }
{
    match decision {
        Decision::Model(point) => Decision::Model(point),
        Decision::Refuted(refuted) => {
            refuted.refuted_law();
            Decision::Refuted(refuted)
        }
        Decision::GaveUp(gave_up) => Decision::GaveUp(gave_up),
    }
}

/// What is decided of a formula by itself.
#[tactic(auto, using(crate::proofs::DecidingLemmas::asked_alone))]
fn asked(alloc: Global, form: Form, vars: u32, nodes: u32) -> Result<Decision, Memory>
    requires below { is_below vars form ≡ true }
    requires short { has_short_multiples form ≡ true }
    requires few { vars ≤ most_variables }
    requires some { 0 < nodes }
    ensures { IfOk result (Settles (And (form ∷ [])) vars nodes) }
{
    let none = Items::new(alloc);
    let decision = decide_owned(alloc, form, none, vars, nodes)?;
    Ok(told(decision))
}

/// What is decided of a formula, where one that is true at the same points isn't given up.
fn settled(decision: Decision) -> Option<Decision>
    ensures { (form made : AForm) (vars nodes : ℕ) → SayTheSame form made → Settles (And (made ∷ [])) vars nodes decision → IfSome result (Settles (And (form ∷ [])) vars nodes) }
{
    match decision {
        Decision::Model(point) => Some(Decision::Model(point)),
        Decision::Refuted(refuted) => Some(Decision::Refuted(refuted)),
        Decision::GaveUp(_) => None,
    }
}

/// Whether a formula can be decided over variables below `vars`.
pub(crate) fn is_ready(form: &Form, vars: u32) -> bool
    ensures below { result ≡ true → is_below vars form.now ≡ true }
    ensures short { result ≡ true → has_short_multiples form.now ≡ true }
    ensures otherwise { result ≡ false → (is_below vars form.now && has_short_multiples form.now) ≡ false }
{
    if !form.is_below(vars as usize) {
        return false;
    }
    has_short_multiples(form)
}

/// What is decided of a formula without its links; none where it has none, or that was given up.
fn asked_without_links(
    alloc: Global,
    form: &Form,
    vars: u32,
    nodes: u32,
) -> Result<Option<Decision>, Memory>
    requires few { vars ≤ most_variables }
    requires some { 0 < nodes }
    ensures { IfOk result (λ found. IfSome found (Settles (And (form.now ∷ [])) vars nodes)) }
{
    let Some(made) = without_links(alloc, form, vars)? else {
        return Ok(None);
    };
    if !is_ready(&made, vars) {
        return Ok(None);
    }
    let decision = asked(alloc, made, vars, nodes)?;
    Ok(settled(decision))
}

/// Decides a formula: first with literals in place of its links, so that there are no cases for them.
/// Where that is given up, or it has no links, the formula is decided as it is, so that evidence is of
/// the formula itself. Each has `nodes` inner nodes of a split tree.
pub(crate) fn settle_whole(
    alloc: Global,
    form: Form,
    vars: u32,
    nodes: u32,
) -> Result<Decision, Memory>
    requires below { is_below vars form ≡ true }
    requires short { has_short_multiples form ≡ true }
    requires few { vars ≤ most_variables }
    requires some { 0 < nodes }
    ensures { IfOk result (Settles (And (form ∷ [])) vars nodes) }
{
    match asked_without_links(alloc, &form, vars, nodes)? {
        Some(decision) => Ok(decision),
        None => asked(alloc, form, vars, nodes),
    }
}
