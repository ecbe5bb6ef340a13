//! A formula whose last conjunct is a disjunction, as the formula of a head's definition mostly is, is decided
//! part by part.

ghost use Rattle.std.specs.Prelude.{◌≡◌, ◌<◌, ◌≤◌, ◌∷◌, [], ℕ, List, true, IfOk, IfSome};
ghost use Rattle.std.specs.List.{list_all};
ghost use Rattle.base.specs.Limits.{most_variables};
ghost use Rattle.lin_atoms.specs.Truth.{is_below};
ghost use Rattle.lin_atoms.specs.declared.form.Form.{Form as AForm};
ghost use Rattle.lin_atoms.specs.declared.form.Form.TheViews.{And};
ghost use Rattle.lia_search.specs.Decides.{has_short_multiples};
ghost use Rattle.chc_checker.specs.machinery.Judging.{Settles};
ghost use Rattle.chc_checker.specs.machinery.Parts.{AreAmong, AreParts, HasNoneWith};

use crate::deciding::{is_ready, settle_whole, told};
use base::Memory;
use lia_cases::{Decision, are_below, decide, have_short_multiples};
use lia_search::has_short_multiples;
use lin_atoms::Form;
use std::alloc::Global;

/// So many literals may be copied for the parts of one disjunction.
const MOST_COPIED: usize = 65536;

/// So many inner nodes are allowed for the whole, and for a part with the first conjunct alone, before a part is
/// decided with all conjuncts.
const FEW_NODES: u32 = 64;

/// How many literals stand in the formula where it is a conjunction.
#[cycle(literals)]
fn literals(form: &Form) -> usize {
    match form {
        Form::Lit(_) => 1,
        Form::And(parts) => all_literals(parts.as_slice()),
        _ => 0,
    }
}

#[cycle(literals)]
fn all_literals(parts: &[Form]) -> usize {
    let mut count: usize = 0;
    for part in parts {
        count = count.saturating_add(literals(part));
    }
    count
}

/// The conjuncts before the last one, and the parts of that one, if it is a disjunction.
fn last_parts(form: &Form) -> Option<(&[Form], &[Form])>
    ensures { IfSome result (λ r. AreParts form.now r.0.now r.1.now) }
{
    let Form::And(all) = form else {
        return None;
    };
    let (last, others) = all.as_slice().split_last()?;
    match last {
        Form::Or(parts) => Some((others, parts.as_slice())),
        _ => None,
    }
}

/// Whether formulas can be decided over variables below `vars`.
fn are_ready(forms: &[Form], vars: u32) -> bool
    ensures below { result ≡ true → list_all (is_below vars) forms.now ≡ true }
    ensures short { result ≡ true → list_all has_short_multiples forms.now ≡ true }
{
    if !are_below(forms, vars) {
        return false;
    }
    have_short_multiples(forms)
}

/// What is decided of a part with others; none where they can't be decided over variables below `vars`.
fn asked(
    alloc: Global,
    part: &Form,
    others: &[Form],
    vars: u32,
    nodes: u32,
) -> Result<Option<Decision>, Memory>
    requires few { vars ≤ most_variables }
    requires some { 0 < nodes }
    ensures { IfOk result (λ found. IfSome found (Settles (And (part.now ∷ others.now)) vars nodes)) }
{
    if !is_ready(part, vars) {
        return Ok(None);
    }
    if !are_ready(others, vars) {
        return Ok(None);
    }
    let decision = decide(alloc, part, others, vars, nodes)?;
    Ok(Some(told(decision)))
}

/// The same decision, if it is that the formula has no point.
fn refuted(decision: Decision) -> Option<Decision>
    ensures { (part : AForm) (others : List AForm) (vars nodes : ℕ) → Settles (And (part ∷ others)) vars nodes decision → IfSome result (HasNoneWith part others) }
{
    match decision {
        Decision::Refuted(refuted) => Some(Decision::Refuted(refuted)),
        _ => None,
    }
}

/// The first of them, if there is one.
fn first_of(forms: &[Form]) -> &[Form]
    ensures { AreAmong result.now forms.now }
{
    &forms[..forms.len().min(1)]
}

/// A refutation of a part with the first of the others alone.
fn refuted_by_first(
    alloc: Global,
    part: &Form,
    others: &[Form],
    vars: u32,
) -> Result<Option<Decision>, Memory>
    requires few { vars ≤ most_variables }
    ensures { IfOk result (λ found. IfSome found (HasNoneWith part.now others.now)) }
{
    let some = first_of(others);
    let Some(decision) = asked(alloc, part, some, vars, FEW_NODES)? else {
        return Ok(None);
    };
    Ok(refuted(decision))
}

/// What is decided of a part with others: by the first of them alone, or else by all.
fn part_asked(
    alloc: Global,
    part: &Form,
    others: &[Form],
    vars: u32,
    nodes: u32,
) -> Result<Option<Decision>, Memory>
    requires few { vars ≤ most_variables }
    requires some { 0 < nodes }
    ensures { IfOk result (λ found. IfSome found (Settles (And (part.now ∷ others.now)) vars nodes)) }
{
    let found = refuted_by_first(alloc, part, others, vars)?;
    match found {
        Some(decision) => Ok(Some(decision)),
        None => asked(alloc, part, others, vars, nodes),
    }
}

/// What is decided of the formula by its parts: a point of the first that has one, or that none has one.
/// None where a part before that is given up, or there is no part.
fn by_parts(
    alloc: Global,
    form: &Form,
    others: &[Form],
    parts: &[Form],
    vars: u32,
    nodes: u32,
) -> Result<Option<Decision>, Memory>
    requires parts { AreParts form.now others.now parts.now }
    requires few { vars ≤ most_variables }
    requires some { 0 < nodes }
    ensures { IfOk result (λ found. IfSome found (Settles (And (form.now ∷ [])) vars nodes)) }
{
    let mut last = None;
    for part in parts {
        let found = part_asked(alloc, part, others, vars, nodes)?;
        match found {
            Some(Decision::Refuted(refuted)) => last = Some(Decision::Refuted(refuted)),
            Some(Decision::Model(point)) => return Ok(Some(Decision::Model(point))),
            _ => return Ok(None),
        }
    }
    Ok(last)
}

/// Whether a search of all parts at once would copy many literals.
fn is_large(others: &[Form], parts: &[Form]) -> bool {
    let each = all_literals(others).saturating_add(1);
    each.saturating_mul(parts.len()) > MOST_COPIED
}

/// The same decision, if it isn't that the formula is given up.
fn sure(decision: Decision) -> Option<Decision>
    ensures { (form : AForm) (vars few nodes : ℕ) → Settles form vars few decision → IfSome result (Settles form vars nodes) }
{
    match decision {
        Decision::Model(point) => Some(Decision::Model(point)),
        Decision::Refuted(refuted) => Some(Decision::Refuted(refuted)),
        Decision::GaveUp(_) => None,
    }
}

/// What is decided of the formula as a whole with few inner nodes.
fn asked_soon(alloc: Global, form: &Form, vars: u32, nodes: u32) -> Result<Option<Decision>, Memory>
    requires below { is_below vars form.now ≡ true }
    requires short { has_short_multiples form.now ≡ true }
    requires few { vars ≤ most_variables }
    requires some { 0 < nodes }
    ensures { IfOk result (λ found. IfSome found (Settles (And (form.now ∷ [])) vars nodes)) }
{
    let copy = form.copy(alloc)?;
    let decision = settle_whole(alloc, copy, vars, nodes.min(FEW_NODES))?;
    Ok(sure(decision))
}

/// What is decided of the formula as a whole with few inner nodes, where that is no large search, or else by
/// its parts.
fn asked_by_parts(
    alloc: Global,
    form: &Form,
    vars: u32,
    nodes: u32,
) -> Result<Option<Decision>, Memory>
    requires below { is_below vars form.now ≡ true }
    requires short { has_short_multiples form.now ≡ true }
    requires few { vars ≤ most_variables }
    requires some { 0 < nodes }
    ensures { IfOk result (λ found. IfSome found (Settles (And (form.now ∷ [])) vars nodes)) }
{
    let Some((others, parts)) = last_parts(form) else {
        return Ok(None);
    };
    if !is_large(others, parts) {
        if let Some(decision) = asked_soon(alloc, form, vars, nodes)? {
            return Ok(Some(decision));
        }
    }
    by_parts(alloc, form, others, parts, vars, nodes)
}

/// Decides a formula. Where its last conjunct is a disjunction, each part of that is decided by itself, as
/// no part needs what refutes another one: at once where a search of the whole would copy many literals, and
/// else where few inner nodes don't decide the whole. Where a part is given up, and for other formulas, the
/// whole is decided. Each search has `nodes` inner nodes of a split tree.
pub(crate) fn settle(alloc: Global, form: Form, vars: u32, nodes: u32) -> Result<Decision, Memory>
    requires below { is_below vars form ≡ true }
    requires short { has_short_multiples form ≡ true }
    requires few { vars ≤ most_variables }
    requires some { 0 < nodes }
    ensures { IfOk result (Settles (And (form ∷ [])) vars nodes) }
{
    match asked_by_parts(alloc, &form, vars, nodes)? {
        Some(decision) => Ok(decision),
        None => settle_whole(alloc, form, vars, nodes),
    }
}
