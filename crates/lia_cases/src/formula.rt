//! A formula with lemmas is decided.

ghost use Rattle.std.specs.Prelude.{◌≡◌, ◌∷◌, ◌<◌, ◌≤◌, IfOk, true};
ghost use Rattle.std.specs.List.{list_all};
ghost use Rattle.base.specs.Limits.{most_variables};
ghost use Rattle.lin_atoms.specs.Truth.{is_below};
ghost use Rattle.lin_atoms.specs.declared.form.Form.TheViews.{And};
ghost use Rattle.lia_search.specs.Decides.{Decides, has_short_multiples};

use crate::counting::first_literals;
use base::{Copied, Items, Memory};
use lia_decide::decide_form;
use lia_search::Decision;
use lin_atoms::Form;
use std::alloc::Global;

/// The formula and the lemmas, in order.
fn conjunction(alloc: Global, form: Form, lemmas: Items<Form>) -> Result<Form, Memory>
    ensures { IfOk result (λ whole. whole ≡ And (form ∷ lemmas)) }
{
    let mut parts = Items::new(alloc);
    parts.push(form)?;
    parts.append(lemmas)?;
    Ok(Form::And(parts))
}

/// What `decide` answers of a formula and lemmas that aren't needed any more. They aren't copied.
pub fn decide_owned(
    alloc: Global,
    form: Form,
    lemmas: Items<Form>,
    vars: u32,
    nodes: u32,
) -> Result<Decision, Memory>
    requires below { is_below vars form ≡ true }
    requires lemmas_below { list_all (is_below vars) lemmas ≡ true }
    requires short { has_short_multiples form ≡ true }
    requires lemmas_short { list_all has_short_multiples lemmas ≡ true }
    requires few { vars ≤ most_variables }
    requires some { 0 < nodes }
    ensures { IfOk result (λ decision. Decides (And (form ∷ lemmas)) vars nodes decision) }
{
    let taken = first_literals(&form, lemmas.as_slice());
    let whole = conjunction(alloc, form, lemmas)?;
    let decision = decide_form(alloc, whole, taken, vars, nodes)?;
    Ok(decision)
}

/// Copies of the lemmas.
fn copies(alloc: Global, lemmas: &[Form]) -> Result<Items<Form>, Memory>
    ensures { IfOk result (λ copied. copied ≡ lemmas.now) }
{
    let mut copied = Items::new(alloc);
    for lemma in lemmas {
        copied.push(lemma.copy(alloc)?)?;
    }
    Ok(copied)
}

/// Decides whether an integer point makes the formula and all lemmas true: a point of `vars` integers, a
/// refutation of the conjunction of the formula and of each lemma in order, or evidence that this conjunction
/// was given up, with at most `nodes` inner nodes of a split tree. The formula's literals and those of the
/// first lemmas that are one literal join at once; other lemmas' literals join where a point breaks them, and
/// a disjunction is split where a point breaks it. The variables are below `vars`, which is at most 2,048,
/// `nodes` is at least 1, and the constant of each divisibility is below 2^63 in magnitude.
pub fn decide(
    alloc: Global,
    form: &Form,
    lemmas: &[Form],
    vars: u32,
    nodes: u32,
) -> Result<Decision, Memory>
    requires below { is_below vars form.now ≡ true }
    requires lemmas_below { list_all (is_below vars) lemmas.now ≡ true }
    requires short { has_short_multiples form.now ≡ true }
    requires lemmas_short { list_all has_short_multiples lemmas.now ≡ true }
    requires few { vars ≤ most_variables }
    requires some { 0 < nodes }
    ensures { IfOk result (λ decision. Decides (And (form.now ∷ lemmas.now)) vars nodes decision) }
{
    let own = form.copy(alloc)?;
    let lemmas = copies(alloc, lemmas)?;
    let decision = decide_owned(alloc, own, lemmas, vars, nodes)?;
    Ok(decision)
}
