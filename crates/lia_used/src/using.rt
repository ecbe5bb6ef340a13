//! A formula with lemmas is decided, and a refutation is of the lemmas that it uses.

ghost use Rattle.std.specs.Prelude.{◌≡◌, ◌∷◌, ◌<◌, ◌≤◌, ℕ, IfOk, IfSome, true};
ghost use Rattle.std.specs.List.{list_all};
ghost use Rattle.base.specs.Limits.{most_variables};
ghost use Rattle.lin_atoms.specs.Truth.{is_below};
ghost use Rattle.lin_atoms.specs.declared.form.Form.TheViews.{And};
ghost use Rattle.farkas_proof.specs.Kept.{form_of};
ghost use Rattle.lia_search.specs.Decides.{has_short_multiples};
ghost use Rattle.lia_used.specs.Used.{DecidesUsed, IsRefutedBy};

use crate::numbers::{all_numbers, conjunction, used_numbers};
use crate::outcome::Outcome;
use crate::renumbering::renumbered;
use crate::uses::uses_of;
use base::Memory;
use farkas_proof::{CheckStop, Refuted, check_owned};
use lia_cases::{Decision, decide};
use lin_atoms::Form;
use refutation_trees::Refutation;
use std::alloc::Global;

/// A refutation of the formula and the lemmas that the tree uses, with their numbers, where there are others
/// and one is found.
fn reduced(
    alloc: Global,
    form: &Form,
    lemmas: &[Form],
    tree: &Refutation,
) -> Result<Option<(Refuted, Vec<u32>)>, Memory>
    ensures { IfOk result (λ found. IfSome found (λ made. IsRefutedBy form.now lemmas.now made.1.items made.0)) }
{
    let uses = uses_of(alloc, form, lemmas, tree)?;
    if !uses.leaves_out() {
        return Ok(None);
    }
    let used = used_numbers(alloc, &uses, lemmas)?;
    let tree = renumbered(alloc, &uses, tree)?;
    let form = conjunction(alloc, form, lemmas, used.as_slice())?;
    match check_owned(alloc, form, tree) {
        Ok(proof) => Ok(Some((proof, used))),
        Err(CheckStop::Memory) => Err(Memory),
        Err(_) => Ok(None),
    }
}

/// The refutation of the formula and the lemmas that it uses, or else the whole one.
fn refuted(alloc: Global, form: &Form, lemmas: &[Form], whole: Refuted) -> Result<Outcome, Memory>
    requires { form_of whole ≡ And (form.now ∷ lemmas.now) }
    ensures { (vars nodes : ℕ) → IfOk result (λ outcome. DecidesUsed form.now lemmas.now vars nodes outcome) }
{
    match reduced(alloc, form, lemmas, whole.proof())? {
        Some((proof, used)) => Ok(Outcome::Refuted { proof, used }),
        None => {
            let used = all_numbers(alloc, lemmas)?;
            Ok(Outcome::Refuted { proof: whole, used })
        }
    }
}

/// Decides what `decide` of `lia_cases` decides, under the same conditions. A refutation is of the conjunction
/// of the formula and of the lemmas that it uses, whose numbers come with it: those of which its tree names a
/// literal or splits a disjunction. What such a tree proves is checked once more, and where it isn't taken, or
/// is more than 400 nodes deep, the refutation is of all lemmas. It isn't taken where it splits on the
/// quotient of a divisibility, and the greatest variable is in a lemma that isn't used.
pub fn decide_used(
    alloc: Global,
    form: &Form,
    lemmas: &[Form],
    vars: u32,
    nodes: u32,
) -> Result<Outcome, Memory>
    requires below { is_below vars form.now ≡ true }
    requires lemmas_below { list_all (is_below vars) lemmas.now ≡ true }
    requires short { has_short_multiples form.now ≡ true }
    requires lemmas_short { list_all has_short_multiples lemmas.now ≡ true }
    requires few { vars ≤ most_variables }
    requires some { 0 < nodes }
    ensures { IfOk result (λ outcome. DecidesUsed form.now lemmas.now vars nodes outcome) }
{
    match decide(alloc, form, lemmas, vars, nodes)? {
        Decision::Model(point) => Ok(Outcome::Model(point)),
        Decision::Refuted(whole) => refuted(alloc, form, lemmas, whole),
        Decision::GaveUp(gave_up) => Ok(Outcome::GaveUp(gave_up)),
    }
}
