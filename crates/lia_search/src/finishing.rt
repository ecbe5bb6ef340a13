//! What the end of a search decides.

ghost use Rattle.std.specs.Prelude.{◌≡◌, IfOk, true};
ghost use Rattle.lin_atoms.specs.Truth.{is_below};
ghost use Rattle.farkas_proof.specs.Kept.{form_of};
ghost use Rattle.refutation_trees.specs.Refutation.{is_sound, judged};
ghost use Rattle.lin_atoms.specs.Denial.{lit_fits};
ghost use Rattle.lia_search.specs.Decides.{Decides};
ghost use Rattle.lia_stack.specs.machinery.Searched.{Ends};

use crate::decision::Decision;
use base::Memory;
use farkas_proof::{CheckStop, Refuted, check_owned};
use lia_stack::{End, cut};
use lin_atoms::Form;
use refutation_trees::{GaveUp, Refutation};
use std::alloc::Global;

/// The form with its refutation, which is checked once more where it is kept.
fn refuted(alloc: Global, form: Form, tree: Refutation) -> Result<Refuted, Memory>
    requires { is_sound (judged lit_fits form tree) ≡ true }
    ensures { IfOk result (λ refuted. form_of refuted ≡ form) }
{
    match check_owned(alloc, form, tree) {
        Ok(refuted) => Ok(refuted),
        Err(CheckStop::Memory) => Err(Memory),
        Err(CheckStop::NoProof { .. }) => unreachable!(),
        Err(CheckStop::SumWide { .. }) => unreachable!(),
    }
}

/// What the end of a search decides of its form, with at most `nodes` inner nodes.
pub(crate) fn decided(
    alloc: Global,
    form: Form,
    end: End,
    vars: u32,
    nodes: u32,
) -> Result<Decision, Memory>
    requires below { is_below vars form ≡ true }
    requires ends { Ends form nodes end }
    ensures { IfOk result (λ decision. Decides form vars nodes decision) }
{
    match end {
        End::Model(point) => {
            let model = cut(alloc, &form, point.as_slice(), vars)?;
            Ok(Decision::Model(model))
        }
        End::Refuted(tree) => {
            let refuted = refuted(alloc, form, tree)?;
            Ok(Decision::Refuted(refuted))
        }
        End::GivenUp(evidence) => Ok(Decision::GaveUp(GaveUp::keep(form, evidence))),
    }
}
