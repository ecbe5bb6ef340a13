ghost use Rattle.std.specs.Prelude.{◌≡◌, true};
ghost use Rattle.lin_atoms.specs.Denial.{lit_fits};
ghost use Rattle.refutation_trees.specs.Refutation.{HasNoPoint, is_refutation, is_sound, judged};

use base::Memory;
use lin_atoms::Form;
use refutation_trees::Refutation;
use std::alloc::Global;

/// A form that no integer point satisfies, with its proof: each node is legal, and each literal that
/// it derives has room. Only `check` and `check_owned` make one.
pub struct Refuted {
    pub(crate) form: Form,
    pub(crate) proof: Refutation,
    pub ghost narrow: { is_sound (judged lit_fits form proof) ≡ true },
    pub ghost no_point: { HasNoPoint form },
}

impl Drop for Refuted {
    fn drop(self) {
        let Refuted { form: _, proof: _ } = self;
    }
}

impl Refuted {
    ghost use Rattle.std.specs.Prelude.{◌≡◌, IfOk};
    ghost use Rattle.farkas_proof.specs.Kept.{form_of, proof_of};

    /// The form that no integer point satisfies.
    pub fn form(&self) -> &Form
        ensures { result.now ≡ form_of self.now }
    {
        &self.form
    }

    /// The proof.
    pub fn proof(&self) -> &Refutation
        ensures { result.now ≡ proof_of self.now }
    {
        &self.proof
    }

    /// What the proof is, for callers that need it.
    pub fn refuted_law(&self)
        ensures narrow { is_sound (judged lit_fits (form_of self.now) (proof_of self.now)) ≡ true }
        ensures legal { is_refutation (form_of self.now) (proof_of self.now) ≡ true }
        ensures no_point { HasNoPoint (form_of self.now) }
    {
        let _form = &self.form;
    }

    /// A copy of the form with its proof.
    pub fn copy(&self, alloc: Global) -> Result<Refuted, Memory>
        ensures { IfOk result (λ copied. copied ≡ self.now) }
    {
        let form = self.form.copy(alloc)?;
        let proof = self.proof.copy(alloc)?;
        Ok(Refuted { form, proof })
    }
}
