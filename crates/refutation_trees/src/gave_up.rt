ghost use Rattle.refutation_trees.specs.GivenUp.{IsGivenUp};

use crate::evidence::Evidence;
use base::{Copied, Memory};
use lin_atoms::Form;
use std::alloc::Global;

/// A form whose search was given up, with the evidence. Only `keep` makes one, from evidence that
/// is one for the form.
pub struct GaveUp {
    pub(crate) form: Form,
    pub(crate) evidence: Evidence,
    pub ghost given_up: { IsGivenUp form evidence },
}

impl Drop for GaveUp {
    fn drop(self) {
        let GaveUp {
            form: _,
            evidence: _,
        } = self;
    }
}

impl GaveUp {
    ghost use Rattle.std.specs.Prelude.{◌≡◌, IfOk};
    ghost use Rattle.refutation_trees.specs.KeptEvidence.{given_form, given_evidence};

    /// Keeps the evidence with its form.
    pub fn keep(form: Form, evidence: Evidence) -> GaveUp
        requires { IsGivenUp form evidence }
        ensures form { given_form result ≡ form }
        ensures evidence { given_evidence result ≡ evidence }
    {
        GaveUp { form, evidence }
    }

    /// The form that was given up.
    pub fn form(&self) -> &Form
        ensures { result.now ≡ given_form self.now }
    {
        &self.form
    }

    /// The evidence.
    pub fn evidence(&self) -> &Evidence
        ensures { result.now ≡ given_evidence self.now }
    {
        &self.evidence
    }

    /// A copy of the form with its evidence.
    pub fn copy(&self, alloc: Global) -> Result<GaveUp, Memory>
        ensures { IfOk result (λ copied. copied ≡ self.now) }
    {
        let form = self.form.copy(alloc)?;
        let evidence = self.evidence.copy(alloc)?;
        Ok(GaveUp { form, evidence })
    }
}
