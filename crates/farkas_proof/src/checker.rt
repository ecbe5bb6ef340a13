ghost use Rattle.std.specs.Prelude.{◌≡◌, ℕ, true, IfOk, OnOk, IsErrOf};
ghost use Rattle.lin_atoms.specs.Denial.{lit_fits};
ghost use Rattle.farkas_proof.specs.Kept.{form_of, proof_of};
ghost use Rattle.refutation_trees.specs.Refutation.{Illegal, Wide, is_refutation, is_sound, judged};

use crate::refuted::Refuted;
use crate::stop::CheckStop;
use crate::walk::judge;
use lin_atoms::Form;
use refutation_trees::Refutation;
use std::alloc::Global;

/// Checks a tree from anyone as a proof that no integer point satisfies the form. `Refuted` comes
/// exactly where each node is legal and derives no literal that is too wide; otherwise the first
/// node in preorder that isn't, or does, decides. Form and tree are handed over, and kept as they are.
pub fn check_owned(alloc: Global, form: Form, proof: Refutation) -> Result<Refuted, CheckStop>
    ensures form { IfOk result (λ refuted. form_of refuted ≡ form) }
    ensures proof { IfOk result (λ refuted. proof_of refuted ≡ proof) }
    ensures legal { OnOk result (is_refutation form proof ≡ true) }
    ensures narrow { OnOk result (is_sound (judged lit_fits form proof) ≡ true) }
    ensures no_proof { (n : ℕ) → IsErrOf result (CheckStop.NoProof n) → judged lit_fits form proof ≡ Illegal n }
    ensures sum_wide { (n : ℕ) → IsErrOf result (CheckStop.SumWide n) → judged lit_fits form proof ≡ Wide n }
{
    match judge(alloc, &form, &proof) {
        Ok(_) => Ok(Refuted { form, proof }),
        Err(stop) => Err(stop),
    }
}

/// Checks a tree from anyone as `check_owned` does. Form and tree are copied first, and the copies
/// are judged, whose nodes lie side by side in memory.
pub fn check(alloc: Global, form: &Form, proof: &Refutation) -> Result<Refuted, CheckStop>
    ensures form { IfOk result (λ refuted. form_of refuted ≡ form.now) }
    ensures proof { IfOk result (λ refuted. proof_of refuted ≡ proof.now) }
    ensures legal { OnOk result (is_refutation form.now proof.now ≡ true) }
    ensures narrow { OnOk result (is_sound (judged lit_fits form.now proof.now) ≡ true) }
    ensures no_proof { (n : ℕ) → IsErrOf result (CheckStop.NoProof n) → judged lit_fits form.now proof.now ≡ Illegal n }
    ensures sum_wide { (n : ℕ) → IsErrOf result (CheckStop.SumWide n) → judged lit_fits form.now proof.now ≡ Wide n }
{
    let form = form.copy(alloc)?;
    let proof = proof.copy(alloc)?;
    check_owned(alloc, form, proof)
}
