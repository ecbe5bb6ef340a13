//! Laws over the definitions alone: functions that do nothing, and whose contracts hold.

ghost use Rattle.std.specs.Prelude.{◌∷◌};
ghost use Rattle.lin_atoms.specs.declared.form.Form.TheViews.{And};
ghost use Rattle.refutation_trees.specs.Refutation.{HasNoPoint};
ghost use Rattle.lia_used.specs.Used.{IsRefutedBy};

use farkas_proof::Refuted;
use lin_atoms::Form;

/// A refutation by the lemmas that are used shows that no integer point makes the formula and all lemmas true.
pub fn used_lemmas_refute_all(form: &Form, lemmas: &[Form], used: &[u32], proof: &Refuted)
    requires { IsRefutedBy form.now lemmas.now used.now proof.now }
    ensures { HasNoPoint (And (form.now ∷ lemmas.now)) }
{
    proof.refuted_law();
}
