//! Laws of what is found of a derivation, each the contract of a function that does nothing.

ghost use Rattle.std.specs.Prelude.{◌≡◌, ℕ, List};
ghost use Rattle.term_tree.specs.declared.script.Script.{Script};
ghost use Rattle.answer_text.specs.declared.answer.Line.{Line};
ghost use Rattle.cert_derivations.specs.Claims.{DeriveFalse};
ghost use Rattle.check_derivation.specs.Findings.{IsWrongAt};

/// Lines that derive false are wrong at no step.
pub fn right_derivations_are_not_wrong()
    ensures { (script : Script) (lines : List Line) (number : ℕ) → DeriveFalse script lines → IsWrongAt script lines number → ⊥ }
{}

/// Lines are wrong at one step at most.
pub fn wrong_at_one_step()
    ensures { (script : Script) (lines : List Line) (m n : ℕ) → IsWrongAt script lines m → IsWrongAt script lines n → m ≡ n }
{}
