//! Laws of verdicts, each the contract of a function that does nothing.

ghost use Rattle.std.specs.Prelude.{◌≡◌, ℕ, List, ℤ, Ok};
ghost use Rattle.term_tree.specs.declared.definition.Definition.{Definition};
ghost use Rattle.term_tree.specs.declared.refusal.Checked.{Checked};
ghost use Rattle.term_tree.specs.declared.script.Script.{Script};
ghost use Rattle.term_tree.specs.Arena.{IsArena};
ghost use Rattle.horn_shape.specs.Clause.{IsLegalScript};
ghost use Rattle.clause_form.specs.System.{Clauses};
ghost use Rattle.clause_normal.specs.Reading.{system_reading};
ghost use Rattle.answer_text.specs.declared.answer.Line.{Line};
ghost use Rattle.answer_text.specs.declared.answer.Answer.TheVariants.{Sat, Unsat};
ghost use Rattle.chc_checker.specs.declared.verdict.Place.TheVariants.{Instance, Step};
ghost use Rattle.chc_checker.specs.declared.verdict.Verdict.{Verdict};
ghost use Rattle.chc_checker.specs.declared.verdict.Verdict.TheVariants.{Valid, Wrong};
ghost use Rattle.chc_checker.specs.Verdicts.{HaveRoom, IsNormalScript, IsValid, IsWrong, Says};

/// A script whose clauses are a system can be checked against: each assertion has a clause, and every
/// number in it room.
pub fn systems_can_be_checked()
    ensures { (checked : Checked) (sys : Clauses) → system_reading checked ≡ Ok sys → IsNormalScript checked.script }
{}

/// A valid answer is wrong at no instance and at no step.
pub fn valid_answers_are_not_wrong()
    ensures instances { (script : Script) (definitions : List Definition) (number : ℕ) (integers : List ℤ) → IsArena script.terms.nodes → IsLegalScript script
        → IsValid script (Sat definitions) → IsWrong script (Sat definitions) (Instance number integers) → ⊥ }
    ensures steps { (script : Script) (lines : List Line) (number : ℕ) → IsValid script (Unsat lines) → IsWrong script (Unsat lines) (Step number) → ⊥ }
{}

/// On a derivation in which every number has room a verdict is exact: valid where the steps derive
/// false, and wrong at the one step at which they are wrong.
pub fn verdicts_on_derivations_are_exact()
    ensures valid { (nodes : ℕ) (script : Script) (lines : List Line) (verdict : Verdict) → Says nodes script (Unsat lines) verdict → HaveRoom script lines
        → IsValid script (Unsat lines) → verdict ≡ Valid }
    ensures wrong { (nodes : ℕ) (script : Script) (lines : List Line) (verdict : Verdict) (number : ℕ) → Says nodes script (Unsat lines) verdict → HaveRoom script lines
        → IsWrong script (Unsat lines) (Step number) → verdict ≡ Wrong (Step number) }
{}

/// A script has no valid answers of both kinds.
pub fn valid_answers_exclude_each_other()
    ensures { (script : Script) (definitions : List Definition) (lines : List Line) → IsArena script.terms.nodes → IsLegalScript script
        → IsValid script (Sat definitions) → IsValid script (Unsat lines) → ⊥ }
{}
