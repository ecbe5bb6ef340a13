//! The laws of printed answers and of printed verdicts, each as the contract of a function that does nothing.

ghost use Rattle.std.specs.Prelude.{◌≡◌, ◌≤◌, ℕ, ℤ, List, ◌++◌, drop, length, Some, Ok, Err};
ghost use Rattle.std.specs.declared.option.Option.{Option};
ghost use Rattle.term_tree.specs.declared.definition.Definition.{Definition};
ghost use Rattle.base.specs.Limits.{most_bytes};
ghost use Rattle.term_tree.specs.declared.refusal.Checked.{Checked};
ghost use Rattle.term_tree.specs.declared.refusal.Refusal.{Refusal};
ghost use Rattle.term_tree.specs.Solution.{IsSolution};
ghost use Rattle.sort_check.specs.Checked.{IsCheckedText};
ghost use Rattle.clause_form.specs.System.{Clauses};
ghost use Rattle.clause_normal.specs.Reading.{system_reading};
ghost use Rattle.chc_core.specs.Contents.{Contents};
ghost use Rattle.call_words.specs.declared.limits.Limits.{Limits};
ghost use Rattle.call_solve.specs.Clauses.{HasNoSystem, IsUnrefused};
ghost use Rattle.call_solve.specs.Headline.{Answers};
ghost use Rattle.call_check.specs.Calls.{IsUnrefusedCheck};
ghost use Rattle.printed_laws.specs.Printed.{IsPrinted};
ghost use Rattle.answer_text.specs.Read.{Spells};
ghost use Rattle.answer_text.specs.declared.answer.Answer.{Answer};
ghost use Rattle.answer_text.specs.declared.answer.Line.{Line};
ghost use Rattle.answer_text.specs.declared.answer.Answer.TheVariants.{Sat, Unsat};
ghost use Rattle.chc_checker.specs.Verdicts.{HaveRoom, HaveRoomUnder, IsValid, IsWrong};
ghost use Rattle.chc_checker.specs.declared.verdict.Place.TheVariants.{Byte, Instance, Step};
ghost use Rattle.chc_checker.specs.declared.verdict.Verdict.{Verdict};
ghost use Rattle.chc_checker.specs.declared.verdict.Verdict.TheVariants.{Valid, Wrong};
ghost use Rattle.check_input.specs.Inputs.{HasNoSystemOfCheck, IsReadAs, JudgesInput};

use answer_laws::{
    printed_models_are_solutions, texts_of_solutions_spell_solutions, unsat_answers_are_read_back,
};
use answer_readings::definitions_ask_the_same;
use answer_text::no_answer_is_bad;
use chc_checker::{valid_answers_are_not_wrong, verdicts_on_derivations_are_exact};
use sort_check::{assertions_are_legal, scripts_are_within_limits};

/// One reading of the bytes tells whether a call refuses them, although the clauses on this speak of all:
/// where one has a system, the bytes have no refusal, and where one has a refusal, no system, however the
/// terms are numbered. So it is for `check`, with the bytes before the marker. It runs nothing.
pub fn one_reading_is_enough()
    ensures answers { (bytes : List ℕ) (checked : Checked) (system : Clauses) → length bytes ≤ most_bytes → IsCheckedText bytes checked
        → system_reading checked ≡ Ok system → IsUnrefused bytes }
    ensures refuses { (bytes : List ℕ) (checked : Checked) (refusal : Refusal) → IsCheckedText bytes checked → system_reading checked ≡ Err refusal → HasNoSystem bytes }
    ensures checks { (input : List ℕ) (script answer : ℕ) (checked : Checked) (system : Clauses) → length input ≤ most_bytes → IsReadAs input script answer checked
        → system_reading checked ≡ Ok system → IsUnrefusedCheck input }
    ensures checks_none { (input : List ℕ) (script answer : ℕ) (checked : Checked) (refusal : Refusal) → IsReadAs input script answer checked
        → system_reading checked ≡ Err refusal → HasNoSystemOfCheck input }
{}

/// Where the top call ends a call of `solve` with status 0, and a text stands in the sink behind what it held, that text
/// is a whole answer to the script which the bytes read spell, and holds: whoever reads it as an answer
/// needs neither the book nor the program. Its first line says which of three it is. After `sat` it is
/// read, and only as definitions that are a solution of the script; after `unsat` it is read, and only
/// as lines that derive false by the script's assertions; after `unknown` it tells a level, and no
/// derivation of false is as low. This holds of each script that the bytes spell: they are one but for
/// how their terms are numbered. It runs nothing.
pub fn printed_answers_hold()
    ensures { (limits : Limits) (read : List ℕ) (book : Option Contents) (held text : List ℕ) → Answers limits read book (Some held) (Some (held ++ text)) → IsPrinted read text }
{
    printed_models_are_solutions();
    unsat_answers_are_read_back();
    no_answer_is_bad();
}

/// Where the top call tells a verdict on the answer of a call of `check`, and that answer spells the
/// lines of a derivation in which every number has room, the verdict is exact: `valid` where the lines
/// derive false by the script's assertions, and `wrong` at the one line at which they are wrong;
/// whatever script the input is read as. It runs nothing.
pub fn derivations_are_judged_exactly()
    ensures valid { (nodes : ℕ) (input text : List ℕ) (verdict : Verdict) (script answer : ℕ) (checked : Checked) (lines : List Line)
        → JudgesInput nodes input verdict text → IsReadAs input script answer checked → Spells checked.script.preds (drop answer input) (Unsat lines)
        → HaveRoom checked.script lines → IsValid checked.script (Unsat lines) → verdict ≡ Valid }
    ensures wrong { (nodes number : ℕ) (input text : List ℕ) (verdict : Verdict) (script answer : ℕ) (checked : Checked) (lines : List Line)
        → JudgesInput nodes input verdict text → IsReadAs input script answer checked → Spells checked.script.preds (drop answer input) (Unsat lines)
        → HaveRoom checked.script lines → IsWrong checked.script (Unsat lines) (Step number) → verdict ≡ Wrong (Step number) }
{
    no_answer_is_bad();
    verdicts_on_derivations_are_exact();
}

/// Where the top call tells a verdict on the answer of a call of `check`, and that answer spells
/// definitions, the verdict is `wrong` at no instance if these are a solution of the script; and at no
/// byte if in them every number has room. Whatever script the input is read as, and whatever definitions
/// its answer, it is so of these. It runs nothing.
pub fn solutions_are_not_judged_wrong()
    ensures instances { (nodes number : ℕ) (integers : List ℤ) (input text : List ℕ) (verdict : Verdict) (script answer : ℕ) (checked : Checked) (definitions : List Definition)
        → JudgesInput nodes input verdict text → IsReadAs input script answer checked → Spells checked.script.preds (drop answer input) (Sat definitions)
        → IsSolution checked.script definitions → verdict ≡ Wrong (Instance number integers) → ⊥ }
    ensures bytes { (nodes offset : ℕ) (input text : List ℕ) (verdict : Verdict) (script answer : ℕ) (checked : Checked) (definitions : List Definition)
        → JudgesInput nodes input verdict text → IsReadAs input script answer checked → Spells checked.script.preds (drop answer input) (Sat definitions)
        → HaveRoomUnder checked.script definitions → verdict ≡ Wrong (Byte offset) → ⊥ }
{
    assertions_are_legal();
    definitions_ask_the_same();
    scripts_are_within_limits();
    texts_of_solutions_spell_solutions();
    valid_answers_are_not_wrong();
}

/// Where the top call tells that an answer is valid, it is, however it is read: whatever script the bytes
/// before the marker spell, and whatever answer to it those behind spell, it is a solution of that script,
/// or a derivation of false by its assertions. It runs nothing.
pub fn valid_verdicts_hold()
    ensures { (nodes : ℕ) (input text : List ℕ) (script answer : ℕ) (checked : Checked) (claim : Answer) → JudgesInput nodes input Valid text → IsReadAs input script answer checked
        → Spells checked.script.preds (drop answer input) claim → IsValid checked.script claim }
{
    texts_of_solutions_spell_solutions();
}
