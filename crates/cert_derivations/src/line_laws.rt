//! Laws of the lines of derivations, as contracts of functions that do nothing.

ghost use Rattle.std.specs.Prelude.{◌≡◌, ◌<◌, ◌↔◌, ℕ, List, length, None};
ghost use Rattle.base.specs.Widths.{short_limit};
ghost use Rattle.term_tree.specs.declared.definition.Definition.{Definition};
ghost use Rattle.term_tree.specs.declared.refusal.Checked.{Checked};
ghost use Rattle.term_tree.specs.declared.script.Script.{Script};
ghost use Rattle.term_tree.specs.Arena.{IsArena};
ghost use Rattle.term_tree.specs.Solution.{IsSolution};
ghost use Rattle.horn_shape.specs.Clause.{IsLegalScript};
ghost use Rattle.clause_form.specs.System.{Clauses};
ghost use Rattle.derivations.specs.Facts.{AreRecorded, AreSteps, pred_of};
ghost use Rattle.derivations.specs.declared.fact.Fact.{Fact as KeptFact};
ghost use Rattle.book_rules.specs.State.{Fact};
ghost use Rattle.step_rules.specs.Views.{facts_of};
ghost use Rattle.answer_text.specs.declared.answer.Line.{Line};
ghost use Rattle.answer_text.specs.declared.answer.Answer.{Answer};
ghost use Rattle.answer_text.specs.declared.answer.Answer.TheVariants.{Unsat};
ghost use Rattle.answer_text.specs.AnswerTexts.{answer_text};
ghost use Rattle.answer_text.specs.Printable.{IsAnswerText};
ghost use Rattle.answer_text.specs.Read.{Spells};
ghost use Rattle.answer_text.specs.ReadBack.{AreNames};
ghost use Rattle.cert_derivations.specs.Claims.{AreFactsOf, AreLines, DeriveFalse, EndInFalse};
ghost use Rattle.cert_derivations.specs.Lines.{fact_lines};

/// The numbers of the facts on which false rests are closed, and end in false.
pub fn steps_end_in_false()
    ensures { (facts : List KeptFact) (number : ℕ) (steps : List ℕ) →
        AreRecorded facts → number < length facts → pred_of facts number ≡ None → AreSteps facts number steps → EndInFalse (facts_of facts) steps }
{}

/// The lines of facts over the system of a script, closed and with false as the last, derive false by
/// the script's clauses.
pub fn facts_derive_false()
    ensures { (checked : Checked) (sys : Clauses) (facts : List Fact) (among : List ℕ) →
        AreFactsOf checked sys facts → EndInFalse facts among → DeriveFalse checked.script (fact_lines sys facts among) }
{}

/// The lines of facts over the system of a script, closed and with false as the last, may be printed
/// where they are fewer than 2^63, and their printed text spells these very lines and nothing else.
pub fn lines_of_facts_are_read_back()
    ensures printed { (checked : Checked) (sys : Clauses) (facts : List Fact) (among : List ℕ) →
        AreFactsOf checked sys facts → EndInFalse facts among → length among < short_limit →
        IsAnswerText checked.script.preds (Unsat (fact_lines sys facts among)) (answer_text checked.script.preds (Unsat (fact_lines sys facts among))) }
    ensures spelled { (checked : Checked) (sys : Clauses) (facts : List Fact) (among text : List ℕ) →
        AreFactsOf checked sys facts → EndInFalse facts among → length among < short_limit → AreNames checked.script.preds →
        text ≡ answer_text checked.script.preds (Unsat (fact_lines sys facts among)) → Spells checked.script.preds text (Unsat (fact_lines sys facts among)) }
    ensures alone { (checked : Checked) (sys : Clauses) (facts : List Fact) (among text : List ℕ) (answer : Answer) →
        AreFactsOf checked sys facts → EndInFalse facts among → length among < short_limit → AreNames checked.script.preds →
        text ≡ answer_text checked.script.preds (Unsat (fact_lines sys facts among)) → Spells checked.script.preds text answer → answer ≡ Unsat (fact_lines sys facts among) }
{}

/// Lines derive false exactly where each is right by itself and the last concludes false: they are
/// numbered from 1 in order, and each is an instance of an assertion at values of its variables, rests
/// on earlier lines that conclude its body atoms, and concludes its head.
pub fn what_lines_say()
    ensures { (script : Script) (lines : List Line) → DeriveFalse script lines ↔ AreLines script lines }
{}

/// A script with lines that derive false has no solution.
pub fn derivations_leave_no_solution()
    ensures { (script : Script) (lines : List Line) (definitions : List Definition) →
        IsArena script.terms.nodes → IsLegalScript script → DeriveFalse script lines → IsSolution script definitions → ⊥ }
{}
