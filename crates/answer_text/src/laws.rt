//! Laws of answers that are read, each the contract of a function that does nothing.

ghost use Rattle.std.specs.Prelude.{◌≡◌, ℕ, List};
ghost use Rattle.std.specs.List.{AllByRecursion};
ghost use Rattle.term_tree.specs.declared.script.Pred.{Pred};
ghost use Rattle.term_tree.specs.declared.definition.Definition.{Definition};
ghost use Rattle.answer_text.specs.declared.answer.Line.{Line};
ghost use Rattle.answer_text.specs.declared.answer.Answer.{Answer};
ghost use Rattle.answer_text.specs.declared.answer.Answer.TheVariants.{Sat, Unsat};
ghost use Rattle.answer_text.specs.Printable.{IsAnswerText};
ghost use Rattle.answer_text.specs.ReadBack.{AreNames, IsStored, IsReadAs};
ghost use Rattle.answer_text.specs.Read.{Spells, IsBad, ClaimsOrIsBad};

/// Every text claims something over the predicates, or has a first fault.
pub fn every_text_claims_or_is_bad()
    ensures { (preds : List Pred) (text : List ℕ) → ClaimsOrIsBad preds text }
{}

/// No text is an answer and has a fault.
pub fn no_answer_is_bad()
    ensures { (preds : List Pred) (text : List ℕ) (answer : Answer) (offset : ℕ) → Spells preds text answer → IsBad preds text offset → ⊥ }
{}

/// No text has two first faults.
pub fn one_fault()
    ensures { (preds : List Pred) (text : List ℕ) (offset other : ℕ) → IsBad preds text offset → IsBad preds text other → offset ≡ other }
{}

/// No text spells two derivations.
pub fn one_derivation()
    ensures { (preds : List Pred) (text : List ℕ) (lines others : List Line) → Spells preds text (Unsat lines) → Spells preds text (Unsat others) → lines ≡ others }
{}

/// The printed text of a derivation spells that very derivation, and nothing else.
pub fn printed_derivations_are_read_back()
    ensures spelled { (preds : List Pred) (lines : List Line) (text : List ℕ) → AreNames preds → IsAnswerText preds (Unsat lines) text → Spells preds text (Unsat lines) }
    ensures alone { (preds : List Pred) (lines : List Line) (text : List ℕ) (answer : Answer) → AreNames preds → IsAnswerText preds (Unsat lines) text
        → Spells preds text answer → answer ≡ Unsat lines }
{}

/// The printed text of a model is accepted, and whatever it spells is the same model.
pub fn printed_models_are_read_back()
    ensures { (preds : List Pred) (definitions : List Definition) (text : List ℕ) → AreNames preds → AllByRecursion IsStored definitions
        → IsAnswerText preds (Sat definitions) text → IsReadAs preds text definitions }
{}
