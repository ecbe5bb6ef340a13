//! The law of readings of definitions, as the contract of a function that does nothing.

ghost use Rattle.std.specs.Prelude.{◌≡◌, ℕ, List};
ghost use Rattle.term_tree.specs.declared.definition.Definition.{Definition};
ghost use Rattle.term_tree.specs.declared.script.Pred.{Pred};
ghost use Rattle.answer_text.specs.declared.answer.Answer.TheVariants.{Sat};
ghost use Rattle.answer_text.specs.Read.{Spells};
ghost use Rattle.clause_form.specs.declared.clause.Clause.{Clause};
ghost use Rattle.clause_laws.specs.Defined.{breaking_form, breaking_variables, breaking_wide};

/// Whatever numbers the terms of the definitions have that a text spells, the instances that make a clause
/// false under them are the points of one form, with as many variables; and where a term has no room, the
/// first one starts at the same byte.
pub fn definitions_ask_the_same()
    ensures wide { (preds : List Pred) (text : List ℕ) (definitions others : List Definition) (clause : Clause) → Spells preds text (Sat definitions) → Spells preds text (Sat others) →
        breaking_wide definitions clause ≡ breaking_wide others clause }
    ensures form { (preds : List Pred) (text : List ℕ) (definitions others : List Definition) (clause : Clause) → Spells preds text (Sat definitions) → Spells preds text (Sat others) →
        breaking_form definitions clause ≡ breaking_form others clause }
    ensures variables { (preds : List Pred) (text : List ℕ) (definitions others : List Definition) (clause : Clause) → Spells preds text (Sat definitions) → Spells preds text (Sat others) →
        breaking_variables definitions clause ≡ breaking_variables others clause }
{}
