//! Laws of the definitions, as contracts of functions that do nothing.

ghost use Rattle.std.specs.Prelude.{◌≡◌, ◌<◌, ℕ, List, [], Some, slice_get, length};
ghost use Rattle.clause_form.specs.System.{Clauses};
ghost use Rattle.derivations.specs.Facts.{AreSteps, height_of};
ghost use Rattle.derivations.specs.declared.fact.Fact.{Fact as KeptFact};
ghost use Rattle.book_rules.specs.Kept.{AreRecorded};
ghost use Rattle.book_rules.specs.State.{Fact};
ghost use Rattle.book_rules.specs.Steps.{Carries};
ghost use Rattle.chc_core.specs.Derivations.{IsDerivation};
ghost use Rattle.step_rules.specs.Taken.{AreProjected, IsMadeFor, step_of};
ghost use Rattle.step_rules.specs.Views.{facts_of};
ghost use Rattle.step_rules.specs.declared.step.Step.{Step};

/// What the facts on which a fact rests are: a derivation that ends in it.
pub fn steps_are_a_derivation()
    ensures { (sys : Clauses) (facts : List KeptFact) (n : ℕ) (steps : List ℕ) → AreRecorded sys [] (facts_of facts) → n < length facts
        → AreSteps facts n steps → IsDerivation sys (facts_of facts) n steps }
{}

/// The height that the rules give a fact is that which the facts tell.
pub fn heights_agree()
    ensures { (facts : List KeptFact) (n : ℕ) (fact : Fact) → slice_get (facts_of facts) n ≡ Some fact → fact.height ≡ height_of facts n }
{}

/// What the tokens of a step stand for holds of the system that they were made for.
pub fn tokens_carry_their_facts()
    ensures { (sys : Clauses) (step : Step) → IsMadeFor sys step → AreProjected step → Carries sys (step_of step) }
{}
