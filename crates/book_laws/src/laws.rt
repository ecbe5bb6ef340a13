//! Laws of the definitions, as contracts of functions that do nothing.

ghost use Rattle.std.specs.Prelude.{◌≡◌, ℕ, List, None, Some};
ghost use Rattle.clause_form.specs.System.{Clauses};
ghost use Rattle.book_rules.specs.Legal.{replay};
ghost use Rattle.book_rules.specs.Rules.{broken};
ghost use Rattle.book_rules.specs.State.{State};
ghost use Rattle.book_rules.specs.Steps.{Step};
ghost use Rattle.book_laws.specs.Stale.{closed_by, refusal, served};

/// A step that broke no rule of a book, and whose obligation one of the entries since has closed, is refused
/// with that entry, by the rule that asks for a live obligation: the entries since change nothing of what
/// the rules before it ask. A Fact whose conclusion was recorded meanwhile is refused by that.
pub fn stale_steps_are_refused()
    ensures { (sys : Clauses) (s : State) (since : List Step) (step : Step) (target entry : ℕ) → broken sys s step ≡ None → served step ≡ Some target →
        closed_by (replay sys s since) target ≡ Some entry → broken sys (replay sys s since) step ≡ refusal sys (replay sys s since) step entry }
{}
