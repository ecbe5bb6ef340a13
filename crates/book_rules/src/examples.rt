//! A short run by hand, as contracts of functions that do nothing: which steps are legal, which rule
//! the others break, and what breaks it.

ghost use Rattle.std.specs.Prelude.{◌≡◌, [], ◌∷◌, Some, None, map};
ghost use Rattle.book_rules.specs.declared.by.By.TheVariants.{Obligation as ByObligation, Level as ByLevel, Clause as ByClause, Entry as ByEntry, Step as ByStep};
ghost use Rattle.book_rules.specs.declared.end.End.TheVariants.{Unsat, Spent};
ghost use Rattle.book_rules.specs.Rules.{broken};
ghost use Rattle.book_rules.specs.Legal.{IsLegal, end};
ghost use Rattle.book_rules.specs.Effects.{after};
ghost use Rattle.book_rules.specs.State.{opening};
ghost use Rattle.book_rules.specs.Examples.{counting, contradiction, at_start, after_raise, after_open, after_lemma, after_second, open_3, fact_0, fact_false, lemma_not_3, lift_0, raise_by, through_first, through_bad};

/// Four steps of the run are legal, one after another: a Raise without queries, an Open, a Lemma and
/// a Raise under it. So is a Fact without premises that false follows from.
pub fn legal_steps_are_there()
    ensures raise { IsLegal counting at_start (raise_by []) }
    ensures open { IsLegal counting after_raise open_3 }
    ensures lemma { IsLegal counting after_open (lemma_not_3 1 (through_first ∷ [])) }
    ensures again { IsLegal counting after_lemma (raise_by (through_bad ∷ [])) }
    ensures fact { IsLegal contradiction at_start fact_false }
{}

/// What the other steps break, each with nothing broken before it.
pub fn other_steps_break_a_rule()
    ensures root_too_low { broken counting at_start open_3 ≡ Some (2, ByObligation 0) }
    ensures no_target { broken counting at_start (fact_0 None) ≡ Some (22, ByStep) }
    ensures unproved { broken counting after_raise (raise_by []) ≡ Some (40, ByClause 2) }
    ensures too_high { broken counting after_raise (lemma_not_3 2 []) ≡ Some (10, ByLevel 1) }
    ensures twice { broken counting after_open open_3 ≡ Some (7, ByObligation 1) }
    ensures another { broken counting after_open (fact_0 (Some 1)) ≡ Some (23, ByObligation 1) }
    ensures no_lemma { broken counting after_open lift_0 ≡ Some (30, ByStep) }
    ensures half { broken counting after_open (lemma_not_3 1 []) ≡ Some (11, ByClause 0) }
    ensures closed { broken counting after_lemma (lemma_not_3 1 (through_first ∷ [])) ≡ Some (13, ByEntry 3) }
    ensures old { broken counting after_second (raise_by (through_bad ∷ [])) ≡ Some (41, ByClause 2) }
{}

/// What the steps make of the book: its level, the units spent, and how it ends.
pub fn steps_have_their_effects()
    ensures levels { map (λ s. s.level) (at_start ∷ after_raise ∷ after_open ∷ after_lemma ∷ after_second ∷ []) ≡ 0 ∷ 1 ∷ 1 ∷ 1 ∷ 2 ∷ [] }
    ensures units { map (λ s. s.spent) (at_start ∷ after_raise ∷ after_open ∷ after_lemma ∷ after_second ∷ []) ≡ 0 ∷ 1 ∷ 2 ∷ 3 ∷ 4 ∷ [] }
    ensures unsat { end (after contradiction at_start fact_false) ≡ Some (Unsat 0) }
    ensures spent { end (after counting (opening 1) (raise_by [])) ≡ Some (Spent 1) }
    ensures goes_on { end after_second ≡ None }
{}
