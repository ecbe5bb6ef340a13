//! Cases by hand, as contracts of functions that do nothing: a legal step of each kind that the short
//! run doesn't come to, each rule broken once with what breaks it, and the ends.

ghost use Rattle.std.specs.Prelude.{◌≡◌, pos, negsuc, [], ◌∷◌, Some, None, map, true, false};
ghost use Rattle.refutation_trees.specs.declared.evidence.Evidence.{Evidence as Why};
ghost use Rattle.refutation_trees.specs.declared.evidence.Evidence.TheVariants.{Nodes};
ghost use Rattle.refutation_trees.specs.GivenUp.{IsGivenUp};
ghost use Rattle.book_rules.specs.declared.by.By.TheVariants.{Lemma as ByLemma, Fact as ByFact, Obligation as ByObligation, Level as ByLevel, Clause as ByClause, Entry as ByEntry, Step as ByStep};
ghost use Rattle.book_rules.specs.declared.end.End.TheVariants.{Sat, Stalled};
ghost use Rattle.book_rules.specs.Rules.{broken};
ghost use Rattle.book_rules.specs.Legal.{IsLegal, end};
ghost use Rattle.book_rules.specs.Steps.{Carries, Opens};
ghost use Rattle.book_rules.specs.Examples.{counting, after_raise, after_lemma, not_3, through_first};
ghost use Rattle.book_rules.specs.Cases.{above_3, after_derive, after_fact, after_lift, after_stall, after_strengthen, all_stalled, asked, asks, at_least_3, at_level, at_most_9, bare_below, both_proofs, bounded, derive_0, derive_1, eight_reaches_nine, fact_0_again, fact_1, fact_2, four_others, is_value, kept_9, learn_9, learnt_2, left_over, lift_3, not_3_used, not_8, not_9, of_another, open_7, open_below, open_of, query_2, raise_past, raised_with, reaches, stall_2, stall_at, strengthen_by, three_is_reached, through_next, too_wide};

/// A Fact with a premise and a target, a Lift, a Raise past a lemma that stays behind, a Stall
/// with whatever evidence there is, as with that of one split, and an Open of a child are legal.
pub fn more_legal_steps_are_there()
    ensures fact { IsLegal counting asked (fact_1 (0 ∷ []) (Some 1)) }
    ensures lift { IsLegal counting learnt_2 (lift_3 1 both_proofs) }
    ensures kept { IsLegal counting (kept_9 []) (raise_past (eight_reaches_nine ∷ [])) }
    ensures stall { (evidence : Why) → IsGivenUp (query_2 not_3_used) evidence → IsLegal counting asked (stall_2 not_3_used evidence) }
    ensures given_up { IsLegal counting asked (stall_2 not_3_used (Nodes 1)) }
    ensures below { IsLegal counting above_3 (Opens open_below) }
{}

/// An area's cube is exactly that of the elimination, so the single point breaks rule 3, and the
/// area whose cube is the single point is no projection.
pub fn a_point_is_no_area()
    ensures point { broken bounded after_raise (Opens (open_7 (is_value (negsuc 6)) (at_least_3 ∷ []))) ≡ Some (3, ByStep) }
    ensures careless { Carries bounded (Opens (open_7 (is_value (negsuc 6)) (is_value (negsuc 6)))) → ⊥ }
{}

/// Each rule of Open.
pub fn opens_break_rules()
    ensures closed { broken counting after_lemma (open_of 1 (pos 3)) ≡ Some (1, ByEntry 3) }
    ensures never { broken counting after_lemma (open_of 7 (pos 3)) ≡ Some (1, ByStep) }
    ensures low { broken counting (raised_with [] [] (asks 1 0 2 (pos 3) (negsuc 2) ∷ [])) (open_of 1 (pos 3)) ≡ Some (2, ByObligation 1) }
    ensures outside { broken counting after_raise (open_of 0 (pos 4)) ≡ Some (4, ByObligation 0) }
    ensures shut_out { broken counting (raised_with (at_level 1 not_3 ∷ []) [] []) (open_of 0 (pos 3)) ≡ Some (5, ByLemma 0) }
    ensures known { broken counting (raised_with [] (three_is_reached ∷ []) []) (open_of 0 (pos 3)) ≡ Some (6, ByFact 0) }
    ensures many { broken counting (raised_with [] [] four_others) (open_of 0 (pos 3)) ≡ Some (8, ByObligation 1) }
    ensures unknown { broken counting (raised_with (at_level 1 at_most_9 ∷ []) [] []) (open_of 0 (pos 3)) ≡ Some (9, ByLemma 0) }
{}

/// The rules of Lemma, Fact and Lift that the short run doesn't break.
pub fn lemmas_and_facts_break_rules()
    ensures misused { broken counting asked (learn_9 not_8.cube) ≡ Some (12, ByClause 1) }
    ensures not_excluded { broken counting asked (learn_9 not_9.cube) ≡ Some (14, ByObligation 1) }
    ensures no_premise { broken counting asked (fact_1 [] (Some 1)) ≡ Some (20, ByStep) }
    ensures recorded { broken counting asked fact_0_again ≡ Some (21, ByFact 0) }
    ensures closed { broken counting after_fact fact_2 ≡ Some (22, ByEntry 10) }
    ensures not_held { broken counting asked (fact_1 (0 ∷ []) (Some 2)) ≡ Some (23, ByObligation 2) }
    ensures other_level { broken counting learnt_2 (lift_3 2 both_proofs) ≡ Some (30, ByLemma 0) }
    ensures too_high { broken counting after_lift (lift_3 2 both_proofs) ≡ Some (31, ByLevel 2) }
    ensures unshown { broken counting learnt_2 (lift_3 1 (through_first ∷ [])) ≡ Some (32, ByClause 1) }
    ensures above { broken counting learnt_2 (lift_3 1 (through_first ∷ through_next not_3 not_9.cube ∷ [])) ≡ Some (33, ByClause 1) }
{}

/// The rules of Raise and Stall that the short run doesn't break.
pub fn raises_and_stalls_break_rules()
    ensures lost { broken counting (kept_9 []) (raise_past []) ≡ Some (42, ByLemma 0) }
    ensures left { broken counting (kept_9 []) (raise_past (eight_reaches_nine ∷ eight_reaches_nine ∷ [])) ≡ Some (42, ByStep) }
    ensures another { broken counting (kept_9 []) (raise_past (reaches not_8 (pos 7) (pos 8) ∷ [])) ≡ Some (42, ByLemma 0) }
    ensures not_in_frame { broken counting (kept_9 (at_level 1 not_8 ∷ [])) (raise_past (eight_reaches_nine ∷ reaches not_8 (pos 7) (pos 8) ∷ [])) ≡ Some (43, ByLemma 2) }
    ensures not_of_frame { broken counting (kept_9 []) (raise_past (left_over ∷ [])) ≡ Some (44, ByLemma 0) }
    ensures closed { broken counting after_fact (stall_at 1 1) ≡ Some (50, ByEntry 10) }
    ensures has_child { broken counting asked (stall_at 1 1) ≡ Some (51, ByObligation 3) }
    ensures no_clause { broken counting asked (stall_at 2 9) ≡ Some (52, ByStep) }
    ensures other_head { broken counting asked (stall_at 2 2) ≡ Some (52, ByStep) }
    ensures above { broken counting asked (stall_2 ((record { atom = 0; cube = not_9.cube }) ∷ []) (Nodes 1)) ≡ Some (53, ByClause 1) }
    ensures again { broken counting after_stall (stall_2 not_3_used (Nodes 1)) ≡ Some (54, ByObligation 2) }
{}

/// A Derive and a Strengthen for no obligation, which are legal, each of their rules broken once, and
/// what they make of the book. A lemma may be used in its own proof.
pub fn steps_for_no_obligation()
    ensures derive { IsLegal counting learnt_2 derive_0 }
    ensures strengthen { IsLegal counting learnt_2 (strengthen_by not_3 2 both_proofs) }
    ensures no_premise { broken counting asked (derive_1 []) ≡ Some (70, ByStep) }
    ensures not_there { broken counting learnt_2 (derive_1 (0 ∷ [])) ≡ Some (70, ByStep) }
    ensures recorded { broken counting asked derive_0 ≡ Some (71, ByFact 0) }
    ensures no_predicate { broken counting learnt_2 (strengthen_by of_another 1 []) ≡ Some (80, ByStep) }
    ensures no_place { broken counting learnt_2 (strengthen_by too_wide 1 []) ≡ Some (80, ByStep) }
    ensures too_low { broken counting learnt_2 (strengthen_by not_3 0 both_proofs) ≡ Some (81, ByLevel 2) }
    ensures too_high { broken counting learnt_2 (strengthen_by not_3 3 both_proofs) ≡ Some (81, ByLevel 2) }
    ensures unshown { broken counting learnt_2 (strengthen_by not_3 2 (through_first ∷ [])) ≡ Some (82, ByClause 1) }
    ensures above { broken counting learnt_2 (strengthen_by not_3 2 (through_first ∷ through_next not_3 not_9.cube ∷ [])) ≡ Some (83, ByClause 1) }
    ensures own { broken counting learnt_2 (strengthen_by not_3 2 (through_first ∷ through_next not_3 not_3.cube ∷ [])) ≡ None }
    ensures closes { map (λ o. o.closed) after_derive.obligations ≡ None ∷ Some 10 ∷ None ∷ Some 10 ∷ [] }
    ensures heights { map (λ f. f.height) after_derive.facts ≡ 1 ∷ 2 ∷ [] }
    ensures shuts_out { map (λ o. o.closed) after_strengthen.obligations ≡ None ∷ Some 10 ∷ [] }
    ensures levels { map (λ e. e.level) after_strengthen.lemmas ≡ 1 ∷ 1 ∷ 2 ∷ [] }
    ensures units { after_derive.spent ∷ after_strengthen.spent ∷ [] ≡ 10 ∷ 10 ∷ [] }
{}

/// A Fact closes the obligation that holds it with the one that hangs under it, and not their
/// sibling; a Lift closes what its lemma shuts out; a Stall marks alone. Without a lemma of some
/// level below the closed one the end is sat, and with all that is live stalled it is stalled.
pub fn more_effects_and_ends()
    ensures closes { map (λ o. o.closed) after_fact.obligations ≡ None ∷ Some 10 ∷ None ∷ Some 10 ∷ [] }
    ensures heights { map (λ f. f.height) after_fact.facts ≡ 1 ∷ 2 ∷ [] }
    ensures lifts { map (λ e. e.level) after_lift.lemmas ≡ 2 ∷ 1 ∷ [] }
    ensures shuts_out { map (λ o. o.closed) after_lift.obligations ≡ None ∷ Some 10 ∷ [] }
    ensures marks { map (λ o. o.stalled) after_stall.obligations ≡ false ∷ false ∷ true ∷ false ∷ [] }
    ensures no_unit { after_stall.spent ∷ after_stall.entries ∷ [] ≡ 9 ∷ 10 ∷ [] }
    ensures sat { end bare_below ≡ Some (Sat 1) }
    ensures stalled { end all_stalled ≡ Some Stalled }
{}
