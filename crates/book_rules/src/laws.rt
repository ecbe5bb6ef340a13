//! Laws of the definitions, as contracts of functions that do nothing. Each holds of every replay of
//! a legal journal, from any opening that has what the law keeps.

ghost use Rattle.std.specs.Prelude.{◌≡◌, ◌↔◌, ℤ, ◌≤◌, ◌-◌, ◌<◌, ℕ, List, [], ◌∷◌, ◌++◌, Some, None, true, length, slice_get};
ghost use Rattle.clause_form.specs.System.{Clauses, is_system};
ghost use Rattle.clause_form.specs.declared.atom.Atom.{Atom};
ghost use Rattle.clause_form.specs.declared.clause.Clause.{Clause};
ghost use Rattle.cube_forms.specs.Cubes.{cube_holds};
ghost use Rattle.lin_atoms.specs.declared.lit.Lit.{Lit as Literal};
ghost use Rattle.lin_atoms.specs.declared.form.Form.{Form};
ghost use Rattle.book_rules.specs.declared.end.End.TheVariants.{Sat, Unsat};
ghost use Rattle.book_rules.specs.Instances.{IsDerivable, instances};
ghost use Rattle.book_rules.specs.Frames.{Framed, IsShown, AreRefuted, AreGood, IsSolution};
ghost use Rattle.book_rules.specs.Kept.{AreDerivable, AreDistinct, AreInRange, ArePlaced, AreRecorded, IsFalse, IsOrdered, IsSound};
ghost use Rattle.book_rules.specs.Legal.{AreLegal, IsLegal, end, replay};
ghost use Rattle.book_rules.specs.Effects.{after};
ghost use Rattle.book_rules.specs.Places.{AreOver};
ghost use Rattle.book_rules.specs.Reached.{IsReached};
ghost use Rattle.book_rules.specs.Same.{same_cube, same_form, same_tuple};
ghost use Rattle.book_rules.specs.State.{Obligation, State, opening};
ghost use Rattle.book_rules.specs.Steps.{OpenStep, Opens, Step};
ghost use Rattle.book_rules.specs.Walks.{AllOf};

/// Each lemma of level k accepts every tuple that is derivable within k. What makes it inductive is
/// kept beside it, with the frames as they are now: through every instance, F(k - 1) and the lemma
/// itself on the body imply the lemma; and where the level N is at least 1, no instance of false has
/// its body in F(N - 1).
pub fn lemmas_are_good()
    ensures good { (sys : Clauses) (s : State) (steps : List Step) → IsSound (instances sys) s → AreLegal sys s steps → AreGood (instances sys) (replay sys s steps).lemmas }
    ensures shown { (sys : Clauses) (s : State) (steps : List Step) → IsSound (instances sys) s → AreLegal sys s steps →
        AllOf (λ (e : Framed). IsShown (instances sys) (replay sys s steps).lemmas (e.level - 1) e.lemma) (replay sys s steps).lemmas }
    ensures refuted { (sys : Clauses) (s : State) (steps : List Step) → IsSound (instances sys) s → AreLegal sys s steps → 0 < (replay sys s steps).level →
        AreRefuted (instances sys) (replay sys s steps).lemmas ((replay sys s steps).level - 1) }
{}

/// Each recorded fact is derivable within its height, and no derivation of false has a height of
/// the level or less.
pub fn facts_are_derivable()
    ensures facts { (sys : Clauses) (s : State) (steps : List Step) → IsSound (instances sys) s → AreLegal sys s steps → AreDerivable (instances sys) (replay sys s steps).facts }
    ensures no_false { (sys : Clauses) (s : State) (steps : List Step) → IsSound (instances sys) s → AreLegal sys s steps → (h : ℕ) → h ≤ (replay sys s steps).level
        → IsDerivable (instances sys) h None → ⊥ }
{}

/// What makes lemmas good is kept by each legal step, and the opening of a first book has it.
pub fn legal_steps_are_sound()
    ensures step { (sys : Clauses) (s : State) (step : Step) → IsSound (instances sys) s → IsLegal sys s step → IsSound (instances sys) (after sys s step) }
    ensures first { (sys : Clauses) (units : ℕ) → IsSound (instances sys) (opening units) }
{}

/// Each live obligation but the root has a live parent one level higher; its point lies in its cube
/// and in F of its level, and no recorded fact of its predicate lies in its cube. The levels of
/// lemmas lie from 1 to the book's level, and no two facts have the same conclusion.
pub fn live_obligations_are_placed()
    ensures placed { (sys : Clauses) (s : State) (steps : List Step) → IsOrdered s → AreLegal sys s steps → ArePlaced (replay sys s steps) }
    ensures levels { (sys : Clauses) (s : State) (steps : List Step) → IsOrdered s → AreLegal sys s steps → AreInRange (replay sys s steps).level (replay sys s steps).lemmas }
    ensures distinct { (sys : Clauses) (s : State) (steps : List Step) → IsOrdered s → AreLegal sys s steps → AreDistinct (replay sys s steps).facts }
    ensures step { (sys : Clauses) (s : State) (step : Step) → IsOrdered s → IsLegal sys s step → IsOrdered (after sys s step) }
    ensures first { (units : ℕ) → IsOrdered (opening units) }
{}

/// The facts, in order, are a derivation: each is the head of its instance, whose body is concluded
/// by the facts before it that it names, and its height is one more than the greatest of theirs.
pub fn facts_are_a_derivation()
    ensures { (sys : Clauses) (s : State) (steps : List Step) → AreRecorded sys [] s.facts → AreLegal sys s steps → AreRecorded sys [] (replay sys s steps).facts }
{}

/// Where the end is sat, the lemmas of the end's level or more are a solution, and false can't be
/// derived within any height. Where it is unsat, false is derivable within the height of the fact.
pub fn ends_are_certified()
    ensures sat { (sys : Clauses) (s : State) (level : ℕ) → IsSound (instances sys) s → end s ≡ Some (Sat level) → IsSolution (instances sys) s.lemmas level }
    ensures no_false { (sys : Clauses) (s : State) (level : ℕ) → IsSound (instances sys) s → end s ≡ Some (Sat level) → (h : ℕ) → IsDerivable (instances sys) h None → ⊥ }
    ensures unsat { (sys : Clauses) (s : State) (fact : ℕ) → IsSound (instances sys) s → end s ≡ Some (Unsat fact) → IsFalse (instances sys) s fact }
{}

/// The rules compare by tests; each is true exactly of equal values.
pub fn equality_is_tested()
    ensures cubes { (a b : List Literal) → (same_cube a b ≡ true) ↔ (a ≡ b) }
    ensures tuples { (a b : List ℤ) → (same_tuple a b ≡ true) ↔ (a ≡ b) }
    ensures forms { (a b : Form) → (same_form a b ≡ true) ↔ (a ≡ b) }
{}

/// Each point of the cube of a legal Open is the atom's tuple in an instance whose head the parent
/// holds and whose body is in F of the level below, in a book whose cubes are over their predicates.
pub fn opened_cubes_are_reached()
    ensures { (sys : Clauses) (s : State) (o : OpenStep) → is_system sys ≡ true → IsLegal sys s (Opens o) → (parent : Obligation) (clause : Clause) (atom : Atom) →
        slice_get s.obligations o.parent ≡ Some parent → slice_get sys.clauses o.seen.clause ≡ Some clause → slice_get clause.atoms o.atom ≡ Some atom → AreOver sys s →
        (tuple : List ℤ) → length tuple ≡ length atom.args → cube_holds tuple o.cube ≡ true → IsReached clause atom parent s.lemmas (parent.level - 1) tuple }
{}

/// A journal that grows by one entry, which is legal where it leads to, is legal, and leads to what
/// the entry makes of that.
pub fn journals_grow()
    ensures state { (sys : Clauses) (s : State) (steps : List Step) (step : Step) → replay sys s (steps ++ step ∷ []) ≡ after sys (replay sys s steps) step }
    ensures legal { (sys : Clauses) (s : State) (steps : List Step) (step : Step) → AreLegal sys s steps → IsLegal sys (replay sys s steps) step → AreLegal sys s (steps ++ step ∷ []) }
{}
