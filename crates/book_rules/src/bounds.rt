//! Laws of what bounds a book: how much can come, which levels and values there are, and which
//! places cubes name. Each holds after every journal of legal steps, from any opening that has what
//! the law keeps.

ghost use Rattle.std.specs.Prelude.{◌≡◌, ◌≤◌, ◌<◌, ℕ, List, Some, None, true, length, slice_get};
ghost use Rattle.clause_form.specs.System.{Clauses, is_system};
ghost use Rattle.book_rules.specs.Counts.{HasRoom, IsSpentSince, marks};
ghost use Rattle.book_rules.specs.Effects.{after};
ghost use Rattle.book_rules.specs.Kept.{IsOrdered};
ghost use Rattle.book_rules.specs.Legal.{AreLegal, IsLegal, end, replay};
ghost use Rattle.book_rules.specs.Places.{AreOver, has_places};
ghost use Rattle.book_rules.specs.Rooted.{IsRooted};
ghost use Rattle.book_rules.specs.State.{Obligation, State, is_live, opening};
ghost use Rattle.book_rules.specs.Steps.{Step};
ghost use Rattle.book_rules.specs.Values.{AreShort};
ghost use Rattle.book_rules.specs.Walks.{AllOf};

/// Lemmas, facts, obligations and the level grow by at most the units that are spent meanwhile, and
/// the journal by these and the marks of stalled obligations, of which each is marked once. No more
/// is spent than was given, and a book that goes on has a unit left. So a first book given n
/// units has at most n lemmas, n facts, n levels and n obligations beside the root.
pub fn units_bound_what_comes()
    ensures since { (sys : Clauses) (s : State) (steps : List Step) → AreLegal sys s steps → IsSpentSince s (replay sys s steps) }
    ensures step { (sys : Clauses) (s : State) (step : Step) → IsLegal sys s step → IsSpentSince s (after sys s step) }
    ensures within { (sys : Clauses) (s : State) (steps : List Step) → s.spent ≤ s.given → AreLegal sys s steps → (replay sys s steps).spent ≤ (replay sys s steps).given }
    ensures left { (s : State) → s.spent ≤ s.given → end s ≡ None → s.spent < s.given }
    ensures marked { (s : State) → marks s.obligations ≤ length s.obligations }
    ensures room { (sys : Clauses) (units : ℕ) (steps : List Step) → AreLegal sys (opening units) steps → HasRoom units (replay sys (opening units) steps) }
{}

/// The first obligation is the root, one level above the book's, and closed only where false is
/// recorded; every other one is of a predicate, and a live one has a level from 1 to the book's.
pub fn the_root_stands_above()
    ensures rooted { (sys : Clauses) (s : State) (steps : List Step) → IsRooted s → AreLegal sys s steps → IsRooted (replay sys s steps) }
    ensures step { (sys : Clauses) (s : State) (step : Step) → IsRooted s → IsLegal sys s step → IsRooted (after sys s step) }
    ensures levels { (s : State) → IsOrdered s → IsRooted s → (i : ℕ) (o : Obligation) → slice_get s.obligations i ≡ Some o → 0 < i → is_live o ≡ true → (1 ≤ o.level) × (o.level ≤ s.level) }
    ensures first { (units : ℕ) → IsRooted (opening units) }
{}

/// Values of facts and of the points of obligations lie strictly between -2^63 and 2^63.
pub fn values_stay_short()
    ensures short { (sys : Clauses) (s : State) (steps : List Step) → AreShort s → AreLegal sys s steps → AreShort (replay sys s steps) }
    ensures step { (sys : Clauses) (s : State) (step : Step) → AreShort s → IsLegal sys s step → AreShort (after sys s step) }
    ensures first { (units : ℕ) → AreShort (opening units) }
{}

/// Where the cubes and lemmas of each step name only places that their predicates have, and rules ask
/// that the predicate of a Lemma is there, and that the lemma of a Strengthen names only places of its own, those of the book do, its predicates are there, and the points of obligations have a value for each place.
pub fn cubes_are_over_their_predicates()
    ensures over { (sys : Clauses) (s : State) (steps : List Step) → is_system sys ≡ true → AreOver sys s → AllOf (λ step. has_places sys step ≡ true) steps → AreLegal sys s steps → AreOver sys (replay sys s steps) }
    ensures step { (sys : Clauses) (s : State) (step : Step) → is_system sys ≡ true → AreOver sys s → has_places sys step ≡ true → IsLegal sys s step → AreOver sys (after sys s step) }
    ensures first { (sys : Clauses) (units : ℕ) → AreOver sys (opening units) }
{}
