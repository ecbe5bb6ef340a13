//! Laws of the definitions, as contracts of functions that do nothing.

ghost use Rattle.std.specs.Prelude.{◌≡◌, ◌≢◌, ◌<◌, ◌+◌, ◌-◌, ℕ, ℤ, List, None, length, map, get_or};
ghost use Rattle.std.specs.List.{AllPairs, Contains};
ghost use Rattle.derivations.specs.Facts.{AreRecorded, AreSteps, AreUnder, greatest, height_of, pred_of, fact_premises};
ghost use Rattle.derivations.specs.declared.fact.Fact.{Fact};

/// False is recorded once at most.
pub fn false_is_recorded_once()
    ensures { (facts : List Fact) (m n : ℕ) → AreRecorded facts → m < length facts → n < length facts → pred_of facts m ≡ None → pred_of facts n ≡ None → m ≡ n }
{}

/// A fact's height is 1 plus the greatest height of its premises.
pub fn a_height_is_one_more()
    ensures { (facts : List Fact) (n : ℕ) → AreRecorded facts → n < length facts → height_of facts n ≡ 1 + greatest (map (height_of facts) (fact_premises facts n)) }
{}

/// The fact itself is the last of the steps to it.
pub fn steps_end_in_the_fact()
    ensures { (facts : List Fact) (n : ℕ) (steps : List ℕ) → AreRecorded facts → n < length facts → AreSteps facts n steps → (0 < length steps) × (get_or steps (length steps - 1) 0 ≡ n) }
{}

/// With each step its premises are among the steps.
pub fn steps_have_their_premises()
    ensures { (facts : List Fact) (n m p : ℕ) (steps : List ℕ) → AreSteps facts n steps → Contains steps m → Contains (fact_premises facts m) p → Contains steps p }
{}

/// Among the facts whose tuples begin with given values none stands twice.
pub fn no_fact_stands_twice()
    ensures { (facts : List Fact) (pred : ℕ) (front : List ℤ) (numbers : List ℕ) → AreUnder facts pred front numbers → AllPairs (λ m n. m ≢ n) numbers }
{}
