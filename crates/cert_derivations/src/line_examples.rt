//! Lines by hand, as the contract of a function that does nothing.

ghost use Rattle.std.specs.Prelude.{◌≡◌, [], ◌∷◌};
ghost use Rattle.cert_derivations.specs.Examples.{small, small_facts};
ghost use Rattle.cert_derivations.specs.LineExamples.{small_lines};
ghost use Rattle.cert_derivations.specs.Lines.{fact_lines};

/// Facts 0, 2 and 3 are lines 1, 2 and 3: a premise is the number of its line and not of its fact, Bool
/// values are truth values, in conclusions too, and auxiliary variables have no values there.
pub fn lines_are_made_of_facts()
    ensures { fact_lines small small_facts (0 ∷ 2 ∷ 3 ∷ []) ≡ small_lines }
{}
