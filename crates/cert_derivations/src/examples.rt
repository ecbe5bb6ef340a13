//! A derivation by hand, as contracts of functions that do nothing.

ghost use Rattle.std.specs.Prelude.{◌≡◌, [], ◌∷◌};
ghost use Rattle.horn_shape.specs.Derivation.{heights_of};
ghost use Rattle.cert_derivations.specs.Examples.{small, small_facts, small_steps};
ghost use Rattle.cert_derivations.specs.Steps.{AreClosed, script_steps};

/// The steps of false, without the fact that it doesn't rest on: premises are numbered anew, values
/// of auxiliary variables left out, and the integers of Bool variables and arguments are truth values.
pub fn steps_are_made_of_facts()
    ensures steps { script_steps small small_facts (0 ∷ 2 ∷ 3 ∷ []) ≡ small_steps }
    ensures heights { heights_of small_steps ≡ 1 ∷ 2 ∷ 3 ∷ [] }
    ensures closed { AreClosed small_facts (0 ∷ 2 ∷ 3 ∷ []) }
{}

/// Without a premise, or with one behind what rests on it, numbers aren't closed; nor are those of
/// which there is no fact.
pub fn premises_come_first()
    ensures missing { AreClosed small_facts (0 ∷ 3 ∷ []) → ⊥ }
    ensures late { AreClosed small_facts (0 ∷ 3 ∷ 2 ∷ []) → ⊥ }
    ensures absent { AreClosed small_facts (4 ∷ []) → ⊥ }
{}
