//! Laws of calls, as the contracts of functions that do nothing.

ghost use Rattle.std.specs.Prelude.{◌≡◌, ℕ, List};
ghost use Rattle.call_words.specs.Words.{IsCall, IsCheckCall, IsGenCall};
ghost use Rattle.call_words.specs.declared.limits.Limits.{Limits};

/// Words are a call of `solve` with one set of limits at most.
pub fn calls_have_one_reading()
    ensures { (words : List (List ℕ)) (first second : Limits) → IsCall words first → IsCall words second → first ≡ second }
{}

/// And of `check` with one number of nodes at most, of `gen` with one depth and seed, and never of two
/// commands.
pub fn calls_exclude_each_other()
    ensures nodes { (words : List (List ℕ)) (first second : ℕ) → IsCheckCall words first → IsCheckCall words second → first ≡ second }
    ensures seeds { (words : List (List ℕ)) (d s e t : ℕ) → IsGenCall words d s → IsGenCall words e t → (d ≡ e) × (s ≡ t) }
    ensures apart { (words : List (List ℕ)) (limits : Limits) (nodes : ℕ) → IsCall words limits → IsCheckCall words nodes → ⊥ }
    ensures apart_gen { (words : List (List ℕ)) (limits : Limits) (depth seed : ℕ) → IsCall words limits → IsGenCall words depth seed → ⊥ }
    ensures check_apart { (words : List (List ℕ)) (nodes depth seed : ℕ) → IsCheckCall words nodes → IsGenCall words depth seed → ⊥ }
{}
