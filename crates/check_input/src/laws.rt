//! The law of an input's parts, as the contract of a function that does nothing.

ghost use Rattle.std.specs.Prelude.{◌≡◌, ℕ, List};
ghost use Rattle.check_input.specs.Inputs.{IsParted};

/// An input has one script and one answer: they end and begin at one place each.
pub fn inputs_are_parted_once()
    ensures script { (input : List ℕ) (script other answer last : ℕ) → IsParted input script answer → IsParted input other last → script ≡ other }
    ensures answer { (input : List ℕ) (script other answer last : ℕ) → IsParted input script answer → IsParted input other last → answer ≡ last }
{}
