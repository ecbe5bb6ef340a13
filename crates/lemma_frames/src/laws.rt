//! Laws of the definitions, as contracts of functions that do nothing.

ghost use Rattle.std.specs.Prelude.{◌≡◌, ◌≤◌, ℕ, ℤ, List, length, take};
ghost use Rattle.lemma_frames.specs.Frames.{FrameHolds, IsUpper};
ghost use Rattle.lemma_frames.specs.declared.framed.Framed.{Framed};

/// What a frame holds, each higher one holds too: frames only fall as the level falls.
pub fn frames_only_fall()
    ensures { (lemmas : List Framed) (pred j k : ℕ) (tuple : List ℤ) → j ≤ k → FrameHolds lemmas pred j tuple → FrameHolds lemmas pred k tuple }
{}

/// The list of a higher level is a prefix of the list of each lower one.
pub fn upper_lists_are_prefixes()
    ensures { (lemmas : List Framed) (pred j k : ℕ) (low high : List ℕ) → j ≤ k → IsUpper lemmas pred j low → IsUpper lemmas pred k high → high ≡ take (length high) low }
{}

/// A level has one such list.
pub fn one_list_is_upper()
    ensures { (lemmas : List Framed) (pred k : ℕ) (one other : List ℕ) → IsUpper lemmas pred k one → IsUpper lemmas pred k other → one ≡ other }
{}
