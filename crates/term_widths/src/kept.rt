//! A bound in one word.

ghost use Rattle.std.specs.Prelude.{◌≡◌};
ghost use Rattle.term_widths.specs.machinery.Word.{kept};

use std::marker::Model;

/// A bound that was found, or none. It takes 8 bytes, since a script has millions of terms.
#[derive(Drop)]
pub(crate) struct Kept {
    word: u64,
}

impl Model for Kept {
    ghost use Rattle.std.specs.Prelude.{Option, ℕ};
    ghost use Rattle.term_widths.specs.machinery.Word.{told};

    ghost Value = { Option ℕ };

    ghost view = { λ k. told k.word };
}

impl Kept {
    /// The bound, where it is below the greatest number of a word.
    pub(crate) fn new(bound: Option<u64>) -> Kept
        ensures { result ≡ kept bound }
    {
        match bound {
            Some(n) => Kept { word: n },
            None => Kept { word: u64::MAX },
        }
    }

    /// The bound, if there is one.
    pub(crate) fn bound(&self) -> Option<u64>
        ensures { result ≡ self.now }
    {
        if self.word == u64::MAX {
            None
        } else {
            Some(self.word)
        }
    }
}
