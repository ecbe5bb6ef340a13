//! What is kept of a constant, in one word.

ghost use Rattle.std.specs.Prelude.{◌≡◌};
ghost use Rattle.term_tables.specs.machinery.Table.{short_kept};

use crate::constants::if_short;
use std::marker::Model;

/// The value of a constant below 2^63 in magnitude, or none, which -2^63 stands for. It takes 8 bytes,
/// since a script has millions of terms.
#[derive(Drop)]
pub(crate) struct Kept {
    word: i64,
}

impl Model for Kept {
    ghost use Rattle.std.specs.Prelude.{Option, ℤ};
    ghost use Rattle.term_tables.specs.machinery.Table.{short_integer};

    ghost Value = { Option ℤ };

    ghost view = { λ k. short_integer k.word };
}

impl Kept {
    /// The value, where it is below 2^63 in magnitude.
    pub(crate) fn new(constant: Option<i64>) -> Kept
        ensures { result ≡ short_kept constant }
    {
        match constant {
            Some(n) => Kept { word: n },
            None => Kept { word: i64::MIN },
        }
    }

    /// The value, if there is one.
    pub(crate) fn constant(&self) -> Option<i64>
        ensures { result ≡ self.now }
    {
        if_short(i128::from(self.word))
    }
}
