ghost use Rattle.std.specs.Prelude.{◌≡◌, ◌<◌, length, true, false};
ghost use Rattle.std.specs.List.{All, AllPairs};
ghost use Rattle.lemma_frames.specs.Frames.{Precedes, level_of};
ghost use Rattle.lemma_frames.specs.machinery.Rows.{IsBefore, IsBehind, IsRank};

use crate::framed::{Framed, level_at};
use cube_forms::Table;

/// Whether a lemma stands before a place of this level and number.
fn stands_before(lemmas: &Table<Framed>, id: u32, level: u32, number: u32) -> bool
    requires { id < length lemmas.now }
    ensures before { result ≡ true → IsBefore (level_of lemmas.now) level number id }
    ensures behind { result ≡ false → IsBehind (level_of lemmas.now) level number id }
{
    let own = level_at(lemmas, id);
    own > level || (own == level && id < number)
}

/// How many of a predicate's row stand before a place of this level and number, by halving.
pub(crate) fn rank(lemmas: &Table<Framed>, row: &[u32], level: u32, number: u32) -> usize
    requires order { AllPairs (Precedes lemmas.now) row.now }
    requires there { All (λ n. n < length lemmas.now) row.now }
    ensures { IsRank (level_of lemmas.now) row.now level number result }
{
    let mut low = 0;
    let mut high = row.len();
    while low < high {
        let middle = low + (high - low) / 2;
        if stands_before(lemmas, row[middle], level, number) {
            low = middle + 1;
        } else {
            high = middle;
        }
    }
    low
}
