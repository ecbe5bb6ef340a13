ghost use Rattle.std.specs.Prelude.{◌≢◌, ◌↔◌, ◌<◌, length, IsTrue};
ghost use Rattle.std.specs.List.{All, AllPairs};
ghost use Rattle.lemma_frames.specs.Frames.{IsBare, Precedes, level_of};
ghost use Rattle.lemma_frames.specs.machinery.Index.{IsIndexed};

use crate::framed::{Framed, level_at};
use crate::rank::rank;
use crate::rows::Row;
use cube_forms::Table;

/// Whether no lemma of a row has exactly this level.
fn is_bare_of(lemmas: &Table<Framed>, row: &[u32], level: u32) -> bool
    requires order { AllPairs (Precedes lemmas.now) row.now }
    requires there { All (λ n. n < length lemmas.now) row.now }
    ensures { IsTrue result ↔ All (λ n. level_of lemmas.now n ≢ level) row.now }
{
    let at = rank(lemmas, row, level, 0);
    at >= row.len() || level_at(lemmas, row[at]) != level
}

/// Whether no lemma has exactly this level, by one search in each row.
pub(crate) fn is_bare(lemmas: &Table<Framed>, rows: &[Row], level: u32) -> bool
    requires { IsIndexed rows.now lemmas.now }
    ensures { IsTrue result ↔ IsBare lemmas.now level }
{
    for row in rows {
        if !is_bare_of(lemmas, row.get().as_slice(), level) {
            return false;
        }
    }
    true
}
