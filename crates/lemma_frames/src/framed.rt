ghost use Rattle.std.specs.Prelude.{◌≡◌, ◌<◌, length};
ghost use Rattle.lemma_frames.specs.Frames.{level_of, pred_of, lemma_of};

use cube_forms::{Held, Lemma, Table};

/// A lemma with the predicate on which it stands and its level. Versions of a table share the lemma.
pub struct Framed {
    pub pred: u32,
    pub level: u32,
    pub lemma: Held<Lemma>,
}

impl Drop for Framed {
    fn drop(self) {
        let Framed {
            pred: _,
            level: _,
            lemma: _,
        } = self;
    }
}

/// The level of a lemma.
pub(crate) fn level_at(lemmas: &Table<Framed>, id: u32) -> u32
    requires { id < length lemmas.now }
    ensures { result ≡ level_of lemmas.now id }
{
    lemmas.get(id).level
}

/// The predicate of a lemma.
pub(crate) fn pred_at(lemmas: &Table<Framed>, id: u32) -> u32
    requires { id < length lemmas.now }
    ensures { result ≡ pred_of lemmas.now id }
{
    lemmas.get(id).pred
}

/// A lemma by its number.
pub(crate) fn lemma_at(lemmas: &Table<Framed>, id: u32) -> &Held<Lemma>
    requires { id < length lemmas.now }
    ensures { result.now ≡ lemma_of lemmas.now id }
{
    &lemmas.get(id).lemma
}
