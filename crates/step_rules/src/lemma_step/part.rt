use base::Items;
use chc_tokens::Shown;
use cube_forms::Lemma;

/// A Lemma: it is learnt at a level, for an obligation whose point it excludes.
pub struct LemmaPart {
    /// The number of the obligation whose point it excludes.
    pub target: u32,
    pub pred: u32,
    pub lemma: Lemma,
    /// From 1 to the book's level.
    pub level: u32,
    /// For each clause with a head of the predicate, that the frame below and the lemma itself on
    /// the body imply it. At level 1 a clause with a body needs none.
    pub proofs: Items<Shown>,
}

impl Drop for LemmaPart {
    fn drop(self) {
        let LemmaPart {
            target: _,
            pred: _,
            lemma: _,
            level: _,
            proofs: _,
        } = self;
    }
}
