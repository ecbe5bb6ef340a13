use base::Items;
use chc_tokens::Shown;
use cube_forms::Lemma;

/// A Strengthen: a lemma is learnt at a level, for no obligation.
pub struct StrengthenPart {
    pub pred: u32,
    pub lemma: Lemma,
    /// From 1 to the book's level.
    pub level: u32,
    /// For each clause with a head of the predicate, that the frame below and the lemma itself on
    /// the body imply it. At level 1 a clause with a body needs none.
    pub proofs: Items<Shown>,
}

impl Drop for StrengthenPart {
    fn drop(self) {
        let StrengthenPart {
            pred: _,
            lemma: _,
            level: _,
            proofs: _,
        } = self;
    }
}
