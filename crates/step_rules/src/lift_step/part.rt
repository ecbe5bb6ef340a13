use base::Items;
use chc_tokens::Shown;

/// A Lift: a lemma goes one level higher.
pub struct LiftPart {
    /// The lemma's number.
    pub lemma: u32,
    /// The lemma's level before.
    pub from: u32,
    /// For each clause with a head of the lemma's predicate, that the frame of that level on the
    /// body implies it.
    pub proofs: Items<Shown>,
}

impl Drop for LiftPart {
    fn drop(self) {
        let LiftPart {
            lemma: _,
            from: _,
            proofs: _,
        } = self;
    }
}
