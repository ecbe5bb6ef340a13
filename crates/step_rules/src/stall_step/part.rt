use base::Items;
use chc_tokens::Used;
use refutation_trees::GaveUp;

/// A Stall: the search gave up a query of an obligation without children.
pub struct StallPart {
    /// The obligation's number.
    pub target: u32,
    /// The clause of the query.
    pub clause: u32,
    /// The lemmas of the frame below that the query used on body atoms.
    pub used: Items<Used>,
    /// What shows that the query of the clause, the obligation's cube and these lemmas was given up.
    pub evidence: GaveUp,
}

impl Drop for StallPart {
    fn drop(self) {
        let StallPart {
            target: _,
            clause: _,
            used: _,
            evidence: _,
        } = self;
    }
}
