use base::Items;
use chc_tokens::Used;
use refutation_trees::GaveUp;

/// A query whose search was given up.
#[derive(Drop)]
pub struct Lost {
    /// The number of its clause.
    pub clause: u32,
    /// The lemmas that it used on body atoms.
    pub used: Items<Used>,
    pub evidence: GaveUp,
}
