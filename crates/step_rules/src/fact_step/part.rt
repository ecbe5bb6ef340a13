use base::Items;
use chc_tokens::Seen;

/// A Fact: the head of an instance, whose body atoms are recorded.
pub struct FactPart {
    /// The number of an obligation that holds the head. It may be missing where the head is false.
    pub target: Option<u32>,
    pub seen: Seen,
    /// For each body atom, in order, the number of the fact that is its tuple.
    pub premises: Items<u32>,
}

impl Drop for FactPart {
    fn drop(self) {
        let FactPart {
            target: _,
            seen: _,
            premises: _,
        } = self;
    }
}
