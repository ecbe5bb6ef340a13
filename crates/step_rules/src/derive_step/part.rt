use base::Items;
use chc_tokens::Seen;

/// A Derive: the head of an instance, whose body atoms are recorded, for no obligation.
pub struct DerivePart {
    pub seen: Seen,
    /// For each body atom, in order, the number of the fact that is its tuple.
    pub premises: Items<u32>,
}

impl Drop for DerivePart {
    fn drop(self) {
        let DerivePart {
            seen: _,
            premises: _,
        } = self;
    }
}
