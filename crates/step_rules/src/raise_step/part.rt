use base::Items;
use chc_tokens::{NoLift, Shown};

/// A Raise: the book's level is closed, and it goes one higher.
pub struct RaisePart {
    /// For each clause whose head is false, that the frame of the book's level shuts its body out.
    /// At level 0 a clause with a body needs none.
    pub closed: Items<Shown>,
    /// What keeps each lemma below the book's level from being lifted, in the order of their numbers.
    pub kept: Items<NoLift>,
}

impl Drop for RaisePart {
    fn drop(self) {
        let RaisePart { closed: _, kept: _ } = self;
    }
}
