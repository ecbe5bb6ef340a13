use base::{Copied, Items, Memory};
use std::alloc::Global;

/// An instance of a clause: a value below 2^63 in magnitude for each of its variables, at which the
/// guard holds. Only `seen` makes one.
pub struct Seen {
    pub(crate) clause: u32,
    pub(crate) point: Items<i64>,
}

impl Drop for Seen {
    fn drop(self) {
        let Seen {
            clause: _,
            point: _,
        } = self;
    }
}

impl Seen {
    ghost use Rattle.std.specs.Prelude.{◌≡◌};
    ghost use Rattle.chc_tokens.specs.Kept.{seen_clause, seen_point};

    /// The number of the clause.
    pub fn clause(&self) -> u32
        ensures { result ≡ seen_clause self.now }
    {
        self.clause
    }

    /// The value of each variable, in the order of their numbers.
    pub fn point(&self) -> &[i64]
        ensures { result.now ≡ seen_point self.now }
    {
        self.point.as_slice()
    }
}

impl Copied for Seen {
    fn copy(&self, alloc: Global) -> Result<Seen, Memory> {
        let point = self.point.copy(alloc)?;
        Ok(Seen {
            clause: self.clause,
            point,
        })
    }
}
