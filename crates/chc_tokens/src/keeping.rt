use crate::why::Why;
use base::{Copied, Memory};
use cube_forms::Lemma;
use std::alloc::Global;

/// A lemma with what keeps it from being lifted. Only `no_lift` makes one.
pub struct NoLift {
    pub(crate) lemma: Lemma,
    pub(crate) why: Why,
}

impl Drop for NoLift {
    fn drop(self) {
        let NoLift { lemma: _, why: _ } = self;
    }
}

impl NoLift {
    ghost use Rattle.std.specs.Prelude.{◌≡◌};
    ghost use Rattle.chc_tokens.specs.Kept.{kept_lemma, kept_why};

    /// The lemma.
    pub fn lemma(&self) -> &Lemma
        ensures { result.now ≡ kept_lemma self.now }
    {
        &self.lemma
    }

    /// What keeps it from being lifted.
    pub fn why(&self) -> &Why
        ensures { result.now ≡ kept_why self.now }
    {
        &self.why
    }
}

impl Copied for NoLift {
    fn copy(&self, alloc: Global) -> Result<NoLift, Memory> {
        let lemma = self.lemma.copy(alloc)?;
        let why = self.why.copy(alloc)?;
        Ok(NoLift { lemma, why })
    }
}
