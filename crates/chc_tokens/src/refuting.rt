use crate::goal::Goal;
use crate::used::Used;
use base::{Copied, Items, Memory};
use farkas_proof::Refuted;
use std::alloc::Global;

/// A query of one clause that no integer point satisfies, with the proof. Where the goal is a lemma,
/// each instance of the clause whose body atoms the used lemmas accept has a head that satisfies it.
/// Only `shown` and `shown_by` make one.
pub struct Shown {
    pub(crate) clause: u32,
    pub(crate) goal: Goal,
    pub(crate) used: Items<Used>,
    pub(crate) proof: Refuted,
}

impl Drop for Shown {
    fn drop(self) {
        let Shown {
            clause: _,
            goal: _,
            used: _,
            proof: _,
        } = self;
    }
}

impl Shown {
    ghost use Rattle.std.specs.Prelude.{◌≡◌};
    ghost use Rattle.chc_tokens.specs.Kept.{shown_clause, shown_goal, shown_proof, shown_used};

    /// The number of the clause.
    pub fn clause(&self) -> u32
        ensures { result ≡ shown_clause self.now }
    {
        self.clause
    }

    /// What was asked beside the guard.
    pub fn goal(&self) -> &Goal
        ensures { result.now ≡ shown_goal self.now }
    {
        &self.goal
    }

    /// The lemmas on body atoms, in the order in which they were asked.
    pub fn used(&self) -> &[Used]
        ensures { result.now ≡ shown_used self.now }
    {
        self.used.as_slice()
    }

    /// The proof.
    pub fn proof(&self) -> &Refuted
        ensures { result.now ≡ shown_proof self.now }
    {
        &self.proof
    }
}

impl Copied for Shown {
    fn copy(&self, alloc: Global) -> Result<Shown, Memory> {
        let goal = self.goal.copy(alloc)?;
        let used = self.used.copy(alloc)?;
        let proof = self.proof.copy(alloc)?;
        Ok(Shown {
            clause: self.clause,
            goal,
            used,
            proof,
        })
    }
}
