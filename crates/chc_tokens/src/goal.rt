use base::{Copied, Memory, Same};
use cube_forms::Lemma;
use std::alloc::Global;

/// What a query asks of a clause beside its guard.
pub enum Goal {
    /// Nothing more: whether the clause has an instance. It is what is asked of a clause whose head
    /// is false.
    Query,
    /// Whether the clause has an instance whose head's tuple breaks the lemma: the lemma's cube holds
    /// it.
    Holds(Lemma),
}

impl Drop for Goal {
    fn drop(self) {
        match self {
            Goal::Query => {}
            Goal::Holds(_) => {}
        }
    }
}

impl Same for Goal {
    fn equals(&self, other: &Goal) -> bool {
        match (self, other) {
            (Goal::Query, Goal::Query) => true,
            (Goal::Holds(this), Goal::Holds(that)) => this.equals(that),
            _ => false,
        }
    }
}

impl Copied for Goal {
    fn copy(&self, alloc: Global) -> Result<Goal, Memory> {
        match self {
            Goal::Query => Ok(Goal::Query),
            Goal::Holds(lemma) => Ok(Goal::Holds(lemma.copy(alloc)?)),
        }
    }
}
