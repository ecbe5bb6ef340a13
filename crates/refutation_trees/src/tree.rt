ghost use Rattle.std.specs.Prelude.{◌≡◌, IfOk};

use crate::copying::copied;
use base::{Boxed, Copied, Items, Memory};
use lin_atoms::Lin;
use std::alloc::Global;

/// A proof that literals and open disjunctions have no common integer point. Each node speaks of
/// the literals, by their numbers, that stand where it stands.
pub enum Refutation {
    /// A combination of literals that is a number above 0, and so not at most 0 (Farkas).
    Leaf {
        multipliers: Items<(u32, i64)>,
    },
    /// A combination of literals, divided and rounded up (Chvátal, Gomory): a new literal.
    Round {
        multipliers: Items<(u32, i64)>,
        divisor: i64,
        sub: Boxed<Refutation>,
    },
    /// A form is at most 0, or at least 1.
    Split {
        lin: Lin,
        below: Boxed<Refutation>,
        above: Boxed<Refutation>,
    },
    /// Each part of an open disjunction.
    Cases {
        which: u32,
        subs: Items<Refutation>,
    },
    /// The literal says that a number divides a form, or doesn't: the quotient gets a name.
    Quotient {
        lit: u32,
        sub: Boxed<Refutation>,
    },
}

/// Frees a chain of nodes by a loop, however long it is.
impl Drop for Refutation {
    fn drop(mut self) {
        loop {
            match self {
                Refutation::Leaf { multipliers: _ } => return,
                Refutation::Round {
                    multipliers: _,
                    divisor: _,
                    sub,
                } => self = sub.into_inner(),
                Refutation::Split {
                    lin: _,
                    below,
                    above,
                } => {
                    let low = below.into_inner();
                    let high = above.into_inner();
                    if low.is_chain() {
                        self = high;
                    } else {
                        self = low;
                    }
                }
                Refutation::Cases { which: _, mut subs } => {
                    let last = subs.pop();
                    drop(subs);
                    match last {
                        Some(sub) => self = sub,
                        None => return,
                    }
                }
                Refutation::Quotient { lit: _, sub } => self = sub.into_inner(),
            }
        }
    }
}

impl Refutation {
    /// Whether no node has more than one sub.
    fn is_chain(&self) -> bool {
        let mut tree = self;
        loop {
            match tree {
                Refutation::Leaf { .. } => return true,
                Refutation::Round { sub, .. } => tree = sub.get(),
                Refutation::Quotient { sub, .. } => tree = sub.get(),
                _ => return false,
            }
        }
    }

    /// An equal tree.
    pub fn copy(&self, alloc: Global) -> Result<Refutation, Memory>
        ensures { IfOk result (λ copied. copied ≡ self.now) }
    {
        copied(alloc, self)
    }
}

/// Hands the method on, so that lists and boxes of trees are copied too.
impl Copied for Refutation {
    fn copy(&self, alloc: Global) -> Result<Refutation, Memory> {
        Refutation::copy(self, alloc)
    }
}
