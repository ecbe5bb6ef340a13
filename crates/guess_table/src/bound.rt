//! A bound of a part, and what was asked about it.

use crate::forms::{copied, push_copies, value_at};
use base::Memory;
use cube_forms::{Cube, CubeStop, Lemma, negate};
use lin_atoms::{Lin, Lit};
use std::alloc::Global;

/// How far a bound has risen.
#[derive(Clone, Copy)]
pub enum Limit {
    /// No tuple meets the condition, as far as is known.
    Nothing,
    At(i64),
    /// The bound was given up.
    Top,
}

/// A bound that a query was refuted with.
#[derive(Clone, Copy)]
pub struct Use {
    pub bound: usize,
    /// The body atom on which it was used.
    pub atom: usize,
    /// The bound's version then.
    pub version: u32,
}

/// What an arm refuted a bound's cube with.
pub struct Memo {
    pub arm: usize,
    pub version: u32,
    pub uses: Vec<Use>,
}

impl Drop for Memo {
    fn drop(self) {
        let Memo {
            arm: _,
            version: _,
            uses: _,
        } = self;
    }
}

/// Each tuple that meets the condition has a value of the part up to the limit. A part without terms
/// says that no tuple meets the condition.
pub struct Bound {
    pub pred: u32,
    pub condition: Vec<Lit>,
    pub part: Lin,
    /// The bound of the same part without a condition.
    pub plain: Option<usize>,
    pub limit: Limit,
    /// The denial of what the bound excludes, if it excludes something.
    pub lemma: Option<Lemma>,
    /// How often it has changed.
    pub version: u32,
    /// How often queries about it had a model.
    pub rises: u32,
    pub memos: Vec<Memo>,
}

impl Drop for Bound {
    fn drop(self) {
        let Bound {
            pred: _,
            condition: _,
            part: _,
            plain: _,
            limit: _,
            lemma: _,
            version: _,
            rises: _,
            memos: _,
        } = self;
    }
}

/// The lemma that denies these literals, where numbers have room.
fn denying(alloc: Global, lits: Vec<Lit>) -> Result<Option<Lemma>, Memory> {
    match Cube::new(alloc, lits) {
        Ok(cube) => Ok(Some(negate(alloc, &cube)?)),
        Err(CubeStop::Wide) => Ok(None),
        Err(CubeStop::Memory) => Err(Memory),
    }
}

/// The form that is at most 0 where the part passes the limit.
fn passing(alloc: Global, part: &Lin, limit: i64) -> Result<Option<Lin>, Memory> {
    match limit.checked_add(1) {
        Some(more) => Ok(part.negated(alloc)?.plus(more)),
        None => Ok(None),
    }
}

/// The condition, and that the form is at most 0.
fn with_bound(alloc: Global, condition: &[Lit], lin: Lin) -> Result<Vec<Lit>, Memory> {
    let mut lits = Vec::new(alloc);
    push_copies(alloc, &mut lits, condition)?;
    lits.push(Lit::Le(lin))?;
    Ok(lits)
}

fn lemma_at(
    alloc: Global,
    condition: &[Lit],
    part: &Lin,
    limit: i64,
) -> Result<Option<Lemma>, Memory> {
    match passing(alloc, part, limit)? {
        Some(lin) => denying(alloc, with_bound(alloc, condition, lin)?),
        None => Ok(None),
    }
}

/// What the bound denies.
fn lemma_of(
    alloc: Global,
    condition: &[Lit],
    part: &Lin,
    limit: Limit,
) -> Result<Option<Lemma>, Memory> {
    match limit {
        Limit::Nothing => {
            if part.terms().len() > 0 {
                return Ok(None);
            }
            denying(alloc, copied(alloc, condition)?)
        }
        Limit::At(limit) => lemma_at(alloc, condition, part, limit),
        Limit::Top => Ok(None),
    }
}

/// Whether each literal is true at the tuple.
fn all_hold(lits: &[Lit], tuple: &[i64]) -> bool {
    for lit in lits {
        if !lit.holds(tuple) {
            return false;
        }
    }
    true
}

/// Adds the bound of the part under the condition, before a tuple was met.
pub(crate) fn push_bound(
    alloc: Global,
    bounds: &mut Vec<Bound>,
    pred: u32,
    condition: Vec<Lit>,
    part: Lin,
    plain: Option<usize>,
) -> Result<(), Memory> {
    let lemma = lemma_of(alloc, condition.as_slice(), &part, Limit::Nothing)?;
    bounds.push(Bound {
        pred,
        condition,
        part,
        plain,
        limit: Limit::Nothing,
        lemma,
        version: 0,
        rises: 0,
        memos: Vec::new(alloc),
    })?;
    Ok(())
}

impl Bound {
    /// The limit that the tuple asks for, if the bound is lower.
    pub(crate) fn wanted(&self, tuple: &[i64]) -> Option<Limit> {
        if !all_hold(self.condition.as_slice(), tuple) {
            return None;
        }
        if self.part.terms().len() == 0 {
            return match self.limit {
                Limit::Nothing => Some(Limit::Top),
                _ => None,
            };
        }
        let value = match value_at(&self.part, tuple) {
            Some(value) => value,
            None => return Some(Limit::Top),
        };
        match self.limit {
            Limit::Nothing => Some(Limit::At(value)),
            Limit::At(limit) => {
                if value > limit {
                    Some(Limit::At(value))
                } else {
                    None
                }
            }
            Limit::Top => None,
        }
    }

    /// Puts the limit up: it then excludes what passes this one, and has a new version. Without memory nothing
    /// changes.
    pub fn put(&mut self, alloc: Global, limit: Limit) -> Result<(), Memory> {
        let lemma = lemma_of(alloc, self.condition.as_slice(), &self.part, limit)?;
        self.lemma = lemma;
        self.limit = limit;
        self.version = self.version.saturating_add(1);
        Ok(())
    }

    /// Whether the bound excludes the tuple.
    pub(crate) fn excludes(&self, tuple: &[i64]) -> bool {
        match &self.lemma {
            Some(lemma) => lemma.excludes(tuple),
            None => false,
        }
    }
}

/// Where the bounds of a predicate begin: they stand in the order of their predicates. The bound before that place
/// is one of an earlier predicate, and that at the place isn't.
pub fn first_of(bounds: &[Bound], pred: u32) -> usize {
    let (mut low, mut high) = (0, bounds.len());
    while low < high {
        let middle = low + (high - low) / 2;
        if bounds[middle].pred < pred {
            low = middle + 1;
        } else {
            high = middle;
        }
    }
    low
}

/// Whether the first of two limits that are known is as low as the second.
fn is_as_low(one: Limit, other: Limit) -> bool {
    match one {
        Limit::Nothing => false,
        Limit::At(least) => match other {
            Limit::Nothing => false,
            Limit::At(limit) => least <= limit,
            Limit::Top => false,
        },
        Limit::Top => false,
    }
}

/// Whether a bound without the condition says as much.
fn is_needless(bounds: &[Bound], bound: &Bound) -> bool {
    match bound.plain {
        Some(plain) => match bounds.get(plain) {
            Some(other) => is_as_low(other.limit, bound.limit),
            None => false,
        },
        None => false,
    }
}

/// Whether the bound excludes something that no other one does.
pub fn stands(bounds: &[Bound], bound: &Bound) -> bool {
    bound.lemma.is_some() && !is_needless(bounds, bound)
}
