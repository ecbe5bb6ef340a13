//! Cubes that are tried in a lemma's place.

ghost use Rattle.std.specs.Prelude.{◌≡◌, ◌<◌, length, IfOk, OnOk};
ghost use Rattle.book_rules.specs.Places.{is_over};
ghost use Rattle.obligation_turn.specs.Turns.{GoesOn};
ghost use Rattle.step_rules.specs.Standing.{Standing};
ghost use Rattle.lemma_general.specs.Generals.{IsLearnt};
ghost use Rattle.lemma_general.specs.Tries.{IsTried, IsTrying, may_replace, part_of};

use crate::breaking::Breaking;
use crate::dropping::take;
use base::{Items, Memory};
use clause_index::IndexedSystem;
use cube_forms::Cube;
use cube_rules::is_wide;
use std::alloc::Global;
use step_rules::{LemmaPart, Lent};

/// A lemma in whose place cubes are tried, with the instances that kept some of them out. It is for one
/// book, as it stood when the lemma was learnt.
#[derive(Drop)]
pub struct Tries {
    pub(crate) part: LemmaPart,
    pub(crate) met: Items<Breaking>,
}

/// Whether the predicate is there, and has each place of the cube.
pub(crate) fn is_over(sys: &IndexedSystem, pred: u32, cube: &Cube) -> bool
    ensures { result ≡ is_over sys.now.preds pred cube.now }
{
    match sys.preds().get(pred as usize) {
        Some(sorts) => cube.is_below(sorts.len()),
        None => false,
    }
}

/// Whether the cube may stand in the lemma's place: it is over its predicate, its coefficients are
/// below 2^54 in magnitude, and it holds the point of its obligation.
fn may_replace(lent: &Lent, part: &LemmaPart, cube: &Cube) -> bool
    requires there { part.now.target < length lent.now.tree.nodes }
    ensures { result ≡ may_replace lent.now part.now cube.now }
{
    let obligation = lent.tree.obligation(part.target);
    is_over(lent.system, part.pred, cube)
        && !is_wide(cube.lits())
        && cube.holds(obligation.point.as_slice())
}

impl Tries {
    /// No cube has been tried yet.
    pub fn new(alloc: Global, part: LemmaPart) -> Tries
        ensures part { part_of result ≡ part }
        ensures trying { (b : Standing) → IsLearnt b part → IsTrying b result }
    {
        Tries {
            part,
            met: Items::new(alloc),
        }
    }

    /// Takes the cube in the lemma's place where it may stand there and the frame below implies so, or
    /// does with the lemma of the cube itself: for the same obligation, at the same level. An instance that keeps it out is kept, and so keeps out
    /// later cubes without a query.
    pub fn try_cube(&mut self, lent: &Lent, cube: &Cube, nodes: u32) -> Result<bool, Memory>
        requires goes_on { GoesOn lent.now }
        requires trying { IsTrying lent.now self.old }
        requires some { 0 < nodes }
        ensures trying { OnOk result (IsTrying lent.now self.new) }
        ensures tried { IfOk result (IsTried lent.now nodes cube.now (part_of self.old) (part_of self.new)) }
    {
        if !may_replace(lent, &self.part, cube) {
            return Ok(false);
        }
        take(lent, &mut self.part, &mut self.met, cube, nodes)
    }

    /// The lemma as it stands now.
    pub fn part(&self) -> &LemmaPart
        ensures { result.now ≡ part_of self.now }
    {
        &self.part
    }

    /// The lemma as it stands in the end, where no more is tried.
    pub fn into_part(self) -> LemmaPart
        ensures { result ≡ part_of self }
    {
        self.part
    }
}
