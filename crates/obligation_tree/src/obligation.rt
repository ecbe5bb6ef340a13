ghost use Rattle.std.specs.Prelude.{◌≡◌, IfOk};

use base::{Copied, Memory};
use cube_forms::{Cube, Tuple};
use std::alloc::Global;

/// A question of the search: is a tuple of the cube derivable within `level` steps? The point is one
/// that nothing has excluded yet. The root asks it of false, at the level above the closed one; every
/// other obligation asks it of one body atom, for its parent.
pub struct Obligation {
    /// The predicate, `None` for false.
    pub pred: Option<u32>,
    /// Within how many steps.
    pub level: u32,
    /// The tuples that would serve the parent.
    pub cube: Cube,
    /// A tuple of the cube.
    pub point: Tuple,
    /// The number of the obligation that it serves; the root's own is 0.
    pub parent: u32,
    /// The clause by which it serves it.
    pub clause: u32,
    /// The body atom of that clause which it stands for.
    pub atom: u32,
}

impl Drop for Obligation {
    fn drop(self) {
        let Obligation {
            pred: _,
            level: _,
            cube: _,
            point: _,
            parent: _,
            clause: _,
            atom: _,
        } = self;
    }
}

impl Obligation {
    /// The obligation's question at another level.
    pub(crate) fn at_level(&self, alloc: Global, level: u32) -> Result<Obligation, Memory>
        ensures { IfOk result (λ other. other ≡ record self.now { level = level }) }
    {
        Ok(Obligation {
            pred: self.pred,
            level,
            cube: self.cube.copy(alloc)?,
            point: self.point.copy(alloc)?,
            parent: self.parent,
            clause: self.clause,
            atom: self.atom,
        })
    }
}
