//! A projection with what it was made of.

ghost use Rattle.std.specs.Prelude.{◌≡◌, IfOk};
ghost use Rattle.model_project.specs.Projection.{IsProjection, projection};

use base::{Copied, Items, Memory};
use lin_atoms::Lit;
use std::alloc::Global;
use std::marker::Model;

/// A conjunction with a model of it, the variables that are kept, and the cube that projects it.
/// Only `project` makes one.
pub struct Projected {
    pub(crate) lits: Items<Lit>,
    pub(crate) model: Items<i64>,
    pub(crate) keep: Items<u32>,
    pub(crate) cube: Items<Lit>,
}

impl Drop for Projected {
    fn drop(self) {
        let Projected {
            lits: _,
            model: _,
            keep: _,
            cube: _,
        } = self;
    }
}

impl Model for Projected {
    ghost use Rattle.std.specs.Prelude.{◌≡◌};
    ghost use Rattle.model_project.specs.Kept.{Kept};
    ghost use Rattle.model_project.specs.Projection.{IsProjection, projection};

    ghost Value = { Kept };

    ghost view = { λ p. record { lits = p.lits; model = p.model; keep = p.keep; cube = p.cube } };

    ghost invariant = { λ p. (p.cube ≡ projection p.model p.keep p.lits) × IsProjection p.lits p.model p.keep p.cube };
}

impl Projected {
    /// The literals over the kept variables, which the model's point satisfies, and of which each
    /// point extends to one of the conjunction.
    pub fn cube(&self) -> &[Lit]
        ensures is { result.now ≡ self.now.cube }
        ensures exact { self.now.cube ≡ projection self.now.model self.now.keep self.now.lits }
        ensures projects { IsProjection self.now.lits self.now.model self.now.keep self.now.cube }
    {
        self.cube.as_slice()
    }

    /// The conjunction.
    pub fn lits(&self) -> &[Lit]
        ensures { result.now ≡ self.now.lits }
    {
        self.lits.as_slice()
    }

    /// The variables that are kept.
    pub fn keep(&self) -> &[u32]
        ensures { result.now ≡ self.now.keep }
    {
        self.keep.as_slice()
    }

    /// The model of the conjunction.
    pub fn model(&self) -> &[i64]
        ensures { result.now ≡ self.now.model }
    {
        self.model.as_slice()
    }

    /// A copy of the projection.
    pub fn copy(&self, alloc: Global) -> Result<Projected, Memory>
        ensures { IfOk result (λ copied. copied ≡ self.now) }
    {
        let lits = self.lits.copy(alloc)?;
        let model = self.model.copy(alloc)?;
        let keep = self.keep.copy(alloc)?;
        let cube = self.cube.copy(alloc)?;
        Ok(Projected {
            lits,
            model,
            keep,
            cube,
        })
    }
}
