//! The area of a clause at a point.

ghost use Rattle.std.specs.Prelude.{◌≡◌, true, IfOk};
ghost use Rattle.std.specs.List.{list_all};
ghost use Rattle.lin_atoms.specs.Truth.{lit_truth, truth};
ghost use Rattle.cube_forms.specs.Cubes.{cube_at, has_room};
ghost use Rattle.cube_rules.specs.Views.{lemmas_of};
ghost use Rattle.book_rules.specs.Queries.{args_of};
ghost use Rattle.area_literals.specs.Areas.{IsAreaOf, all_accept_on, all_fit_on};

use crate::framing::gather_frames;
use crate::gathering::{add_cube, gather};
use base::Memory;
use clause_form::Clause;
use cube_forms::Cube;
use lemma_frames::Frames;
use lin_atoms::Lit;
use std::alloc::Global;

/// Literals that are true at the point, and that imply the clause's guard, that its head lies in the
/// cube, and that its body is in the frame of level k: those of the guard come first, then the cube's
/// at the head, then those of the frame's lemmas on the body. All of these are true at the point, and
/// their numbers have room there.
pub fn area(
    alloc: Global,
    clause: &Clause,
    cube: &Cube,
    frames: &Frames,
    k: u32,
    point: &[i64],
) -> Result<Vec<Lit>, Memory>
    requires guard { truth point.now clause.now.guard ≡ true }
    requires head_room { has_room (args_of clause.now.head) cube.now ≡ true }
    requires head { list_all (lit_truth point.now) (cube_at (args_of clause.now.head) cube.now) ≡ true }
    requires room { list_all (all_fit_on k (lemmas_of frames.now.lemmas)) clause.now.atoms ≡ true }
    requires holds { list_all (all_accept_on k point.now (lemmas_of frames.now.lemmas)) clause.now.atoms ≡ true }
    ensures { IfOk result (λ lits. IsAreaOf clause.now cube.now (lemmas_of frames.now.lemmas) k point.now lits.items) }
{
    let mut lits = Vec::new(alloc);
    gather(alloc, &mut lits, &clause.guard, point)?;
    add_cube(alloc, &mut lits, cube, &clause.head, point)?;
    gather_frames(alloc, &mut lits, frames, k, clause.atoms.as_slice(), point)?;
    Ok(lits)
}
