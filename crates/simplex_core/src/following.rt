//! The run from a tableau, followed to its end.

ghost use Rattle.std.specs.Prelude.{◌≡◌, ◌<◌, ◌^◌, IfOk};
ghost use Rattle.int_rows.specs.Space.{SameSpace};
ghost use Rattle.int_rows.specs.Table.{width};
ghost use Rattle.simplex_core.specs.Answer.{IsRun};
ghost use Rattle.simplex_core.specs.Meaning.{HasSameBounds, HasShortFloors, Means};

use crate::answer::Feasible;
use crate::place::{coordinates, first_standings, width};
use crate::stepping::step;
use base::Memory;
use int_rows::Tableau;
use std::alloc::Global;

/// Follows the run to its end. No moment comes twice, and there are finitely many, so it has one.
fn follow(alloc: Global, t: &mut Tableau, columns: usize) -> Result<Feasible, Memory>
    requires columns { columns ≡ width t.old }
    requires few { width t.old < 2 ^ 32 }
    ensures { IsRun t.old t.new result }
{
    t.table_law();
    let mut standings = match first_standings(alloc, t, columns) {
        Ok(standings) => standings,
        Err(stop) => return Err(stop),
    };
    let begun = standings.as_slice();
    let mut kept = match coordinates(alloc, t, begun) {
        Ok(kept) => kept,
        Err(stop) => return Err(stop),
    };
    let mut ordered = false;
    'run: loop {
        if let Some(answer) = step(
            alloc,
            t,
            standings.as_mut_slice(),
            kept.as_mut_slice(),
            ordered,
        )? {
            return Ok(answer);
        }
        ordered = true;
    }
}

/// Whether the equations of a tableau have a solution within all bounds: follows the run of the
/// simplex from the tableau under the rule of the least number. It ends with the values of a vertex,
/// with multipliers of bounds that contradict, or with a number without room. The tableau is then
/// that of the last moment: it has the same solutions and bounds, so a later call goes on from there.
/// A tableau with 2^32 columns or more counts as want of memory.
pub fn feasible(alloc: Global, t: &mut Tableau) -> Result<Feasible, Memory>
    ensures run { IsRun t.old t.new result }
    ensures means { IfOk result (λ answer. Means t.old answer) }
    ensures floors { IfOk result (λ answer. HasShortFloors t.old answer) }
    ensures space { SameSpace t.old.rows t.new.rows }
    ensures bounds { HasSameBounds t.old t.new }
{
    t.table_law();
    match width(t) {
        Ok(columns) => {
            let answer = follow(alloc, t, columns);
            answer
        }
        Err(stop) => Err(stop),
    }
}
