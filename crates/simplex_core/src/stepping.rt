//! One step of the run.

ghost use Rattle.std.specs.Prelude.{◌≡◌, ◌<◌, length, true, IfOk};
ghost use Rattle.int_rows.specs.Rows.{entry};
ghost use Rattle.int_rows.specs.Table.{width};
ghost use Rattle.simplex_core.specs.Answer.{IsEnd, Steps};
ghost use Rattle.simplex_core.specs.Standings.{AreStandings};
ghost use Rattle.simplex_core.specs.Run.{coordinates, crossed, moment, restood, settled, turn};
ghost use Rattle.simplex_core.specs.declared.turn.Turn.TheVariants.{Pivot, Wide};

use crate::answer::{Feasible, WideEvidence};
use crate::bland::turn;
use crate::coordinate::{Coordinate, held};
use crate::ends::{basis, crossing, multipliers, outer, ratios};
use crate::place::values;
use crate::refresh::{changed, refresh};
use crate::standing::Standing;
use crate::turn::{Side, Turn};
use base::Memory;
use int_rows::Tableau;
use std::alloc::Global;

/// Where a column stands that has left the basis.
fn settled(lower: Option<i128>, upper: Option<i128>, side: Side) -> Standing
    ensures { result ≡ settled lower upper side }
{
    match side {
        Side::Lower => Standing::AtLower,
        Side::Upper => match (lower, upper) {
            (Some(l), Some(u)) => {
                if l == u {
                    Standing::AtLower
                } else {
                    Standing::AtUpper
                }
            }
            _ => Standing::AtUpper,
        },
    }
}

/// The standings after a pivot.
fn restand(t: &Tableau, standings: &mut [Standing], leaver: usize, enterer: usize, side: Side)
    requires each { length standings.old ≡ width t.now }
    requires leaver { leaver < width t.now }
    requires enterer { enterer < width t.now }
    ensures { standings.new ≡ restood t.now standings.old leaver enterer side }
{
    standings[leaver] = settled(t.lower(leaver), t.upper(leaver), side);
    standings[enterer] = Standing::Basic;
}

/// A pivot, or the end of the run where a row would have an entry without room.
fn pivot(
    alloc: Global,
    t: &mut Tableau,
    standings: &mut [Standing],
    kept: &mut [Coordinate],
    row: usize,
    column: usize,
    side: Side,
) -> Result<Option<Feasible>, Memory>
    requires legal { AreStandings t.old standings.old }
    requires kept { kept.old ≡ coordinates (moment t.old standings.old) }
    requires turn { turn (moment t.old standings.old) ≡ Pivot row column side }
    ensures steps { Steps (moment t.old standings.old) (moment t.new standings.new) result }
    ensures kept { IfOk result (λ answer. answer ≡ None → kept.new ≡ coordinates (moment t.new standings.new)) }
    ensures ordered { IfOk result (λ answer. answer ≡ None → crossed t.new ≡ None) }
{
    t.table_law();
    let leaver = t.basic(row);
    let marks = changed(alloc, t, standings, column)?;
    restand(t, standings, leaver, column, side);
    let known = values(alloc, t, standings)?;
    let known = known.as_slice();
    let places = held(alloc, known)?;
    match t.pivot(row, column) {
        Ok(()) => {
            refresh(
                t,
                standings,
                known,
                places.as_slice(),
                marks.as_slice(),
                kept,
            );
            Ok(None)
        }
        Err(wide) => {
            let basis = basis(alloc, t, standings)?;
            let entry = wide.entry;
            Ok(Some(Feasible::Wide(WideEvidence::Row { basis, entry })))
        }
    }
}

/// The basic point at which the variable has no room.
fn wide_point(
    alloc: Global,
    t: &Tableau,
    standings: &[Standing],
    column: usize,
) -> Result<Feasible, Memory>
    requires legal { AreStandings t.now standings.now }
    requires turn { turn (moment t.now standings.now) ≡ Wide column }
    ensures { IfOk result (λ answer. IsEnd (moment t.now standings.now) answer) }
{
    let basis = basis(alloc, t, standings)?;
    let outside = outer(alloc, t, standings)?;
    let variable = column as u32;
    Ok(Feasible::Wide(WideEvidence::Coordinate {
        basis,
        outside,
        variable,
    }))
}

/// One step of the run: the next moment, or the answer where it ends. The values of all columns are
/// kept from step to step, and a step that isn't the end has found no bounds crossed, which stays so.
pub(crate) fn step(
    alloc: Global,
    t: &mut Tableau,
    standings: &mut [Standing],
    kept: &mut [Coordinate],
    ordered: bool,
) -> Result<Option<Feasible>, Memory>
    requires legal { AreStandings t.old standings.old }
    requires kept { kept.old ≡ coordinates (moment t.old standings.old) }
    requires ordered { ordered ≡ true → crossed t.old ≡ None }
    ensures steps { Steps (moment t.old standings.old) (moment t.new standings.new) result }
    ensures kept { IfOk result (λ answer. answer ≡ None → kept.new ≡ coordinates (moment t.new standings.new)) }
    ensures ordered { IfOk result (λ answer. answer ≡ None → crossed t.new ≡ None) }
{
    t.table_law();
    match turn(t, standings, kept, ordered) {
        Turn::Crossed { column } => {
            let made = crossing(alloc, t, standings.len(), column)?;
            Ok(Some(Feasible::Conflict(made)))
        }
        Turn::Wide { column } => {
            let made = wide_point(alloc, t, standings, column)?;
            Ok(Some(made))
        }
        Turn::Vertex => {
            let made = ratios(alloc, t, standings, kept)?;
            Ok(Some(Feasible::Vertex(made)))
        }
        Turn::Conflict { row, side } => {
            let made = multipliers(alloc, t, row, side)?;
            Ok(Some(Feasible::Conflict(made)))
        }
        Turn::Pivot { row, column, side } => pivot(alloc, t, standings, kept, row, column, side),
    }
}
