//! The values of the columns after a pivot: those that it changes are taken anew.

ghost use Rattle.std.specs.Prelude.{◌≡◌, ◌<◌, ◌==◌, ℕ, length, nat_abs, not, true, false, slice_index_or, slice_set, IfOk, if◌then◌else◌};
ghost use Rattle.std.specs.List.{list_all};
ghost use Rattle.lin_atoms.specs.Linear.{is_long};
ghost use Rattle.lin_atoms.specs.Ratio.{Fraction};
ghost use Rattle.int_rows.specs.Rows.{entry};
ghost use Rattle.int_rows.specs.Table.{row_at, width};
ghost use Rattle.simplex_core.specs.Coordinate.{held};
ghost use Rattle.simplex_core.specs.Standings.{AreStandings};
ghost use Rattle.simplex_core.specs.machinery.Refresh.{changes};
ghost use Rattle.simplex_core.specs.Run.{coordinate_at, coordinates, moment, values};

use crate::coordinate::Coordinate;
use crate::place::coordinate_at;
use crate::standing::Standing;
use base::Memory;
use int_rows::Tableau;
use std::alloc::Global;

/// Whether the row has the column.
fn has(t: &Tableau, row: usize, column: usize) -> bool
    requires row { row < length t.now.rows }
    requires column { column < width t.now }
    ensures { result ≡ not (nat_abs (entry (row_at t.now.rows row) column) == 0) }
{
    t.entry(row, column) != 0
}

/// Marks a column where it is to be marked.
fn mark(made: &mut Vec<bool>, column: usize, keep: bool)
    requires { column < length made.old.items }
    ensures { made.new.items ≡ (if keep then slice_set made.old.items column true else made.old.items) }
{
    if keep {
        made[column] = true;
    }
}

/// Marks the columns that a pivot on the column may change.
pub(crate) fn changed(
    alloc: Global,
    t: &Tableau,
    standings: &[Standing],
    column: usize,
) -> Result<Vec<bool>, Memory>
    requires legal { AreStandings t.now standings.now }
    requires column { column < width t.now }
    ensures long { IfOk result (λ made. length made.items ≡ width t.now) }
    ensures others { IfOk result (λ made. (c : ℕ) → c < width t.now → slice_index_or made.items c false ≡ false → changes t.now column c ≡ false) }
{
    t.table_law();
    let mut made = vec![in alloc; false; standings.len()]?;
    for row in 0..t.rows() {
        mark(&mut made, t.basic(row), has(t, row, column));
    }
    mark(&mut made, column, true);
    Ok(made)
}

/// Puts a value in the place of another.
fn put(kept: &mut [Coordinate], column: usize, value: Coordinate)
    requires { column < length kept.old }
    ensures { kept.new ≡ slice_set kept.old column value }
{
    kept[column] = value;
}

/// Takes a column's value anew where it is marked.
fn renew(
    t: &Tableau,
    standings: &[Standing],
    known: &[i128],
    places: &[usize],
    mark: bool,
    kept: &mut [Coordinate],
    column: usize,
)
    requires legal { AreStandings t.now standings.now }
    requires known { known.now ≡ values (moment t.now standings.now) }
    requires long { list_all is_long known.now ≡ true }
    requires places { places.now ≡ held known.now }
    requires column { column < width t.now }
    requires each { column < length kept.old }
    ensures { kept.new ≡ (if mark then slice_set kept.old column (coordinate_at (moment t.now standings.now) column) else kept.old) }
{
    if mark {
        put(
            kept,
            column,
            coordinate_at(t, standings, known, places, column),
        );
    }
}

/// Takes the values of the marked columns anew, where those of all others are as they were.
pub(crate) fn refresh(
    t: &Tableau,
    standings: &[Standing],
    known: &[i128],
    places: &[usize],
    marks: &[bool],
    kept: &mut [Coordinate],
)
    requires legal { AreStandings t.now standings.now }
    requires known { known.now ≡ values (moment t.now standings.now) }
    requires long { list_all is_long known.now ≡ true }
    requires places { places.now ≡ held known.now }
    requires marks { length marks.now ≡ width t.now }
    requires each { length kept.old ≡ width t.now }
    requires others { (c : ℕ) (d : Fraction) → c < width t.now → slice_index_or marks.now c false ≡ false → slice_index_or kept.old c d ≡ coordinate_at (moment t.now standings.now) c }
    ensures { kept.new ≡ coordinates (moment t.now standings.now) }
{
    for (column, mark) in marks.iter().enumerate() {
        renew(t, standings, known, places, *mark, kept, column);
    }
}
