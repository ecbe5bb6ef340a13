//! The values of the columns at a moment of the run.

ghost use Rattle.std.specs.Prelude.{◌≡◌, ◌<◌, ◌^◌, length, map, nat_abs, true, slice_set, IfOk, OnOk};
ghost use Rattle.std.specs.List.{list_all, range_with_len};
ghost use Rattle.base.specs.Widths.{long_limit};
ghost use Rattle.lin_atoms.specs.Linear.{is_long};
ghost use Rattle.int_rows.specs.Basis.{is_in};
ghost use Rattle.int_rows.specs.Table.{basic_at, row_at, width};
ghost use Rattle.simplex_core.specs.Coordinate.{coordinate, held};
ghost use Rattle.simplex_core.specs.Standings.{AreStandings};
ghost use Rattle.simplex_core.specs.machinery.Filled.{integer, outer_standing_at};
ghost use Rattle.simplex_core.specs.Run.{coordinate_at, coordinates, first_standing, first_standings, moment, row_of, stood_at, values};
ghost use Rattle.simplex_core.specs.declared.standing.Standing.TheVariants.{Basic};

use crate::coordinate::{Coordinate, held};
use crate::standing::Standing;
use base::Memory;
use int_rows::Tableau;
use std::alloc::Global;

/// How many columns there are. As many as 2^32 count as want of memory.
pub(crate) fn width(t: &Tableau) -> Result<usize, Memory>
    ensures is { IfOk result (λ columns. columns ≡ width t.now) }
    ensures few { OnOk result (width t.now < 2 ^ 32) }
{
    match t.columns().checked_add(t.rows()) {
        None => Err(Memory),
        Some(columns) => {
            if columns >= 1 << 32 {
                Err(Memory)
            } else {
                Ok(columns)
            }
        }
    }
}

/// The row in which a basic column is basic.
pub(crate) fn row_of(t: &Tableau, column: usize) -> usize
    ensures is { result ≡ row_of t.now.basic column }
    ensures within { is_in t.now.basic column ≡ true → result < length t.now.rows }
{
    t.table_law();
    for row in 0..t.rows() {
        if t.basic(row) == column {
            return row;
        }
    }
    t.rows()
}

/// Where a column outside the basis stands first.
fn first_standing(lower: Option<i128>, upper: Option<i128>) -> Standing
    ensures { result ≡ first_standing lower upper }
{
    if lower.is_some() {
        Standing::AtLower
    } else if upper.is_some() {
        Standing::AtUpper
    } else {
        Standing::AtZero
    }
}

/// Where each column would stand first outside the basis.
fn outer_standings(alloc: Global, t: &Tableau, columns: usize) -> Result<Vec<Standing>, Memory>
    requires { columns ≡ width t.now }
    ensures { IfOk result (λ made. made.items ≡ map (outer_standing_at t.now) (range_with_len 0 columns)) }
{
    let mut made = Vec::with_capacity(alloc, columns)?;
    for column in 0..columns {
        made.push(first_standing(t.lower(column), t.upper(column)))?;
    }
    Ok(made)
}

/// Puts the column in the basis.
fn put_basic(made: &mut Vec<Standing>, column: usize)
    requires { column < length made.old.items }
    ensures { made.new.items ≡ slice_set made.old.items column Basic }
{
    made[column] = Standing::Basic;
}

/// Where the columns stand first.
pub(crate) fn first_standings(
    alloc: Global,
    t: &Tableau,
    columns: usize,
) -> Result<Vec<Standing>, Memory>
    requires columns { columns ≡ width t.now }
    requires few { columns < 2 ^ 32 }
    ensures is { IfOk result (λ made. made.items ≡ first_standings t.now) }
    ensures legal { IfOk result (λ made. AreStandings t.now made.items) }
{
    t.table_law();
    let mut made = outer_standings(alloc, t, columns)?;
    let mut row = t.rows();
    'put: while row > 0 {
        row -= 1;
        put_basic(&mut made, t.basic(row));
    }
    Ok(made)
}

/// The value of a column outside the basis, and 0 for a basic one.
pub(crate) fn stood_at(t: &Tableau, standings: &[Standing], column: usize) -> i128
    requires each { length standings.now ≡ width t.now }
    requires column { column < width t.now }
    ensures is { result ≡ stood_at (moment t.now standings.now) column }
    ensures long { nat_abs result < long_limit }
{
    t.table_law();
    match standings[column] {
        Standing::Basic => 0,
        Standing::AtLower => t.lower(column).unwrap_or(0),
        Standing::AtUpper => t.upper(column).unwrap_or(0),
        Standing::AtZero => 0,
    }
}

/// The values of the columns outside the basis, and 0 for each basic one.
pub(crate) fn values(
    alloc: Global,
    t: &Tableau,
    standings: &[Standing],
) -> Result<Vec<i128>, Memory>
    requires { length standings.now ≡ width t.now }
    ensures is { IfOk result (λ made. made.items ≡ values (moment t.now standings.now)) }
    ensures long { IfOk result (λ made. list_all is_long made.items ≡ true) }
{
    let mut made = Vec::with_capacity(alloc, standings.len())?;
    for column in 0..standings.len() {
        made.push(stood_at(t, standings, column))?;
    }
    Ok(made)
}

/// The value that its row gives a basic column.
fn row_value(t: &Tableau, values: &[i128], places: &[usize], row: usize) -> Coordinate
    requires row { row < length t.now.rows }
    requires each { length values.now ≡ width t.now }
    requires few { width t.now < 2 ^ 32 }
    requires long { list_all is_long values.now ≡ true }
    requires places { places.now ≡ held values.now }
    ensures { result ≡ coordinate (row_at t.now.rows row) values.now (basic_at t.now.basic row) }
{
    t.table_law();
    Coordinate::basic(t.row(row), values, places, t.basic(row))
}

/// The value of a column.
pub(crate) fn coordinate_at(
    t: &Tableau,
    standings: &[Standing],
    known: &[i128],
    places: &[usize],
    column: usize,
) -> Coordinate
    requires legal { AreStandings t.now standings.now }
    requires known { known.now ≡ values (moment t.now standings.now) }
    requires long { list_all is_long known.now ≡ true }
    requires places { places.now ≡ held known.now }
    requires column { column < width t.now }
    ensures { result ≡ coordinate_at (moment t.now standings.now) column }
{
    match standings[column] {
        Standing::Basic => row_value(t, known, places, row_of(t, column)),
        Standing::AtLower => Coordinate::integer(stood_at(t, standings, column)),
        Standing::AtUpper => Coordinate::integer(stood_at(t, standings, column)),
        Standing::AtZero => Coordinate::integer(stood_at(t, standings, column)),
    }
}

/// The values as coordinates of columns outside the basis.
fn outer_coordinates(alloc: Global, values: &[i128]) -> Result<Vec<Coordinate>, Memory>
    requires { list_all is_long values.now ≡ true }
    ensures { IfOk result (λ made. made.items ≡ map integer values.now) }
{
    let mut made = Vec::with_capacity(alloc, values.len())?;
    for value in values {
        made.push(Coordinate::integer(*value))?;
    }
    Ok(made)
}

/// Puts a value in the place of another.
fn put_coordinate(made: &mut Vec<Coordinate>, column: usize, value: Coordinate)
    requires { column < length made.old.items }
    ensures { made.new.items ≡ slice_set made.old.items column value }
{
    made[column] = value;
}

/// The values of all columns.
pub(crate) fn coordinates(
    alloc: Global,
    t: &Tableau,
    standings: &[Standing],
) -> Result<Vec<Coordinate>, Memory>
    requires { AreStandings t.now standings.now }
    ensures { IfOk result (λ made. made.items ≡ coordinates (moment t.now standings.now)) }
{
    t.table_law();
    let values = values(alloc, t, standings)?;
    let values = values.as_slice();
    let places = held(alloc, values)?;
    let mut made = outer_coordinates(alloc, values)?;
    let mut row = t.rows();
    'put: while row > 0 {
        row -= 1;
        let value = row_value(t, values, places.as_slice(), row);
        put_coordinate(&mut made, t.basic(row), value);
    }
    Ok(made)
}
