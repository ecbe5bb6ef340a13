//! What a moment of the run is: which column leaves, which enters, or which end it is.

ghost use Rattle.std.specs.Prelude.{◌≡◌, ◌<◌, ◌≤◌, length, nat_abs, position, take, true, None};
ghost use Rattle.base.specs.Widths.{short_limit};
ghost use Rattle.int_rows.specs.Ready.{bound_fits};
ghost use Rattle.int_rows.specs.Table.{width};
ghost use Rattle.simplex_core.specs.Standings.{AreStandings};
ghost use Rattle.simplex_core.specs.Run.{are_crossed, are_crossed_at, broken_at, can_rise, can_sink, coordinates, crossed, entering, has_wide_floor, helps, is_above, is_basic, is_below, is_wide, leave, leaving, may_enter, may_leave, moment, seen_from, settle, turn, wide, wide_floor};

use crate::coordinate::Coordinate;
use crate::place::{row_of, stood_at};
use crate::standing::Standing;
use crate::turn::{Side, Turn};
use int_rows::Tableau;
use std::cmp::Ordering;

/// Whether the lower bound is above the upper one.
fn are_crossed(lower: Option<i128>, upper: Option<i128>) -> bool
    ensures { result ≡ are_crossed lower upper }
{
    match (lower, upper) {
        (Some(l), Some(u)) => u < l,
        _ => false,
    }
}

/// Whether the column's lower bound is above its upper one.
fn are_crossed_at(t: &Tableau, column: usize) -> bool
    requires { column < width t.now }
    ensures { result ≡ are_crossed_at t.now column }
{
    are_crossed(t.lower(column), t.upper(column))
}

/// The first column whose bounds are crossed.
fn crossed(t: &Tableau, columns: usize) -> Option<usize>
    requires { columns ≡ width t.now }
    ensures { result ≡ crossed t.now }
{
    for column in 0..columns {
        if are_crossed_at(t, column) {
            return Some(column);
        }
    }
    None
}

/// The first column whose bounds are crossed, sought only where it isn't known already that no bounds
/// are.
fn crossed_unless(t: &Tableau, columns: usize, ordered: bool) -> Option<usize>
    requires columns { columns ≡ width t.now }
    requires ordered { ordered ≡ true → crossed t.now ≡ None }
    ensures { result ≡ crossed t.now }
{
    if ordered {
        return None;
    }
    crossed(t, columns)
}

/// The first value without room.
fn wide(values: &[Coordinate]) -> Option<usize>
    ensures { result ≡ position is_wide values.now }
{
    values.iter().position(|value| value.is_wide())
}

/// The first of the first `variables` values that has no room when it is rounded down.
fn wide_floor(values: &[Coordinate], variables: usize) -> Option<usize>
    requires { variables ≤ length values.now }
    ensures { result ≡ position has_wide_floor (take variables values.now) }
{
    values[..variables]
        .iter()
        .position(|value| !value.has_short_floor())
}

/// Whether the value is below the bound.
fn is_below(lower: Option<i128>, value: &Coordinate) -> bool
    requires { bound_fits lower ≡ true }
    ensures { result ≡ is_below lower value.now }
{
    match lower {
        None => false,
        Some(l) => value.compare(l) == Ordering::Less,
    }
}

/// Whether the value is above the bound.
fn is_above(upper: Option<i128>, value: &Coordinate) -> bool
    requires { bound_fits upper ≡ true }
    ensures { result ≡ is_above upper value.now }
{
    match upper {
        None => false,
        Some(u) => value.compare(u) == Ordering::Greater,
    }
}

/// Which of a column's bounds its value breaks.
fn broken_at(
    t: &Tableau,
    standings: &[Standing],
    values: &[Coordinate],
    column: usize,
) -> Option<Side>
    requires column { column < width t.now }
    requires values { values.now ≡ coordinates (moment t.now standings.now) }
    ensures { result ≡ broken_at (moment t.now standings.now) column }
{
    t.table_law();
    let value = &values[column];
    if is_below(t.lower(column), value) {
        Some(Side::Lower)
    } else if is_above(t.upper(column), value) {
        Some(Side::Upper)
    } else {
        None
    }
}

/// Whether the column is basic.
pub(crate) fn is_basic(standing: Standing) -> bool
    ensures { result ≡ is_basic standing }
{
    match standing {
        Standing::Basic => true,
        Standing::AtLower => false,
        Standing::AtUpper => false,
        Standing::AtZero => false,
    }
}

/// Whether the column is basic and outside its bounds.
fn may_leave(t: &Tableau, standings: &[Standing], values: &[Coordinate], column: usize) -> bool
    requires column { column < width t.now }
    requires each { length standings.now ≡ width t.now }
    requires values { values.now ≡ coordinates (moment t.now standings.now) }
    ensures { result ≡ may_leave (moment t.now standings.now) column }
{
    if !is_basic(standings[column]) {
        return false;
    }
    broken_at(t, standings, values, column).is_some()
}

/// The least basic column outside its bounds.
fn leaving(t: &Tableau, standings: &[Standing], values: &[Coordinate]) -> Option<usize>
    requires each { length standings.now ≡ width t.now }
    requires values { values.now ≡ coordinates (moment t.now standings.now) }
    ensures { result ≡ leaving (moment t.now standings.now) }
{
    for column in 0..standings.len() {
        if may_leave(t, standings, values, column) {
            return Some(column);
        }
    }
    None
}

/// Whether a column outside the basis can rise within its bounds.
fn can_rise(t: &Tableau, standings: &[Standing], column: usize) -> bool
    requires each { length standings.now ≡ width t.now }
    requires column { column < width t.now }
    ensures { result ≡ can_rise (moment t.now standings.now) column }
{
    if is_basic(standings[column]) {
        return false;
    }
    match t.upper(column) {
        None => true,
        Some(u) => stood_at(t, standings, column) < u,
    }
}

/// Whether a column outside the basis can sink within its bounds.
fn can_sink(t: &Tableau, standings: &[Standing], column: usize) -> bool
    requires each { length standings.now ≡ width t.now }
    requires column { column < width t.now }
    ensures { result ≡ can_sink (moment t.now standings.now) column }
{
    if is_basic(standings[column]) {
        return false;
    }
    match t.lower(column) {
        None => true,
        Some(l) => l < stood_at(t, standings, column),
    }
}

/// The number, with the other sign where the upper bound is broken.
pub(crate) fn seen_from(side: Side, a: i64) -> i64
    requires { nat_abs a < short_limit }
    ensures is { result ≡ seen_from side a }
    ensures short { nat_abs result < short_limit }
{
    match side {
        Side::Lower => a,
        Side::Upper => -a,
    }
}

/// Whether a column with this entry can move so that the basic one comes nearer to its bound.
fn helps(t: &Tableau, standings: &[Standing], a: i64, column: usize) -> bool
    requires each { length standings.now ≡ width t.now }
    requires column { column < width t.now }
    ensures { result ≡ helps (moment t.now standings.now) a column }
{
    if a < 0 {
        can_rise(t, standings, column)
    } else if a > 0 {
        can_sink(t, standings, column)
    } else {
        false
    }
}

/// Whether the column can move so that the basic one of the row comes nearer to its bound.
fn may_enter(t: &Tableau, standings: &[Standing], row: usize, side: Side, column: usize) -> bool
    requires each { length standings.now ≡ width t.now }
    requires row { row < length t.now.rows }
    requires column { column < width t.now }
    ensures { result ≡ may_enter (moment t.now standings.now) row side column }
{
    t.table_law();
    helps(t, standings, seen_from(side, t.entry(row, column)), column)
}

/// The least column that can move so that the basic one of the row comes nearer to its bound.
fn entering(t: &Tableau, standings: &[Standing], row: usize, side: Side) -> Option<usize>
    requires each { length standings.now ≡ width t.now }
    requires row { row < length t.now.rows }
    ensures { result ≡ entering (moment t.now standings.now) row side }
{
    for column in 0..standings.len() {
        if may_enter(t, standings, row, side, column) {
            return Some(column);
        }
    }
    None
}

/// The end or the pivot where the basic column of the row leaves.
fn leave(t: &Tableau, standings: &[Standing], row: usize, side: Side) -> Turn
    requires each { length standings.now ≡ width t.now }
    requires row { row < length t.now.rows }
    ensures { result ≡ leave (moment t.now standings.now) row side }
{
    match entering(t, standings, row, side) {
        None => Turn::Conflict { row, side },
        Some(column) => Turn::Pivot { row, column, side },
    }
}

/// What the moment is where bounds are in order and values have room.
fn settle(t: &Tableau, standings: &[Standing], values: &[Coordinate]) -> Turn
    requires legal { AreStandings t.now standings.now }
    requires values { values.now ≡ coordinates (moment t.now standings.now) }
    ensures { result ≡ settle (moment t.now standings.now) (leaving (moment t.now standings.now)) }
{
    match leaving(t, standings, values) {
        None => match wide_floor(values, t.columns()) {
            None => Turn::Vertex,
            Some(column) => Turn::Wide { column },
        },
        Some(column) => {
            let side = broken_at(t, standings, values, column).unwrap_or(Side::Lower);
            leave(t, standings, row_of(t, column), side)
        }
    }
}

/// What the moment is. Bounds that are known to be in order aren't looked at.
pub(crate) fn turn(
    t: &Tableau,
    standings: &[Standing],
    values: &[Coordinate],
    ordered: bool,
) -> Turn
    requires legal { AreStandings t.now standings.now }
    requires values { values.now ≡ coordinates (moment t.now standings.now) }
    requires ordered { ordered ≡ true → crossed t.now ≡ None }
    ensures { result ≡ turn (moment t.now standings.now) }
{
    match crossed_unless(t, standings.len(), ordered) {
        Some(column) => Turn::Crossed { column },
        None => match wide(values) {
            Some(column) => Turn::Wide { column },
            None => settle(t, standings, values),
        },
    }
}
