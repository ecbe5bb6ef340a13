//! What is answered at the end of a run.

ghost use Rattle.std.specs.Prelude.{◌≡◌, ◌<◌, ◌^◌, length, nat_abs, neg_ℤ, pos, int_lt, ◌++◌, ◌∷◌, [], IfOk, position, None, if◌then◌else◌};
ghost use Rattle.base.specs.Widths.{short_limit};
ghost use Rattle.int_rows.specs.Table.{width};
ghost use Rattle.simplex_core.specs.Answer.{AreCoordinates, basis, crossing, crossing_at, multipliers, outer, parts};
ghost use Rattle.simplex_core.specs.Run.{columns, coordinates, is_wide, moment};

use crate::bland::{is_basic, seen_from};
use crate::coordinate::Coordinate;
use crate::place::stood_at;
use crate::standing::Standing;
use crate::turn::Side;
use base::Memory;
use int_rows::Tableau;
use lin_atoms::Ratio;
use std::alloc::Global;

/// Appends a column where it is to be kept.
fn push_column(made: &mut Vec<u32>, column: u32, keep: bool) -> Result<(), Memory>
    ensures { IfOk result (λ _. made.new.items ≡ made.old.items ++ (if keep then column ∷ [] else [])) }
{
    if keep {
        made.push(column)?;
    }
    Ok(())
}

/// Appends a value where it is to be kept.
fn push_value(made: &mut Vec<i128>, value: i128, keep: bool) -> Result<(), Memory>
    ensures { IfOk result (λ _. made.new.items ≡ made.old.items ++ (if keep then value ∷ [] else [])) }
{
    if keep {
        made.push(value)?;
    }
    Ok(())
}

/// The basic columns, in order of number.
pub(crate) fn basis(alloc: Global, t: &Tableau, standings: &[Standing]) -> Result<Vec<u32>, Memory>
    requires each { length standings.now ≡ width t.now }
    requires few { width t.now < 2 ^ 32 }
    ensures { IfOk result (λ made. made.items ≡ basis (columns t.now) standings.now) }
{
    let mut made = Vec::with_capacity(alloc, t.rows())?;
    for column in 0..standings.len() {
        push_column(&mut made, column as u32, is_basic(standings[column]))?;
    }
    Ok(made)
}

/// The values of the columns outside the basis, in order of number.
pub(crate) fn outer(alloc: Global, t: &Tableau, standings: &[Standing]) -> Result<Vec<i128>, Memory>
    requires { length standings.now ≡ width t.now }
    ensures { IfOk result (λ made. made.items ≡ outer (moment t.now standings.now)) }
{
    let mut made = Vec::with_capacity(alloc, t.columns())?;
    for column in 0..standings.len() {
        push_value(
            &mut made,
            stood_at(t, standings, column),
            !is_basic(standings[column]),
        )?;
    }
    Ok(made)
}

/// The values of all columns in lowest terms.
pub(crate) fn ratios(
    alloc: Global,
    t: &Tableau,
    standings: &[Standing],
    values: &[Coordinate],
) -> Result<Vec<Ratio>, Memory>
    requires values { values.now ≡ coordinates (moment t.now standings.now) }
    requires fitting { position is_wide values.now ≡ None }
    ensures { IfOk result (λ made. AreCoordinates (moment t.now standings.now) made.items) }
{
    let mut made = Vec::with_capacity(alloc, values.len())?;
    for value in values {
        let ratio = value.lowest();
        let _num = ratio.num();
        made.push(ratio)?;
    }
    Ok(made)
}

/// The number where it is above 0, and else 0.
fn positive_part(a: i64) -> i64
    ensures { result ≡ (if int_lt (pos 0) a then a else pos 0) }
{
    if a > 0 { a } else { 0 }
}

/// The number with the other sign where it is below 0, and else 0.
fn negative_part(a: i64) -> i64
    requires { nat_abs a < short_limit }
    ensures { result ≡ (if int_lt a (pos 0) then neg_ℤ a else pos 0) }
{
    if a < 0 { -a } else { 0 }
}

/// Appends two numbers.
fn push_two(made: &mut Vec<i64>, first: i64, second: i64) -> Result<(), Memory>
    ensures { IfOk result (λ _. made.new.items ≡ made.old.items ++ first ∷ second ∷ []) }
{
    made.push(first)?;
    made.push(second)?;
    Ok(())
}

/// Appends the multipliers of a column's two bounds, by its entry.
fn push_parts(made: &mut Vec<i64>, a: i64) -> Result<(), Memory>
    requires { nat_abs a < short_limit }
    ensures { IfOk result (λ _. made.new.items ≡ made.old.items ++ parts a) }
{
    push_two(made, positive_part(a), negative_part(a))?;
    Ok(())
}

/// Appends 1 for each of the two bounds of the column, and 0 for those of another.
fn push_crossing(made: &mut Vec<i64>, column: usize, c: usize) -> Result<(), Memory>
    ensures { IfOk result (λ _. made.new.items ≡ made.old.items ++ crossing_at column c) }
{
    if c == column {
        push_two(made, 1, 1)?;
    } else {
        push_two(made, 0, 0)?;
    }
    Ok(())
}

/// The multipliers of all bounds where the basic column of a row can't come nearer to its bound.
pub(crate) fn multipliers(
    alloc: Global,
    t: &Tableau,
    row: usize,
    side: Side,
) -> Result<Vec<i64>, Memory>
    requires row { row < length t.now.rows }
    ensures { IfOk result (λ made. made.items ≡ multipliers t.now row side) }
{
    t.table_law();
    let entries = t.row(row);
    let mut made = Vec::new(alloc);
    for column in 0..entries.len() {
        push_parts(&mut made, seen_from(side, entries[column]))?;
    }
    Ok(made)
}

/// The multipliers of all bounds where those of one column are crossed.
pub(crate) fn crossing(
    alloc: Global,
    t: &Tableau,
    columns: usize,
    column: usize,
) -> Result<Vec<i64>, Memory>
    requires { columns ≡ width t.now }
    ensures { IfOk result (λ made. made.items ≡ crossing t.now column) }
{
    let _rows = t.rows();
    let mut made = Vec::new(alloc);
    for c in 0..columns {
        push_crossing(&mut made, column, c)?;
    }
    Ok(made)
}
