//! A pivot: each row but one becomes 0 in a column.

ghost use Rattle.std.specs.Prelude.{◌≡◌, ◌<◌, ◌≤◌, ◌^◌, length, map, nat_abs, neg_ℤ, true, IfSome, IsNone};
ghost use Rattle.std.specs.List.{All, Contains, list_all};
ghost use Rattle.int_rows.specs.Pivot.{CanCross, eliminated};
ghost use Rattle.int_rows.specs.Rows.{are_short};
ghost use Rattle.int_rows.specs.Table.{CanPivot, HasWide, facing, pivoted, row_at};

use crate::eliminate::{eliminate, entry, wide_elimination};
use crate::stop::RowWide;

/// The first entry without room that one of the rows would have after a pivot.
fn wide_at(rows: &[Vec<i64>], i: usize, pivot: usize, column: usize) -> Option<i128>
    requires can { CanPivot pivot column (map (λ r. r.items) rows.now) }
    requires within { i < length rows.now }
    ensures some { IfSome result (λ wide. Contains (row_at (pivoted pivot column (map (λ r. r.items) rows.now)) i) wide × (2 ^ 63 ≤ nat_abs wide)) }
    ensures none { IsNone result → are_short (row_at (pivoted pivot column (map (λ r. r.items) rows.now)) i) ≡ true }
{
    if i == pivot {
        return None;
    }
    wide_elimination(rows[i].as_slice(), rows[pivot].as_slice(), column)
}

/// The first row that would have an entry without room after a pivot, and the entry.
pub(crate) fn first_wide(rows: &[Vec<i64>], pivot: usize, column: usize) -> Option<RowWide>
    requires can { CanPivot pivot column (map (λ r. r.items) rows.now) }
    ensures some { IfSome result (λ w. HasWide (pivoted pivot column (map (λ r. r.items) rows.now)) w.row w.entry) }
    ensures none { IsNone result → list_all are_short (pivoted pivot column (map (λ r. r.items) rows.now)) ≡ true }
{
    for i in 0..rows.len() {
        if let Some(entry) = wide_at(rows, i, pivot, column) {
            return Some(RowWide { row: i, entry });
        }
    }
    None
}

/// Frees each of the rows of the column.
fn eliminate_each(rows: &mut [Vec<i64>], other: &[i64], column: usize)
    requires short { are_short other.now ≡ true }
    requires can { All (λ r. CanCross column other.now r.items) rows.old }
    requires room { All (λ r. are_short (eliminated column other.now r.items) ≡ true) rows.old }
    ensures { map (λ r. r.items) rows.new ≡ map (eliminated column other.now) (map (λ r. r.items) rows.old) }
{
    for i in 0..rows.len() {
        eliminate(rows[i].as_mut_slice(), other, column);
    }
}

/// Makes the entry in the column positive, where it isn't 0.
fn face(row: &mut [i64], column: usize)
    requires short { are_short row.old ≡ true }
    requires there { column < length row.old }
    ensures { row.new ≡ facing column row.old }
{
    if entry(row, column) < 0 {
        negate(row);
    }
}

/// Gives each entry the other sign.
fn negate(row: &mut [i64])
    requires { are_short row.old ≡ true }
    ensures { row.new ≡ map neg_ℤ row.old }
{
    for i in 0..row.len() {
        row[i] = -row[i];
    }
}

/// Frees each row but one of the column, which that row gets as its basic one.
pub(crate) fn pivot_rows(rows: &mut [Vec<i64>], pivot: usize, column: usize)
    requires can { CanPivot pivot column (map (λ r. r.items) rows.old) }
    requires room { list_all are_short (pivoted pivot column (map (λ r. r.items) rows.old)) ≡ true }
    ensures { map (λ r. r.items) rows.new ≡ pivoted pivot column (map (λ r. r.items) rows.old) }
{
    let (before, rest) = rows.split_at_mut(pivot);
    let (own, after) = rest.split_at_mut(1);
    eliminate_each(before, own[0].as_slice(), column);
    eliminate_each(after, own[0].as_slice(), column);
    face(own[0].as_mut_slice(), column);
}
