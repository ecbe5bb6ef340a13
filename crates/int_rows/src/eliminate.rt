//! A row that becomes 0 in a column by a multiple of another.

ghost use Rattle.std.specs.Prelude.{◌≡◌, ◌<◌, ◌≤◌, ◌^◌, ◌==◌, length, nat_abs, pos, true, IfSome, IsNone};
ghost use Rattle.std.specs.List.{Contains};
ghost use Rattle.base.specs.Widths.{numerator_limit};
ghost use Rattle.int_rows.specs.Rows.{are_short, content, entry};
ghost use Rattle.int_rows.specs.Pivot.{crossed, eliminated, turned};

use crate::combine::{combine, combined_content, wide_entry};

/// The magnitude of a number.
fn magnitude(a: i64) -> i64
    requires { nat_abs a < 2 ^ 63 }
    ensures is { result ≡ pos (nat_abs a) }
    ensures short { nat_abs result < 2 ^ 63 }
{
    if a < 0 { -a } else { a }
}

/// The second number, with the other sign where the first is negative.
fn turned(a: i64, b: i64) -> i64
    requires { nat_abs b < 2 ^ 63 }
    ensures is { result ≡ turned a b }
    ensures short { nat_abs result < 2 ^ 63 }
{
    if a < 0 { -b } else { b }
}

/// The entry of a row.
pub(crate) fn entry(row: &[i64], column: usize) -> i64
    requires short { are_short row.now ≡ true }
    requires within { column < length row.now }
    ensures is { result ≡ entry row.now column }
    ensures short { nat_abs result < 2 ^ 63 }
{
    row[column]
}

/// A positive number that has room.
fn signed(n: u128) -> i128
    requires { n < numerator_limit }
    ensures { result ≡ pos n }
{
    n as i128
}

/// The first entry without room in the row without the column.
pub(crate) fn wide_elimination(row: &[i64], other: &[i64], column: usize) -> Option<i128>
    requires row { are_short row.now ≡ true }
    requires other { are_short other.now ≡ true }
    requires same { length row.now ≡ length other.now }
    requires within { column < length row.now }
    requires some { 0 < content (crossed column row.now other.now) }
    ensures some { IfSome result (λ wide. Contains (eliminated column other.now row.now) wide × (2 ^ 63 ≤ nat_abs wide)) }
    ensures none { IsNone result → are_short (eliminated column other.now row.now) ≡ true }
{
    let (a, b) = (entry(other, column), entry(row, column));
    if b == 0 {
        return None;
    }
    let (p, q) = (magnitude(a), turned(a, b));
    let divisor = signed(combined_content(p, row, q, other));
    wide_entry(p, row, q, other, divisor)
}

/// The row without the column.
pub(crate) fn eliminate(row: &mut [i64], other: &[i64], column: usize)
    requires row { are_short row.old ≡ true }
    requires other { are_short other.now ≡ true }
    requires same { length row.old ≡ length other.now }
    requires within { column < length row.old }
    requires some { 0 < content (crossed column row.old other.now) }
    requires room { are_short (eliminated column other.now row.old) ≡ true }
    ensures { row.new ≡ eliminated column other.now row.old }
{
    let (a, b) = (entry(other, column), entry(row, column));
    if b == 0 {
        return;
    }
    let (p, q) = (magnitude(a), turned(a, b));
    let divisor = signed(combined_content(p, row, q, other));
    combine(p, row, q, other, divisor);
}
