//! One form more: its equation, freed of the basic variables by their rows.

ghost use Rattle.std.specs.Prelude.{◌≡◌, ◌+◌, ◌<◌, ◌≤◌, ◌^◌, [], ◌∷◌, ◌++◌, map, nat_abs, pos, true, IfOk, OnOk, IfSome, IsNone, IsErrOf, None};
ghost use Rattle.std.specs.List.{Contains};
ghost use Rattle.lin_atoms.specs.Linear.{lin_is_below};
ghost use Rattle.int_rows.specs.Node.{equation};
ghost use Rattle.int_rows.specs.Pivot.{CanCross, eliminated};
ghost use Rattle.int_rows.specs.Pushed.{HasRoom, IsFirstWide, freed, widened};
ghost use Rattle.int_rows.specs.Rows.{are_short};
ghost use Rattle.int_rows.specs.machinery.Freeing.{CanFree};

use crate::eliminate::{eliminate, wide_elimination};
use crate::equation::equation;
use crate::stop::{PushStop, RowWide};
use base::Memory;
use lin_atoms::Lin;
use std::alloc::Global;

/// The row with a zero more.
fn widened_row(alloc: Global, row: &[i64]) -> Result<Vec<i64>, Memory>
    ensures { IfOk result (λ made. made.items ≡ row.now ++ pos 0 ∷ []) }
{
    let mut made = Vec::with_capacity(alloc, row.len() + 1)?;
    made.extend_from_slice(row)?;
    made.push(0)?;
    Ok(made)
}

/// Each row with a zero more, and room for one row more.
fn widened_rows(alloc: Global, rows: &[Vec<i64>]) -> Result<Vec<Vec<i64>>, Memory>
    ensures { IfOk result (λ made. map (λ r. r.items) made.items ≡ widened (map (λ r. r.items) rows.now)) }
{
    let mut made = Vec::with_capacity(alloc, rows.len() + 1)?;
    for row in rows {
        let wider = widened_row(alloc, row.as_slice())?;
        made.push(wider)?;
    }
    Ok(made)
}

/// The rows, and one more.
fn with_row(mut rows: Vec<Vec<i64>>, row: Vec<i64>) -> Result<Vec<Vec<i64>>, Memory>
    ensures { IfOk result (λ made. map (λ r. r.items) made.items ≡ map (λ r. r.items) rows.items ++ row.items ∷ []) }
{
    rows.push(row)?;
    Ok(rows)
}

/// The numbers, and one more.
fn pushed_numbers(alloc: Global, numbers: &[usize], last: usize) -> Result<Vec<usize>, Memory>
    ensures { IfOk result (λ made. made.items ≡ numbers.now ++ last ∷ []) }
{
    let mut made = Vec::with_capacity(alloc, numbers.len() + 1)?;
    made.extend_from_slice(numbers)?;
    made.push(last)?;
    Ok(made)
}

/// The bounds, and none for one variable more.
fn pushed_bounds(alloc: Global, bounds: &[Option<i128>]) -> Result<Vec<Option<i128>>, Memory>
    ensures { IfOk result (λ made. made.items ≡ bounds.now ++ None ∷ []) }
{
    let mut made = Vec::with_capacity(alloc, bounds.len() + 1)?;
    made.extend_from_slice(bounds)?;
    made.push(None)?;
    Ok(made)
}

/// The basic variables, and one more, which has no bounds.
pub(crate) fn pushed_columns(
    alloc: Global,
    basic: &[usize],
    last: usize,
    lower: &[Option<i128>],
    upper: &[Option<i128>],
) -> Result<(Vec<usize>, Vec<Option<i128>>, Vec<Option<i128>>), Memory>
    ensures basic { IfOk result (λ made. made.0.items ≡ basic.now ++ last ∷ []) }
    ensures lower { IfOk result (λ made. made.1.items ≡ lower.now ++ None ∷ []) }
    ensures upper { IfOk result (λ made. made.2.items ≡ upper.now ++ None ∷ []) }
{
    let basic = pushed_numbers(alloc, basic, last)?;
    let lower = pushed_bounds(alloc, lower)?;
    let upper = pushed_bounds(alloc, upper)?;
    Ok((basic, lower, upper))
}

/// Frees the row of the column, unless it would then have an entry without room: it answers that.
fn free_of(row: &mut [i64], other: &[i64], column: usize) -> Option<i128>
    requires short { are_short other.now ≡ true }
    requires can { CanCross column other.now row.old }
    ensures some { IfSome result (λ wide. Contains (eliminated column other.now row.old) wide × (2 ^ 63 ≤ nat_abs wide)) }
    ensures none { IsNone result → row.new ≡ eliminated column other.now row.old }
    ensures room { IsNone result → are_short (eliminated column other.now row.old) ≡ true }
{
    if let Some(wide) = wide_elimination(row, other, column) {
        return Some(wide);
    }
    eliminate(row, other, column);
    None
}

/// Frees the row of each column by the row with its number, up to where it would have an entry
/// without room.
fn free(row: &mut [i64], others: &[Vec<i64>], columns: &[usize]) -> Option<RowWide>
    requires { CanFree columns.now (map (λ r. r.items) others.now) row.old }
    ensures some { IfSome result (λ w. IsFirstWide columns.now (map (λ r. r.items) others.now) row.old w.row w.entry) }
    ensures none { IsNone result → row.new ≡ freed columns.now (map (λ r. r.items) others.now) row.old }
    ensures room { IsNone result → HasRoom columns.now (map (λ r. r.items) others.now) row.old }
{
    for (i, other) in others.iter().enumerate() {
        if let Some(entry) = free_of(row, other.as_slice(), columns[i]) {
            return Some(RowWide { row: i + 1, entry });
        }
    }
    None
}

/// The rows with a zero more, and the row of a further form's slack.
pub(crate) fn pushed_rows(
    alloc: Global,
    rows: &[Vec<i64>],
    basic: &[usize],
    slack: usize,
    lin: &Lin,
) -> Result<Vec<Vec<i64>>, PushStop>
    requires slack { slack < 2 ^ 62 }
    requires below { lin_is_below (slack + 1) lin.now ≡ true }
    requires can { CanFree basic.now (widened (map (λ r. r.items) rows.now)) (equation (slack + 1) slack lin.now) }
    ensures made { IfOk result (λ made. map (λ r. r.items) made.items ≡ widened (map (λ r. r.items) rows.now) ++ freed basic.now (widened (map (λ r. r.items) rows.now)) (equation (slack + 1) slack lin.now) ∷ []) }
    ensures room { OnOk result (HasRoom basic.now (widened (map (λ r. r.items) rows.now)) (equation (slack + 1) slack lin.now)) }
    ensures wide { (w : RowWide) → IsErrOf result (PushStop.Wide w) → IsFirstWide basic.now (widened (map (λ r. r.items) rows.now)) (equation (slack + 1) slack lin.now) w.row w.entry }
    ensures few { IsErrOf result PushStop.TooMany → ⊥ }
{
    let made = widened_rows(alloc, rows)?;
    let mut row = equation(alloc, slack + 1, slack, lin)?;
    if let Some(wide) = free(row.as_mut_slice(), made.as_slice(), basic) {
        return Err(PushStop::Wide(wide));
    }
    Ok(with_row(made, row)?)
}
