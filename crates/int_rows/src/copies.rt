//! Copies of rows.

ghost use Rattle.std.specs.Prelude.{◌≡◌, map, IfOk};

use base::Memory;
use std::alloc::Global;

/// A row with the same entries.
fn copy_row(alloc: Global, row: &[i64]) -> Result<Vec<i64>, Memory>
    ensures { IfOk result (λ made. made.items ≡ row.now) }
{
    let mut made = Vec::with_capacity(alloc, row.len())?;
    made.extend_from_slice(row)?;
    Ok(made)
}

/// Rows with the same entries.
pub(crate) fn copy_rows(alloc: Global, rows: &[Vec<i64>]) -> Result<Vec<Vec<i64>>, Memory>
    ensures { IfOk result (λ made. map (λ r. r.items) made.items ≡ map (λ r. r.items) rows.now) }
{
    let mut made = Vec::with_capacity(alloc, rows.len())?;
    for row in rows {
        let copied = copy_row(alloc, row.as_slice())?;
        made.push(copied)?;
    }
    Ok(made)
}

/// A copy of the numbers, in order.
pub(crate) fn copy_numbers(alloc: Global, numbers: &[usize]) -> Result<Vec<usize>, Memory>
    ensures { IfOk result (λ made. made.items ≡ numbers.now) }
{
    let mut made = Vec::with_capacity(alloc, numbers.len())?;
    made.extend_from_slice(numbers)?;
    Ok(made)
}

/// A copy of the bounds, in order.
pub(crate) fn copy_bounds(
    alloc: Global,
    bounds: &[Option<i128>],
) -> Result<Vec<Option<i128>>, Memory>
    ensures { IfOk result (λ made. made.items ≡ bounds.now) }
{
    let mut made = Vec::with_capacity(alloc, bounds.len())?;
    made.extend_from_slice(bounds)?;
    Ok(made)
}
