//! The equations of forms and their slacks.

ghost use Rattle.std.specs.Prelude.{◌≡◌, ◌+◌, ◌<◌, ◌≤◌, ◌^◌, neg_ℤ, length, map, pos, true, IfOk, OnOk, None, replicate, nat_lt, slice_set};
ghost use Rattle.std.specs.List.{list_all, range_with_len};
ghost use Rattle.lin_atoms.specs.Linear.{is_linear, is_short, lin_is_below};
ghost use Rattle.int_rows.specs.Node.{coefficient, equation, equations};

use base::Memory;
use lin_atoms::Lin;
use std::alloc::Global;

/// `count` zeros.
fn zeros(alloc: Global, count: usize) -> Result<Vec<i64>, Memory>
    ensures { IfOk result (λ made. made.items ≡ replicate count (pos 0)) }
{
    Ok(vec![in alloc; 0; count]?)
}

/// The number with the other sign.
fn minus(a: i64) -> i64
    requires { is_short a ≡ true }
    ensures { result ≡ neg_ℤ a }
{
    -a
}

/// Writes the term's coefficient with the other sign.
fn put_term(row: &mut [i64], term: (u32, i64))
    requires below { term.0 < length row.old }
    requires short { is_short term.1 ≡ true }
    ensures { row.new ≡ slice_set row.old term.0 (neg_ℤ term.1) }
{
    let (variable, a) = term;
    row[variable as usize] = minus(a);
}

/// Writes the coefficients with the other sign over a row of zeros, the last one first.
fn put_terms(row: &mut [i64], terms: &[(u32, i64)])
    requires zeros { row.old ≡ replicate (length row.old) (pos 0) }
    requires below { list_all (λ t. nat_lt t.0 (length row.old)) terms.now ≡ true }
    requires short { list_all (λ t. is_short t.1) terms.now ≡ true }
    ensures { row.new ≡ map (λ c. neg_ℤ (coefficient terms.now c)) (range_with_len 0 (length row.old)) }
{
    let mut at = terms.len();
    'put: while at > 0 {
        at -= 1;
        let term = terms[at];
        put_term(row, term);
    }
}

/// The slack less the form without its constant.
pub(crate) fn equation(
    alloc: Global,
    columns: usize,
    slack: usize,
    lin: &Lin,
) -> Result<Vec<i64>, Memory>
    requires slack { slack < columns }
    requires below { lin_is_below columns lin.now ≡ true }
    ensures { IfOk result (λ row. row.items ≡ equation columns slack lin.now) }
{
    let mut row = zeros(alloc, columns)?;
    put_terms(row.as_mut_slice(), lin.terms());
    row[slack] = 1;
    Ok(row)
}

/// The equation of each form. The slacks are numbered on.
pub(crate) fn equations(
    alloc: Global,
    columns: usize,
    slack: usize,
    lins: &[Lin],
) -> Result<Vec<Vec<i64>>, Memory>
    requires room { slack + length lins.now < 2 ^ 63 }
    requires slacks { slack + length lins.now ≤ columns }
    requires below { list_all (lin_is_below columns) lins.now ≡ true }
    ensures is { IfOk result (λ rows. map (λ r. r.items) rows.items ≡ equations columns slack lins.now) }
    ensures legal { OnOk result (list_all is_linear lins.now ≡ true) }
{
    let mut rows = Vec::with_capacity(alloc, lins.len())?;
    for (i, lin) in lins.iter().enumerate() {
        let _constant = lin.constant();
        let row = equation(alloc, columns, slack + i, lin)?;
        rows.push(row)?;
    }
    Ok(rows)
}

/// Numbers, from one on.
pub(crate) fn numbers(alloc: Global, from: usize, count: usize) -> Result<Vec<usize>, Memory>
    requires { from + count < 2 ^ 63 }
    ensures { IfOk result (λ made. made.items ≡ range_with_len from count) }
{
    let mut made = Vec::with_capacity(alloc, count)?;
    for i in 0..count {
        made.push(from + i)?;
    }
    Ok(made)
}

/// No bound for each of `count` variables.
pub(crate) fn no_bounds(alloc: Global, count: usize) -> Result<Vec<Option<i128>>, Memory>
    ensures { IfOk result (λ made. made.items ≡ replicate count None) }
{
    Ok(vec![in alloc; None; count]?)
}
