//! A point that was only guessed counts after a test of each literal.

ghost use Rattle.std.specs.Prelude.{◌≡◌, ◌+◌, ◌<◌, ◌^◌, length, IfOk, IfSome, true, if◌then◌else◌};
ghost use Rattle.std.specs.List.{list_all};
ghost use Rattle.lin_atoms.specs.Linear.{is_short};
ghost use Rattle.lin_atoms.specs.Truth.{lit_truth};
ghost use Rattle.int_rows.specs.Node.{end_of_quotients, quotients};
ghost use Rattle.lia_node.specs.Known.{are_known, has_short_constant};

use crate::guesses::guesses;
use base::Memory;
use lin_atoms::Lit;
use std::alloc::Global;

/// None without a variable.
fn quotients_of(no_variable: bool) -> u32
    ensures { result ≡ (if no_variable then 0 else 1) }
{
    if no_variable { 0 } else { 1 }
}

/// How many quotients the literal brings: one, where it is about multiples and has a variable.
pub fn quotients(lit: &Lit) -> u32
    ensures { result ≡ quotients lit.now }
{
    match lit {
        Lit::Le(_) => 0,
        Lit::Eq(_) => 0,
        Lit::Div(_, lin) => quotients_of(lin.terms().is_empty()),
        Lit::NDiv(_, lin) => quotients_of(lin.terms().is_empty()),
    }
}

/// The sum of two numbers. One without room counts as want of memory.
pub fn added(number: u32, more: u32) -> Result<u32, Memory>
    ensures { IfOk result (λ n. n ≡ number + more) }
{
    match number.checked_add(more) {
        Some(sum) => Ok(sum),
        None => Err(Memory),
    }
}

/// The first number that is no variable's and no quotient's, where quotients are numbered on from
/// `end`.
fn end_of(lits: &[Lit], end: u32) -> Result<u32, Memory>
    ensures { IfOk result (λ n. n ≡ end_of_quotients end lits.now) }
{
    let mut quotient = end;
    for lit in lits {
        quotient = added(quotient, quotients(lit))?;
    }
    Ok(quotient)
}

fn all_hold(lits: &[Lit], point: &[i64]) -> bool
    ensures { result ≡ list_all (lit_truth point.now) lits.now }
{
    for lit in lits {
        if !lit.holds(point) {
            return false;
        }
    }
    true
}

/// Whether the value is below 2^63 in magnitude.
fn is_short(value: i64) -> bool
    ensures { result ≡ is_short value }
{
    value.unsigned_abs() < 1 << 63
}

fn are_short(point: &[i64]) -> bool
    ensures { result ≡ list_all is_short point.now }
{
    for value in point {
        if !is_short(*value) {
            return false;
        }
    }
    true
}

/// Whether the point has `long` values, each below 2^63 in magnitude, and the literals are true there.
fn is_point(lits: &[Lit], long: u32, point: &[i64]) -> bool
    ensures each { result ≡ true → length point.now ≡ long }
    ensures short { result ≡ true → list_all is_short point.now ≡ true }
    ensures holds { result ≡ true → list_all (lit_truth point.now) lits.now ≡ true }
{
    point.len() == long as usize && are_short(point) && all_hold(lits, point)
}

/// The last of the points that is one.
fn last_point(lits: &[Lit], long: u32, guesses: Vec<Vec<i64>>) -> Option<Vec<i64>>
    ensures each { IfSome result (λ point. length point.items ≡ long) }
    ensures short { IfSome result (λ point. list_all is_short point.items ≡ true) }
    ensures holds { IfSome result (λ point. list_all (lit_truth point.items) lits.now ≡ true) }
{
    let mut guesses = guesses;
    'guesses: while let Some(point) = guesses.pop() {
        if is_point(lits, long, point.as_slice()) {
            return Some(point);
        }
    }
    None
}

/// A point at which all literals are true, where one is found: a value for each variable below `end`
/// and each quotient, each below 2^63 in magnitude. Quotients are numbered on from `end`, in order of
/// the literals. A vertex of the literals is taken, and in what variables, quotients and forms with one
/// value leave free it is rounded, to the nearest integer, up and down, and then moved until it meets the
/// bounds.
pub fn point_near(alloc: Global, lits: &[Lit], end: u32) -> Result<Option<Vec<i64>>, Memory>
    requires known { are_known end lits.now ≡ true }
    requires short { list_all has_short_constant lits.now ≡ true }
    requires few { end < 2 ^ 31 }
    ensures each { IfOk result (λ found. IfSome found (λ point. length point.items ≡ end_of_quotients end lits.now)) }
    ensures short { IfOk result (λ found. IfSome found (λ point. list_all is_short point.items ≡ true)) }
    ensures holds { IfOk result (λ found. IfSome found (λ point. list_all (lit_truth point.items) lits.now ≡ true)) }
{
    let long = end_of(lits, end)?;
    let guesses = guesses(alloc, lits, end)?;
    Ok(last_point(lits, long, guesses))
}
