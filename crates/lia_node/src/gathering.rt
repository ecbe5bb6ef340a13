//! The literals of a node made ready, in order.

ghost use Rattle.std.specs.Prelude.{◌≡◌, ◌+◌, ◌++◌, ◌≤◌, ◌<◌, ◌^◌, length, IfOk, OnOk, IsErrOf, true, if◌then◌else◌};
ghost use Rattle.std.specs.List.{list_all};
ghost use Rattle.base.specs.Limits.{most_rows};
ghost use Rattle.lin_atoms.specs.Truth.{lit_is_below};
ghost use Rattle.int_rows.specs.Node.{all_bounds, bounds_of, end_of_quotients, has_row, in_rows, quotients};
ghost use Rattle.int_rows.specs.Ready.{bounded_fits, ready, ready_fits};
ghost use Rattle.lia_node.specs.Known.{are_known, has_short_constant};
ghost use Rattle.lia_node.specs.machinery.Columns.{is_said_below};

use crate::legal::is_legal;
use base::{MOST_ROWS, Memory};
use int_rows::{Bounded, Ready, ReadyStop, RowStop, ready};
use lin_atoms::Lit;
use std::alloc::Global;

/// What the literals say, and the number of variables and quotients.
#[derive(Drop)]
pub(crate) struct Gathered {
    pub(crate) bounds: Vec<Bounded>,
    pub(crate) variables: u32,
}

/// The literal made ready. Its numbers have room.
fn made_ready(alloc: Global, lit: &Lit, quotient: u32) -> Result<Ready, Memory>
    requires below { lit_is_below quotient lit.now ≡ true }
    requires short { has_short_constant lit.now ≡ true }
    ensures is { IfOk result (λ made. made ≡ ready quotient lit.now) }
    ensures fits { IfOk result (λ made. ready_fits made ≡ true) }
{
    is_legal(lit);
    match ready(alloc, lit, quotient) {
        Ok(made) => Ok(made),
        Err(ReadyStop::Memory) => Err(Memory),
        Err(ReadyStop::Wide) => unreachable!(),
    }
}

/// None without a variable.
fn quotients_of(no_variable: bool) -> u32
    ensures { result ≡ (if no_variable then 0 else 1) }
{
    if no_variable { 0 } else { 1 }
}

/// How many quotients the literal brings.
pub(crate) fn quotients(lit: &Lit) -> u32
    ensures is { result ≡ quotients lit.now }
    ensures few { result ≤ 1 }
{
    match lit {
        Lit::Le(_) => 0,
        Lit::Eq(_) => 0,
        Lit::Div(_, lin) => quotients_of(lin.terms().is_empty()),
        Lit::NDiv(_, lin) => quotients_of(lin.terms().is_empty()),
    }
}

/// Whether the form has two or more variables.
pub(crate) fn has_row(bounded: &Bounded) -> bool
    ensures { result ≡ has_row bounded.now }
{
    bounded.form.terms().len() > 1
}

/// How many rows.
fn rows_of(bounded: &Bounded) -> usize
    ensures { result ≡ (if has_row bounded.now then 1 else 0) }
{
    if has_row(bounded) { 1 } else { 0 }
}

/// Puts what a literal says after the others, and answers how many rows it has.
fn put(made: &mut Vec<Bounded>, ready: Ready) -> Result<usize, Memory>
    ensures made { OnOk result (made.new.items ≡ made.old.items ++ bounds_of ready) }
    ensures rows { IfOk result (λ rows. rows ≡ length (in_rows (bounds_of ready))) }
    ensures few { IfOk result (λ rows. rows ≤ 1) }
{
    match ready {
        Ready::Truth(_) => Ok(0),
        Ready::Bounds(bounded) => {
            let rows = rows_of(&bounded);
            made.push(bounded)?;
            Ok(rows)
        }
    }
}

/// The literals made ready, in order, with quotients numbered on from `end`.
pub(crate) fn gather(alloc: Global, lits: &[Lit], end: u32) -> Result<Gathered, RowStop>
    requires known { are_known end lits.now ≡ true }
    requires short { list_all has_short_constant lits.now ≡ true }
    requires few { end < 2 ^ 31 }
    ensures bounds { IfOk result (λ made. made.bounds.items ≡ all_bounds end lits.now) }
    ensures fit { IfOk result (λ made. list_all bounded_fits made.bounds.items ≡ true) }
    ensures variables { IfOk result (λ made. made.variables ≡ end_of_quotients end lits.now) }
    ensures below { IfOk result (λ made. list_all (is_said_below made.variables) made.bounds.items ≡ true) }
    ensures few { IfOk result (λ made. made.variables ≤ end + most_rows) }
    ensures within { IfOk result (λ made. length (in_rows made.bounds.items) ≤ most_rows) }
    ensures too_many { IsErrOf result RowStop.TooMany → most_rows < length (in_rows (all_bounds end lits.now)) }
{
    let mut bounds = Vec::with_capacity(alloc, lits.len()).map_err(Memory::from)?;
    let mut variables = end;
    let mut rows = 0;
    for lit in lits {
        let made = made_ready(alloc, lit, variables)?;
        rows += put(&mut bounds, made)?;
        if rows > MOST_ROWS {
            return Err(RowStop::TooMany);
        }
        variables += quotients(lit);
    }
    Ok(Gathered { bounds, variables })
}
