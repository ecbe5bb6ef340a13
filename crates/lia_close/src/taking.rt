//! Multipliers of the bounds of a tableau's columns, as multiples of the bounds that literals give.

ghost use Rattle.std.specs.Prelude.{◌≡◌, [], ◌+◌, ◌*◌, ◌++◌, ◌<◌, ◌≤◌, ◌^◌, int_le, length, pos, IfOk, OnOk, true, if◌then◌else◌};
ghost use Rattle.std.specs.List.{list_all};
ghost use Rattle.lin_atoms.specs.Linear.{is_short};
ghost use Rattle.lin_atoms.specs.Truth.{lit_is_below};
ghost use Rattle.int_rows.specs.Node.{end_of_quotients, quotients};
ghost use Rattle.int_rows.specs.Ready.{ready, ready_fits};
ghost use Rattle.lia_node.specs.Known.{are_known, has_short_constant};
ghost use Rattle.simplex_core.specs.Meaning.{of_lower, of_upper};
ghost use Rattle.lia_close.specs.declared.side.Side.TheVariants.{Lower, Upper};
ghost use Rattle.lia_close.specs.machinery.Tightest.{greatest_found, least_found};
ghost use Rattle.lia_close.specs.machinery.Taken.{all_ready, all_taken, multiplier_at, ready_has_row, rows_of, slacks_from, taken_by, taken_by_found, taken_of};

use crate::legal::is_legal;
use crate::side::{Side, Taken};
use crate::tightest::{greatest_lower, least_upper};
use base::Memory;
use int_rows::{Ready, ReadyStop, ready};
use lin_atoms::Lit;
use std::alloc::Global;

/// None without a variable.
fn quotients_of(no_variable: bool) -> u32
    ensures { result ≡ (if no_variable then 0 else 1) }
{
    if no_variable { 0 } else { 1 }
}

/// How many quotients the literal brings.
fn quotients(lit: &Lit) -> u32
    ensures is { result ≡ quotients lit.now }
    ensures few { result ≤ 1 }
{
    match lit {
        Lit::Le(_) => 0,
        Lit::Eq(_) => 0,
        Lit::Div(_, lin) => quotients_of(lin.terms().is_empty()),
        Lit::NDiv(_, lin) => quotients_of(lin.terms().is_empty()),
    }
}

/// The literal made ready. Its numbers have room.
fn made_ready(alloc: Global, lit: &Lit, quotient: u32) -> Result<Ready, Memory>
    requires below { lit_is_below quotient lit.now ≡ true }
    requires short { has_short_constant lit.now ≡ true }
    ensures is { IfOk result (λ made. made ≡ ready quotient lit.now) }
    ensures fits { IfOk result (λ made. ready_fits made ≡ true) }
{
    is_legal(lit);
    match ready(alloc, lit, quotient) {
        Ok(made) => Ok(made),
        Err(ReadyStop::Memory) => Err(Memory),
        Err(ReadyStop::Wide) => unreachable!(),
    }
}

/// The literals made ready, each by itself, with quotients numbered on from `end`.
pub(crate) fn all_ready(alloc: Global, lits: &[Lit], end: u32) -> Result<Vec<Ready>, Memory>
    requires known { are_known end lits.now ≡ true }
    requires short { list_all has_short_constant lits.now ≡ true }
    requires few { end_of_quotients end lits.now < 2 ^ 32 }
    ensures is { IfOk result (λ made. made.items ≡ all_ready end lits.now) }
    ensures fit { IfOk result (λ made. list_all ready_fits made.items ≡ true) }
{
    let mut made = Vec::with_capacity(alloc, lits.len())?;
    let mut quotient = end;
    for lit in lits {
        made.push(made_ready(alloc, lit, quotient)?)?;
        quotient += quotients(lit);
    }
    Ok(made)
}

/// The first number that is no variable's and no quotient's, where quotients are numbered on from
/// `end`.
pub(crate) fn variables(lits: &[Lit], end: u32) -> u32
    requires { end_of_quotients end lits.now < 2 ^ 32 }
    ensures { result ≡ end_of_quotients end lits.now }
{
    let mut quotient = end;
    for lit in lits {
        quotient += quotients(lit);
    }
    quotient
}

/// The multiplier of a bound of a column: at 2v for its lower one, at 2v + 1 for its upper one.
fn multiplier(multipliers: &[i64], column: usize, side: Side) -> i64
    requires { 2 * column + 1 < length multipliers.now }
    ensures { result ≡ multiplier_at multipliers.now column side }
{
    match side {
        Side::Lower => multipliers[2 * column],
        Side::Upper => multipliers[2 * column + 1],
    }
}

/// Takes a bound `times` times, unless that is 0.
fn take(taken: &mut Vec<Taken>, literal: usize, side: Side, times: i64) -> Result<(), Memory>
    ensures { OnOk result (taken.new.items ≡ taken.old.items ++ taken_by literal side times) }
{
    if times != 0 {
        taken.push(Taken {
            literal,
            side,
            times,
        })?;
    }
    Ok(())
}

/// The bound that a literal gives the variable, `times` times. One without a bound is taken 0 times.
fn take_found(
    taken: &mut Vec<Taken>,
    found: Option<(usize, Side)>,
    times: i64,
) -> Result<(), Memory>
    ensures { OnOk result (taken.new.items ≡ taken.old.items ++ taken_by_found found times) }
{
    match found {
        Some((literal, side)) => take(taken, literal, side, times),
        None => Ok(()),
    }
}

/// The lower bound of a variable.
fn take_lower(
    taken: &mut Vec<Taken>,
    readied: &[Ready],
    multipliers: &[i64],
    variable: u32,
) -> Result<(), Memory>
    requires fit { list_all ready_fits readied.now ≡ true }
    requires there { 2 * variable + 1 < length multipliers.now }
    ensures { OnOk result (taken.new.items ≡ taken.old.items ++ taken_by_found (greatest_found readied.now variable) (multiplier_at multipliers.now variable Lower)) }
{
    let times = multiplier(multipliers, variable as usize, Side::Lower);
    if times == 0 {
        return Ok(());
    }
    take_found(taken, greatest_lower(readied, variable), times)?;
    Ok(())
}

/// The upper bound of a variable.
fn take_upper(
    taken: &mut Vec<Taken>,
    readied: &[Ready],
    multipliers: &[i64],
    variable: u32,
) -> Result<(), Memory>
    requires fit { list_all ready_fits readied.now ≡ true }
    requires there { 2 * variable + 1 < length multipliers.now }
    ensures { OnOk result (taken.new.items ≡ taken.old.items ++ taken_by_found (least_found readied.now variable) (multiplier_at multipliers.now variable Upper)) }
{
    let times = multiplier(multipliers, variable as usize, Side::Upper);
    if times == 0 {
        return Ok(());
    }
    take_found(taken, least_upper(readied, variable), times)?;
    Ok(())
}

/// The bounds of a variable.
fn take_variable(
    taken: &mut Vec<Taken>,
    readied: &[Ready],
    multipliers: &[i64],
    variable: u32,
) -> Result<(), Memory>
    requires fit { list_all ready_fits readied.now ≡ true }
    requires there { 2 * variable + 1 < length multipliers.now }
    ensures { OnOk result (taken.new.items ≡ taken.old.items ++ taken_of readied.now multipliers.now variable) }
{
    take_lower(taken, readied, multipliers, variable)?;
    take_upper(taken, readied, multipliers, variable)?;
    Ok(())
}

/// Whether the literal has a row, which is the one of its slack.
fn has_row(readied: &Ready) -> bool
    ensures { result ≡ ready_has_row readied.now }
{
    match readied {
        Ready::Truth(_) => false,
        Ready::Bounds(bounded) => bounded.form.terms().len() > 1,
    }
}

/// The bounds of a literal's slack, where it has one, and the next slack's column.
fn take_slack(
    taken: &mut Vec<Taken>,
    one: &Ready,
    literal: usize,
    multipliers: &[i64],
    column: usize,
) -> Result<usize, Memory>
    requires { ready_has_row one.now ≡ true → 2 * column + 1 < length multipliers.now }
    ensures taken { OnOk result (taken.new.items ≡ taken.old.items ++ (if ready_has_row one.now then taken_by literal Lower (of_lower multipliers.now column) ++
        taken_by literal Upper (of_upper multipliers.now column) else [])) }
    ensures next { IfOk result (λ next. next ≡ (if ready_has_row one.now then column + 1 else column)) }
{
    if !has_row(one) {
        return Ok(column);
    }
    let times = multiplier(multipliers, column, Side::Lower);
    take(taken, literal, Side::Lower, times)?;
    let times = multiplier(multipliers, column, Side::Upper);
    take(taken, literal, Side::Upper, times)?;
    Ok(column + 1)
}

/// The bounds of the slacks, which are numbered on from `first`.
fn take_slacks(
    taken: &mut Vec<Taken>,
    readied: &[Ready],
    multipliers: &[i64],
    first: usize,
) -> Result<(), Memory>
    requires each { length multipliers.now ≡ 2 * (first + rows_of readied.now) }
    ensures { OnOk result (taken.new.items ≡ taken.old.items ++ slacks_from multipliers.now 0 first readied.now) }
{
    let mut column = first;
    for (literal, one) in readied.iter().enumerate() {
        column = take_slack(taken, one, literal, multipliers, column)?;
    }
    Ok(())
}

/// Says nothing: that multipliers, none of which is negative, are below 2^63, for whoever needs it.
pub(crate) fn are_short(multipliers: &[i64])
    requires { list_all (λ k. int_le (pos 0) k) multipliers.now ≡ true }
    ensures { list_all is_short multipliers.now ≡ true }
{
    for times in multipliers {
        let _times = *times;
    }
}

/// What multipliers take of the literals' bounds.
pub(crate) fn all_taken(
    alloc: Global,
    readied: &[Ready],
    multipliers: &[i64],
    variables: u32,
) -> Result<Vec<Taken>, Memory>
    requires fit { list_all ready_fits readied.now ≡ true }
    requires each { length multipliers.now ≡ 2 * (variables + rows_of readied.now) }
    ensures { IfOk result (λ taken. taken.items ≡ all_taken readied.now multipliers.now variables) }
{
    let mut taken = Vec::new(alloc);
    for variable in 0..variables {
        take_variable(&mut taken, readied, multipliers, variable)?;
    }
    take_slacks(&mut taken, readied, multipliers, variables as usize)?;
    Ok(taken)
}
