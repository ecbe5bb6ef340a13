//! The terms of a difference of two forms, from both lists in one walk.

ghost use Rattle.std.specs.Prelude.{◌≡◌, ◌+◌, ◌<◌, ◌≤◌, ◌++◌, [], drop, length, IsTrue, IsErrOf, IfOk, OnOk, true, false};
ghost use Rattle.lin_atoms.specs.Linear.{are_ordered, are_short, is_short};
ghost use Rattle.lin_atoms.specs.Algebra.{collected, negated_terms, term_on};

use crate::judge::narrow;
use base::Memory;
use lin_atoms::WideStop;
use std::alloc::Global;

/// The first term of the difference of what is left of two lists of terms from `i` and `j` on, and from
/// where on they are left then.
fn first(
    ours: &[(u32, i64)],
    i: usize,
    theirs: &[(u32, i64)],
    j: usize,
) -> (u32, i128, usize, usize)
    requires ours { IsTrue (are_ordered 0 ours.now) }
    requires theirs { IsTrue (are_ordered 0 theirs.now) }
    requires i { i < length ours.now }
    requires j { j < length theirs.now }
    ensures difference { collected (drop i ours.now ++ drop j (negated_terms theirs.now)) ≡ term_on result.0 result.1 (collected (drop result.2 ours.now ++ drop result.3 (negated_terms theirs.now))) }
    ensures less { i + j < result.2 + result.3 }
    ensures i { result.2 ≤ length ours.now }
    ensures j { result.3 ≤ length theirs.now }
{
    let (variable, coefficient) = ours[i];
    let (other, taken) = theirs[j];
    if variable < other {
        (variable, i128::from(coefficient), i + 1, j)
    } else if other < variable {
        (other, -i128::from(taken), i, j + 1)
    } else {
        let rest = i128::from(coefficient) - i128::from(taken);
        (variable, rest, i + 1, j + 1)
    }
}

/// Puts a term after the others, unless its coefficient is 0. A wide one has no room.
fn push_term(terms: &mut Vec<(u32, i64)>, variable: u32, coefficient: i128) -> Result<(), WideStop>
    ensures made { OnOk result (terms.new.items ≡ terms.old.items ++ term_on variable coefficient []) }
    ensures short { OnOk result (is_short coefficient ≡ true) }
    ensures wide { IsErrOf result WideStop.Wide → is_short coefficient ≡ false }
{
    let Some(short) = narrow(coefficient) else {
        return Err(WideStop::Wide);
    };
    if short != 0 {
        terms.push((variable, short)).map_err(Memory::from)?;
    }
    Ok(())
}

/// Puts the terms from `from` on after others.
fn push_rest(made: &mut Vec<(u32, i64)>, terms: &[(u32, i64)], from: usize) -> Result<(), Memory>
    requires { from ≤ length terms.now }
    ensures { OnOk result (made.new.items ≡ made.old.items ++ drop from terms.now) }
{
    for i in from..terms.len() {
        made.push(terms[i])?;
    }
    Ok(())
}

/// Puts the terms from `from` on, each with the other sign, after others.
fn push_turned(made: &mut Vec<(u32, i64)>, terms: &[(u32, i64)], from: usize) -> Result<(), Memory>
    requires within { from ≤ length terms.now }
    requires short { IsTrue (are_short terms.now) }
    ensures { OnOk result (made.new.items ≡ made.old.items ++ drop from (negated_terms terms.now)) }
{
    for i in from..terms.len() {
        let (variable, coefficient) = terms[i];
        made.push((variable, -coefficient))?;
    }
    Ok(())
}

/// The terms of the difference of two forms, unless one of them is wide.
pub(crate) fn difference(
    alloc: Global,
    ours: &[(u32, i64)],
    theirs: &[(u32, i64)],
) -> Result<Vec<(u32, i64)>, WideStop>
    requires ours { IsTrue (are_ordered 0 ours.now) }
    requires theirs { IsTrue (are_ordered 0 theirs.now) }
    requires short { IsTrue (are_short ours.now) }
    requires turned { IsTrue (are_short theirs.now) }
    ensures made { IfOk result (λ made. made.items ≡ collected (ours.now ++ negated_terms theirs.now)) }
    ensures short { OnOk result (are_short (collected (ours.now ++ negated_terms theirs.now)) ≡ true) }
    ensures wide { IsErrOf result WideStop.Wide → are_short (collected (ours.now ++ negated_terms theirs.now)) ≡ false }
{
    let room = ours.len().saturating_add(theirs.len());
    let mut made = Vec::with_capacity(alloc, room).map_err(Memory::from)?;
    let mut i = 0;
    let mut j = 0;
    while i < ours.len() && j < theirs.len() {
        let (variable, coefficient, next_i, next_j) = first(ours, i, theirs, j);
        push_term(&mut made, variable, coefficient)?;
        i = next_i;
        j = next_j;
    }
    push_rest(&mut made, ours, i)?;
    push_turned(&mut made, theirs, j)?;
    Ok(made)
}
