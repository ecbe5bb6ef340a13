//! The literals that give the bounds of a node's literals, with their numbers.

ghost use Rattle.std.specs.Prelude.{◌≡◌, ◌-ℤ◌, ◌∷◌, [], ◌++◌, List, length, slice_get, IfOk, IfSome, OnOk, Some, false, neg_ℤ, pos};
ghost use Rattle.lin_atoms.specs.Algebra.{plus};
ghost use Rattle.lin_atoms.specs.declared.lit.Lit.{Lit};
ghost use Rattle.lin_atoms.specs.declared.lit.Lit.TheVariants.{Le, Div, NDiv};
ghost use Rattle.int_rows.specs.Ready.{has_no_variable, less_multiple};
ghost use Rattle.refutation_trees.specs.Combination.{one_minus};
ghost use Rattle.lia_close.specs.Said.{AreAt, AreReasons, said_by};
ghost use Rattle.lia_divisors.specs.machinery.There.{AreThere};

use base::{Copied, Memory};
use lia_guesses::{Said, added, quotients};
use lin_atoms::{Divisor, Lin, Lit};
use std::alloc::Global;

/// One more literal, which is known by that number.
fn put(said: &mut Vec<Said>, number: u32, lit: Lit) -> Result<(), Memory>
    ensures { OnOk result ((known : List Lit) → AreThere known said.old.items → slice_get known number ≡ Some lit → AreThere known said.new.items) }
{
    said.push(Said { number, lit })?;
    Ok(())
}

/// The terms, and that of a new variable.
fn with_last(alloc: Global, terms: &[(u32, i64)], q: u32, n: i64) -> Result<Vec<(u32, i64)>, Memory>
    ensures { IfOk result (λ made. made.items ≡ terms.now ++ (q, n) ∷ []) }
{
    let mut made = Vec::with_capacity(alloc, terms.len())?;
    for (variable, coefficient) in terms {
        made.push((*variable, *coefficient))?;
    }
    made.push((q, n))?;
    Ok(made)
}

/// The divisor with the other sign.
fn minus(n: Divisor) -> i64
    ensures { result ≡ neg_ℤ (pos n) }
{
    -n.get()
}

/// 1 less the divisor.
fn one_less(n: Divisor) -> i64
    ensures { result ≡ pos 1 -ℤ pos n }
{
    1 - n.get()
}

/// The form less a multiple of its quotient, where that is a form.
fn less_multiple(alloc: Global, n: Divisor, q: u32, lin: &Lin) -> Result<Option<Lin>, Memory>
    ensures { IfOk result (λ made. IfSome made (λ less. less ≡ less_multiple n q lin.now)) }
{
    let terms = with_last(alloc, lin.terms(), q, minus(n))?;
    match Lin::new(terms, lin.constant()) {
        Ok(less) => Ok(Some(less)),
        Err(_) => Ok(None),
    }
}

/// The remainder is 0.
fn put_whole(
    alloc: Global,
    said: &mut Vec<Said>,
    n: Divisor,
    lin: &Lin,
    reason: u32,
    q: u32,
) -> Result<(), Memory>
    ensures { OnOk result ((known : List Lit) → AreThere known said.old.items → AreAt known reason (said_by q (Div n lin.now)) → AreThere known said.new.items) }
{
    match less_multiple(alloc, n, q, lin)? {
        Some(less) => {
            put(said, reason, Lit::Eq(less))?;
            Ok(())
        }
        None => Ok(()),
    }
}

/// The remainder is at least 1.
fn put_above(alloc: Global, said: &mut Vec<Said>, less: &Lin, number: u32) -> Result<(), Memory>
    ensures { OnOk result ((known : List Lit) → AreThere known said.old.items → slice_get known number ≡ Some (Le (one_minus less.now)) → AreThere known said.new.items) }
{
    match less.negated(alloc)?.plus(1) {
        Some(above) => {
            put(said, number, Lit::Le(above))?;
            Ok(())
        }
        None => Ok(()),
    }
}

/// The remainder is below the divisor.
fn put_below(
    alloc: Global,
    said: &mut Vec<Said>,
    less: &Lin,
    n: Divisor,
    number: u32,
) -> Result<(), Memory>
    ensures { OnOk result ((known : List Lit) → AreThere known said.old.items → slice_get known number ≡ Some (Le (plus less.now (pos 1 -ℤ pos n))) → AreThere known said.new.items) }
{
    match less.copy(alloc)?.plus(one_less(n)) {
        Some(below) => {
            put(said, number, Lit::Le(below))?;
            Ok(())
        }
        None => Ok(()),
    }
}

/// The remainder isn't 0.
fn put_rest(
    alloc: Global,
    said: &mut Vec<Said>,
    n: Divisor,
    lin: &Lin,
    reason: u32,
    q: u32,
) -> Result<(), Memory>
    ensures { OnOk result ((known : List Lit) → AreThere known said.old.items → AreAt known reason (said_by q (NDiv n lin.now)) → AreThere known said.new.items) }
{
    match less_multiple(alloc, n, q, lin)? {
        Some(less) => {
            put_above(alloc, said, &less, reason)?;
            put_below(alloc, said, &less, n, added(reason, 1)?)?;
            Ok(())
        }
        None => Ok(()),
    }
}

/// What gives the bounds of a literal with a variable, which is known from that number on.
fn put_bounds(
    alloc: Global,
    said: &mut Vec<Said>,
    lit: &Lit,
    reason: u32,
    q: u32,
) -> Result<(), Memory>
    ensures { OnOk result ((known : List Lit) → AreThere known said.old.items → AreAt known reason (said_by q lit.now) → AreThere known said.new.items) }
{
    match lit {
        Lit::Le(lin) => {
            put(said, reason, Lit::Le(lin.copy(alloc)?))?;
            Ok(())
        }
        Lit::Eq(lin) => {
            put(said, reason, Lit::Eq(lin.copy(alloc)?))?;
            Ok(())
        }
        Lit::Div(n, lin) => {
            put_whole(alloc, said, *n, lin, reason, q)?;
            Ok(())
        }
        Lit::NDiv(n, lin) => {
            put_rest(alloc, said, *n, lin, reason, q)?;
            Ok(())
        }
    }
}

fn has_no_variable(lit: &Lit) -> bool
    ensures { result ≡ has_no_variable lit.now }
{
    match lit {
        Lit::Le(lin) => lin.terms().is_empty(),
        Lit::Eq(lin) => lin.terms().is_empty(),
        Lit::Div(_, lin) => lin.terms().is_empty(),
        Lit::NDiv(_, lin) => lin.terms().is_empty(),
    }
}

/// What gives the bounds of a literal. One without a variable has none.
fn put_literal(
    alloc: Global,
    said: &mut Vec<Said>,
    lit: &Lit,
    reason: u32,
    q: u32,
) -> Result<(), Memory>
    ensures { OnOk result ((known : List Lit) → AreThere known said.old.items → (has_no_variable lit.now ≡ false → AreAt known reason (said_by q lit.now)) → AreThere known said.new.items) }
{
    if has_no_variable(lit) {
        return Ok(());
    }
    put_bounds(alloc, said, lit, reason, q)?;
    Ok(())
}

/// What gives the bounds of the literals, in order, where each literal's is known from its reason on.
/// Quotients are numbered on from `end`. What has no room is left out.
pub(crate) fn all_said(
    alloc: Global,
    lits: &[Lit],
    reasons: &[u32],
    end: u32,
) -> Result<Vec<Said>, Memory>
    requires { length reasons.now ≡ length lits.now }
    ensures { IfOk result (λ said. (known : List Lit) → AreReasons known end lits.now reasons.now → AreThere known said.items) }
{
    let mut said = Vec::new(alloc);
    let mut quotient = end;
    for (at, lit) in lits.iter().enumerate() {
        put_literal(alloc, &mut said, lit, reasons[at], quotient)?;
        quotient = added(quotient, quotients(lit))?;
    }
    Ok(said)
}
