//! Terms of combinations, term by term, exactly: a sum of two products of numbers below 2^63 is
//! below 2^127.

ghost use Rattle.std.specs.Prelude.{◌≡◌, ◌+◌, ◌<◌, ◌≤◌, ◌^◌, ◌+ℤ◌, ◌*ℤ◌, ◌++◌, ◌==◌, ◌∷◌, [], drop, length, nat_abs, not, pos, true, false, IsNone, IfOk, IfSome, OnOk, ◌↔◌};
ghost use Rattle.std.specs.List.{filter};
ghost use Rattle.base.specs.Widths.{long_limit, short_limit};
ghost use Rattle.lin_atoms.specs.Linear.{are_ordered, are_short, is_short};
ghost use Rattle.lin_atoms.specs.Algebra.{collected, scaled_terms, term_on};

use base::Memory;
use lin_atoms::{Accumulator, Lin, LinStop};
use std::alloc::Global;

/// The exact product.
fn product(k: i64, a: i64) -> i128
    requires { nat_abs k < short_limit }
    ensures value { result ≡ k *ℤ a }
    ensures bound { nat_abs result < 2 ^ 126 }
{
    i128::from(k) * i128::from(a)
}

/// The sum of two products.
fn products(k: i64, a: i64, m: i64, b: i64) -> i128
    requires k { nat_abs k < short_limit }
    requires m { nat_abs m < short_limit }
    ensures { result ≡ k *ℤ a +ℤ m *ℤ b }
{
    product(k, a) + product(m, b)
}

/// Puts a term behind the others, unless its coefficient is 0.
fn push_term(terms: &mut Vec<(u32, i128)>, variable: u32, coefficient: i128) -> Result<(), Memory>
    ensures { OnOk result (terms.new.items ≡ terms.old.items ++ term_on variable coefficient []) }
{
    if coefficient != 0 {
        terms.push((variable, coefficient))?;
    }
    Ok(())
}

/// The first term of the sum of what is left of two multiples from `i` and `j` on, and from where
/// on they are left then.
fn first(
    k: i64,
    ours: &[(u32, i64)],
    i: usize,
    m: i64,
    theirs: &[(u32, i64)],
    j: usize,
) -> (u32, i128, usize, usize)
    requires k { nat_abs k < short_limit }
    requires m { nat_abs m < short_limit }
    requires k_some { 0 < nat_abs k }
    requires m_some { 0 < nat_abs m }
    requires ours { are_ordered 0 ours.now ≡ true }
    requires theirs { are_ordered 0 theirs.now ≡ true }
    requires i { i < length ours.now }
    requires j { j < length theirs.now }
    ensures sum { collected (drop i (scaled_terms k ours.now) ++ drop j (scaled_terms m theirs.now))
        ≡ term_on result.0 result.1 (collected (drop result.2 (scaled_terms k ours.now) ++ drop result.3 (scaled_terms m theirs.now))) }
    ensures less { i + j < result.2 + result.3 }
    ensures i { result.2 ≤ length ours.now }
    ensures j { result.3 ≤ length theirs.now }
{
    let (variable, a) = ours[i];
    let (other, b) = theirs[j];
    if variable < other {
        (variable, product(k, a), i + 1, j)
    } else if other < variable {
        (other, product(m, b), i, j + 1)
    } else {
        (variable, products(k, a, m, b), i + 1, j + 1)
    }
}

/// Puts the multiples of the terms from `from` on behind others.
fn push_rest(
    made: &mut Vec<(u32, i128)>,
    k: i64,
    terms: &[(u32, i64)],
    from: usize,
) -> Result<(), Memory>
    requires k { nat_abs k < short_limit }
    requires some { 0 < nat_abs k }
    requires rising { are_ordered 0 terms.now ≡ true }
    requires from { from ≤ length terms.now }
    ensures { OnOk result (made.new.items ≡ made.old.items ++ drop from (scaled_terms k terms.now)) }
{
    for i in from..terms.len() {
        let (variable, a) = terms[i];
        let multiple = product(k, a);
        made.push((variable, multiple))?;
    }
    Ok(())
}

/// The terms of the sum of two multiples.
pub(crate) fn combined(
    alloc: Global,
    k: i64,
    ours: &[(u32, i64)],
    m: i64,
    theirs: &[(u32, i64)],
) -> Result<Vec<(u32, i128)>, Memory>
    requires k { nat_abs k < short_limit }
    requires m { nat_abs m < short_limit }
    requires k_some { 0 < nat_abs k }
    requires m_some { 0 < nat_abs m }
    requires ours { are_ordered 0 ours.now ≡ true }
    requires theirs { are_ordered 0 theirs.now ≡ true }
    ensures made { IfOk result (λ made. made.items ≡ collected (scaled_terms k ours.now ++ scaled_terms m theirs.now)) }
    ensures ordered { IfOk result (λ made. are_ordered 0 made.items ≡ true) }
{
    let mut made = Vec::with_capacity(alloc, ours.len())?;
    let mut i = 0;
    let mut j = 0;
    while i < ours.len() && j < theirs.len() {
        let (variable, coefficient, next_i, next_j) = first(k, ours, i, m, theirs, j);
        push_term(&mut made, variable, coefficient)?;
        i = next_i;
        j = next_j;
    }
    push_rest(&mut made, k, ours, i)?;
    push_rest(&mut made, m, theirs, j)?;
    Ok(made)
}

/// The number with 64 bits, unless it is wide.
pub(crate) fn narrow(n: i128) -> Option<i64>
    ensures some { IfSome result (λ narrow. narrow ≡ n) }
    ensures none { IsNone result ↔ (is_short n ≡ false) }
{
    if n.unsigned_abs() < 1 << 63 {
        Some(n as i64)
    } else {
        None
    }
}

/// The exact sum of two products.
fn total(k: i64, a: i128, m: i64, b: i128) -> Accumulator
    requires a { nat_abs a < long_limit }
    requires b { nat_abs b < long_limit }
    ensures { result.value ≡ k *ℤ a +ℤ m *ℤ b }
{
    let mut total = Accumulator::new(0);
    total.add(k, a);
    total.add(m, b);
    total
}

/// The sum of two products with 64 bits, unless it is wide.
pub(crate) fn constant(k: i64, a: i128, m: i64, b: i128) -> Option<i64>
    requires a { nat_abs a < long_limit }
    requires b { nat_abs b < long_limit }
    ensures some { IfSome result (λ n. n ≡ k *ℤ a +ℤ m *ℤ b) }
    ensures none { IsNone result ↔ (is_short (k *ℤ a +ℤ m *ℤ b) ≡ false) }
{
    match total(k, a, m, b).to_i128() {
        Some(n) => narrow(n),
        None => None,
    }
}

/// The terms but for those of one variable.
pub(crate) fn without(
    alloc: Global,
    terms: &[(u32, i64)],
    variable: usize,
) -> Result<Vec<(u32, i64)>, Memory>
    ensures { IfOk result (λ made. made.items ≡ filter (λ t. not (t.0 == variable)) terms.now) }
{
    let mut made = Vec::with_capacity(alloc, terms.len())?;
    for (v, a) in terms {
        if *v as usize == variable {
            continue;
        }
        made.push((*v, *a))?;
    }
    Ok(made)
}

/// The form of terms and a constant that have room.
pub(crate) fn form_of(terms: Vec<(u32, i64)>, constant: i128) -> Lin
    requires ordered { are_ordered 0 terms.items ≡ true }
    requires short { are_short terms.items ≡ true }
    requires long { nat_abs constant < long_limit }
    ensures { result ≡ record { terms = terms.items; constant = constant } }
{
    match Lin::new(terms, constant) {
        Ok(made) => made,
        Err(LinStop::Order) => unreachable!(),
        Err(LinStop::Wide) => unreachable!(),
    }
}

/// The form of one variable, with the coefficient 1.
pub(crate) fn one_variable(alloc: Global, variable: u32, constant: i128) -> Result<Lin, Memory>
    requires { nat_abs constant < long_limit }
    ensures { IfOk result (λ made. made ≡ record { terms = (variable, pos 1) ∷ []; constant = constant }) }
{
    let mut terms = Vec::with_capacity(alloc, 1)?;
    terms.push((variable, 1i64))?;
    let made = form_of(terms, constant);
    Ok(made)
}
