//! Sums of multiples of forms in numbers of 64 bits, where each is found to have room. What isn't
//! found here is left to the exact sums.

ghost use Rattle.std.specs.Prelude.{◌≡◌, ◌+◌, ◌<◌, ◌≤◌, ◌++◌, [], ◌+ℤ◌, ◌-ℤ◌, ◌*ℤ◌, ◌<ℤ◌, drop, length, map, neg_ℤ, pos, true, IsTrue, IsSome, IfOk, IfSome};
ghost use Rattle.std.specs.Int.{int_div_euclid};
ghost use Rattle.std.specs.List.{list_all};
ghost use Rattle.lin_atoms.specs.Multiples.{is_multiple};
ghost use Rattle.lin_atoms.specs.Algebra.{added, collected, scaled, scaled_terms, term_on};
ghost use Rattle.lin_atoms.specs.Linear.{are_ordered, fits};
ghost use Rattle.refutation_trees.specs.Combination.{are_multipliers, combined, is_above_zero, is_divided_by};
ghost use Rattle.int_rows.specs.Ready.{rounded};
ghost use Rattle.farkas_proof.specs.machinery.Narrow.{sum_of};

use crate::division::{floored, narrow, whole_of};
use crate::rounding::form_of;
use crate::sum::multiplied;
use base::Memory;
use lin_atoms::{Lin, Lit};
use std::alloc::Global;
use std::mem;

/// A sum of multiples of forms, whose memory the nodes use in turn.
#[derive(Drop)]
pub(crate) struct Narrow {
    /// The variables rise, and no coefficient is 0.
    pub(crate) terms: Vec<(u32, i64)>,
    /// The constant with the other sign.
    pub(crate) negated: i64,
    /// Where the next sum is made.
    spare: Vec<(u32, i64)>,
}

/// The exact product.
fn product(k: i64, a: i64) -> i128
    ensures { result ≡ k *ℤ a }
{
    i128::from(k) * i128::from(a)
}

/// A product and a number.
fn with_product(k: i64, a: i64, n: i64) -> i128
    ensures { result ≡ k *ℤ a +ℤ n }
{
    product(k, a) + i128::from(n)
}

/// A number less a product.
fn less_product(n: i64, k: i64, a: i64) -> i128
    ensures { result ≡ n -ℤ k *ℤ a }
{
    i128::from(n) - product(k, a)
}

/// A constant with the other sign, less a multiple of another, where all are found to have 64 bits.
fn less_multiple(negated: i64, k: i64, constant: i128) -> Option<i64>
    ensures { IfSome result (λ m. m ≡ negated -ℤ k *ℤ constant) }
{
    match narrow(constant) {
        Some(a) => narrow(less_product(negated, k, a)),
        None => None,
    }
}

/// Puts a term behind others, unless its coefficient is 0, and says whether that could be done.
fn push_term(terms: &mut Vec<(u32, i64)>, variable: u32, coefficient: i128) -> bool
    ensures { IsTrue result → terms.new.items ≡ terms.old.items ++ term_on variable coefficient [] }
{
    match narrow(coefficient) {
        Some(coefficient) => {
            if coefficient == 0 {
                true
            } else {
                terms.push((variable, coefficient)).is_ok()
            }
        }
        None => false,
    }
}

/// Puts multiples of terms behind others, and says whether that could be done.
fn push_multiples(terms: &mut Vec<(u32, i64)>, k: i64, added: &[(u32, i64)]) -> bool
    ensures { IsTrue result → terms.new.items ≡ terms.old.items ++ scaled_terms k added.now }
{
    for (variable, coefficient) in added {
        if !push_term(terms, *variable, product(k, *coefficient)) {
            return false;
        }
    }
    true
}

/// Puts the terms from `from` on behind others, and says whether that could be done.
fn push_rest(made: &mut Vec<(u32, i64)>, terms: &[(u32, i64)], from: usize) -> bool
    requires { from ≤ length terms.now }
    ensures { IsTrue result → made.new.items ≡ made.old.items ++ drop from terms.now }
{
    made.extend_from_slice(&terms[from..]).is_ok()
}

/// The first term of the sum of what is left of a multiple and of other terms, from `i` and `j` on,
/// and from where on they are left then.
fn first(
    k: i64,
    ours: &[(u32, i64)],
    i: usize,
    theirs: &[(u32, i64)],
    j: usize,
) -> (u32, i128, usize, usize)
    requires ours { are_ordered 0 ours.now ≡ true }
    requires theirs { are_ordered 0 theirs.now ≡ true }
    requires i { i < length ours.now }
    requires j { j < length theirs.now }
    ensures sum { collected (scaled_terms k (drop i ours.now) ++ drop j theirs.now) ≡ term_on result.0 result.1 (collected (scaled_terms k (drop result.2 ours.now) ++ drop result.3 theirs.now)) }
    ensures less { i + j < result.2 + result.3 }
    ensures i { result.2 ≤ length ours.now }
    ensures j { result.3 ≤ length theirs.now }
{
    let (variable, coefficient) = ours[i];
    let (other, added) = theirs[j];
    if variable < other {
        (variable, product(k, coefficient), i + 1, j)
    } else if other < variable {
        (other, i128::from(added), i, j + 1)
    } else {
        (variable, with_product(k, coefficient, added), i + 1, j + 1)
    }
}

/// Makes the sum of a multiple of terms and of other terms, and says whether that could be done.
fn merge(made: &mut Vec<(u32, i64)>, k: i64, ours: &[(u32, i64)], theirs: &[(u32, i64)]) -> bool
    requires empty { made.old.items ≡ [] }
    requires ours { are_ordered 0 ours.now ≡ true }
    requires theirs { are_ordered 0 theirs.now ≡ true }
    ensures { IsTrue result → made.new.items ≡ collected (scaled_terms k ours.now ++ theirs.now) }
{
    let mut i = 0;
    let mut j = 0;
    while i < ours.len() && j < theirs.len() {
        let (variable, coefficient, next_i, next_j) = first(k, ours, i, theirs, j);
        if !push_term(made, variable, coefficient) {
            return false;
        }
        i = next_i;
        j = next_j;
    }
    if !push_multiples(made, k, &ours[i..]) {
        return false;
    }
    push_rest(made, theirs, j)
}

/// Puts a multiple of terms where there are none, and says whether that could be done.
fn put_multiple(terms: &mut Vec<(u32, i64)>, k: i64, added: &[(u32, i64)]) -> bool
    requires empty { terms.old.items ≡ [] }
    requires rising { are_ordered 0 added.now ≡ true }
    ensures { IsTrue result → terms.new.items ≡ collected (scaled_terms k added.now ++ terms.old.items) }
{
    push_multiples(terms, k, added)
}

/// The quotients of the coefficients, where all are found to be whole.
fn wholes(
    alloc: Global,
    terms: &[(u32, i64)],
    divisor: i64,
) -> Result<Option<Vec<(u32, i64)>>, Memory>
    requires { pos 0 <ℤ divisor }
    ensures some { IfOk result (λ made. IfSome made (λ made. made.items ≡ map (λ t. (t.0, int_div_euclid t.1 divisor)) terms.now)) }
    ensures divided { IfOk result (λ made. IfSome made (λ made. list_all (λ t. is_multiple divisor t.1) terms.now ≡ true)) }
{
    let mut made = Vec::with_capacity(alloc, terms.len())?;
    for (variable, coefficient) in terms {
        match whole_of(*coefficient, divisor) {
            Some(quotient) => made.push((*variable, quotient))?,
            None => return Ok(None),
        }
    }
    Ok(Some(made))
}

/// The constant divided and rounded up, given with the other sign.
fn rounded_constant(negated: i64, divisor: i64) -> i128
    requires { pos 0 <ℤ divisor }
    ensures { result ≡ neg_ℤ (int_div_euclid negated divisor) }
{
    -i128::from(floored(negated, divisor))
}

impl Narrow {
    /// The sum of no forms.
    pub(crate) fn nothing(alloc: Global) -> Narrow {
        Narrow {
            terms: Vec::new(alloc),
            negated: 0,
            spare: Vec::new(alloc),
        }
    }

    /// Adds a multiple of a form, and says whether that could be done.
    fn add_multiple(&mut self, k: i64, lin: &Lin) -> bool
        requires { are_ordered 0 self.old.terms.items ≡ true }
        ensures value { IsTrue result → sum_of self.new ≡ added (scaled k lin.now) (sum_of self.old) }
        ensures ordered { IsTrue result → are_ordered 0 self.new.terms.items ≡ true }
    {
        match less_multiple(self.negated, k, lin.constant()) {
            Some(negated) => {
                self.negated = negated;
                if self.terms.is_empty() {
                    return put_multiple(&mut self.terms, k, lin.terms());
                }
                self.spare.clear();
                if !merge(&mut self.spare, k, lin.terms(), self.terms.as_slice()) {
                    return false;
                }
                mem::swap(&mut self.terms, &mut self.spare);
                true
            }
            None => false,
        }
    }

    /// Makes it the sum of the multiples, where the multipliers are in order and all numbers are
    /// found to have room, and says whether that could be done.
    pub(crate) fn combine(&mut self, lits: &[Lit], multipliers: &[(u32, i64)]) -> bool
        ensures legal { IsTrue result → are_multipliers lits.now multipliers.now ≡ true }
        ensures value { IsTrue result → sum_of self.new ≡ combined lits.now multipliers.now }
        ensures ordered { IsTrue result → are_ordered 0 self.new.terms.items ≡ true }
    {
        self.terms.clear();
        self.negated = 0;
        let mut left = multipliers.len();
        while left > 0 {
            left -= 1;
            let (which, k) = multipliers[left];
            match multiplied(lits, which, k) {
                Some(lin) => {
                    if !self.add_multiple(k, lin) {
                        return false;
                    }
                }
                None => return false,
            }
        }
        true
    }

    /// Whether the sum is 0 on every variable and its constant is above 0.
    pub(crate) fn is_above_zero(&self) -> bool
        ensures { result ≡ is_above_zero (sum_of self.now) }
    {
        self.terms.is_empty() && self.negated < 0
    }

    /// The sum divided by a divisor of its coefficients, with the constant rounded up, where that
    /// is found to have room.
    pub(crate) fn rounded(&self, alloc: Global, divisor: i64) -> Result<Option<Lin>, Memory>
        requires positive { pos 0 <ℤ divisor }
        requires ordered { are_ordered 0 self.now.terms.items ≡ true }
        ensures divided { IfOk result (λ made. IsSome made → is_divided_by divisor (sum_of self.now) ≡ true) }
        ensures within { IfOk result (λ made. IsSome made → fits (rounded divisor (sum_of self.now)) ≡ true) }
        ensures value { IfOk result (λ made. IfSome made (λ lin. lin ≡ rounded divisor (sum_of self.now))) }
    {
        match wholes(alloc, self.terms.as_slice(), divisor)? {
            Some(terms) => {
                let constant = rounded_constant(self.negated, divisor);
                Ok(form_of(terms, constant))
            }
            None => Ok(None),
        }
    }
}
