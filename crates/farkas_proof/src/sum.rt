ghost use Rattle.std.specs.Prelude.{◌≡◌, ◌+◌, ◌<◌, ◌≤◌, ◌^◌, ◌++◌, [], ◌==◌, ◌+ℤ◌, ◌*ℤ◌, ◌<ℤ◌, ℤ, take, drop, length, nat_abs, neg_ℤ, true, false, OnOk, IfOk, IfErr, IfSome, IsSome, IsNone, slice_index_or, pos};
ghost use Rattle.base.specs.Widths.{long_limit, short_limit};
ghost use Rattle.lin_atoms.specs.Algebra.{added, collected, scaled, scaled_terms, term_on, with_term};
ghost use Rattle.lin_atoms.specs.Denial.{linear_of};
ghost use Rattle.lin_atoms.specs.Linear.{are_ordered, of_constant};
ghost use Rattle.refutation_trees.specs.Combination.{are_multipliers, combined, is_above_zero, is_divided_by, is_multiplier, linear_at, may_be_multiplied};
ghost use Rattle.farkas_proof.specs.machinery.Sum.{IsSum, are_counted, seen, standing};

use crate::division::is_multiple;
use base::Memory;
use lin_atoms::{Accumulator, Lin, Lit};
use std::alloc::Global;

/// How many products a coefficient of a sum may have.
const MOST_PRODUCTS: u64 = 1 << 32;

/// An exact sum of multiples of forms, whose numbers may be of any width that 2^32 products reach.
#[derive(Drop)]
pub(crate) struct Sum {
    /// The variables rise, and no coefficient is 0.
    pub(crate) terms: Vec<(u32, Accumulator)>,
    /// The constant with the other sign.
    pub(crate) negated: Accumulator,
    pub(crate) products: u64,
}

/// Where the variable's term stands, or else the place before which a term of it belongs.
fn place(terms: &[(u32, Accumulator)], variable: u32) -> Result<usize, usize>
    requires { are_ordered 0 (seen terms.now) ≡ true }
    ensures met { IfOk result (λ at. (at < length terms.now) × ((slice_index_or (seen terms.now) at (0, pos 0)).0 ≡ variable)
        × ((a : ℤ) → with_term variable a (seen terms.now)
        ≡ take at (seen terms.now) ++ term_on variable (a +ℤ (slice_index_or (seen terms.now) at (0, pos 0)).1) (drop (at + 1) (seen terms.now)))) }
    ensures free { IfErr result (λ at. (at ≤ length terms.now) × ((a : ℤ) → with_term variable a (seen terms.now) ≡ take at (seen terms.now) ++ term_on variable a (drop at (seen terms.now)))) }
{
    let (mut low, mut high) = (0, terms.len());
    while low < high {
        let middle = low + (high - low) / 2;
        let there = terms[middle].0;
        if there == variable {
            return Ok(middle);
        }
        if there < variable {
            low = middle + 1;
        } else {
            high = middle;
        }
    }
    Err(low)
}

/// Adds a product.
fn add_to(total: &mut Accumulator, k: i64, a: i64)
    requires { total.old.added < 2 ^ 32 }
    ensures value { total.new.value ≡ total.old.value +ℤ k *ℤ a }
    ensures added { total.new.added ≡ total.old.added + 1 }
{
    total.add(k, i128::from(a));
}

/// Takes a product away.
fn add_negated(total: &mut Accumulator, k: i64, a: i128)
    requires room { total.old.added < 2 ^ 32 }
    requires short { nat_abs k < short_limit }
    requires constant { nat_abs a < long_limit }
    ensures value { total.new.value ≡ total.old.value +ℤ neg_ℤ (k *ℤ a) }
    ensures added { total.new.added ≡ total.old.added + 1 }
{
    total.add(-k, a);
}

/// A product by itself. It has 126 bits, so that it may be what the sum begins with.
fn one_product(k: i64, a: i64) -> Accumulator
    ensures value { result.value ≡ k *ℤ a }
    ensures added { result.added ≡ 0 }
{
    Accumulator::new(i128::from(k) * i128::from(a))
}

fn is_zero(total: &Accumulator) -> bool
    ensures { result ≡ (nat_abs total.now.value == 0) }
{
    total.sign() == 0
}

/// Adds a product to the coefficient of a variable.
fn add_product(
    terms: &mut Vec<(u32, Accumulator)>,
    products: u64,
    variable: u32,
    k: i64,
    a: i64,
) -> Result<(), Memory>
    requires room { products < 2 ^ 32 }
    requires ordered { are_ordered 0 (seen terms.old.items) ≡ true }
    requires counted { are_counted products terms.old.items ≡ true }
    ensures value { OnOk result (seen terms.new.items ≡ with_term variable (k *ℤ a) (seen terms.old.items)) }
    ensures counted { OnOk result (are_counted (products + 1) terms.new.items ≡ true) }
{
    match place(terms.as_slice(), variable) {
        Ok(at) => {
            add_to(&mut terms[at].1, k, a);
            if is_zero(&terms[at].1) {
                terms.remove(at);
            }
            Ok(())
        }
        Err(at) => {
            let total = one_product(k, a);
            if !is_zero(&total) {
                terms.insert(at, (variable, total))?;
            }
            Ok(())
        }
    }
}

/// Puts a product behind terms, unless it is 0.
fn push_product(
    terms: &mut Vec<(u32, Accumulator)>,
    variable: u32,
    k: i64,
    a: i64,
) -> Result<(), Memory>
    requires { are_counted 1 terms.old.items ≡ true }
    ensures value { OnOk result (seen terms.new.items ≡ seen terms.old.items ++ term_on variable (k *ℤ a) []) }
    ensures counted { OnOk result (are_counted 1 terms.new.items ≡ true) }
{
    let total = one_product(k, a);
    if !is_zero(&total) {
        terms.push((variable, total))?;
    }
    Ok(())
}

/// Puts multiples of terms where there are none.
fn put_terms(
    terms: &mut Vec<(u32, Accumulator)>,
    k: i64,
    added: &[(u32, i64)],
) -> Result<(), Memory>
    requires { terms.old.items ≡ [] }
    ensures value { OnOk result (seen terms.new.items ≡ scaled_terms k added.now) }
    ensures counted { OnOk result (are_counted 1 terms.new.items ≡ true) }
{
    for (variable, coefficient) in added {
        push_product(terms, *variable, k, *coefficient)?;
    }
    Ok(())
}

/// Adds multiples of terms to none, and bounds the products of a coefficient then.
fn first_terms(
    terms: &mut Vec<(u32, Accumulator)>,
    products: u64,
    k: i64,
    added: &[(u32, i64)],
) -> Result<u64, Memory>
    requires empty { terms.old.items ≡ [] }
    requires rising { are_ordered 0 added.now ≡ true }
    requires within { products ≤ 2 ^ 32 }
    ensures value { OnOk result (seen terms.new.items ≡ collected (scaled_terms k added.now ++ seen terms.old.items)) }
    ensures counted { IfOk result (λ n. are_counted n terms.new.items ≡ true) }
    ensures within { IfOk result (λ n. n ≤ 2 ^ 32) }
    ensures more { IfOk result (λ n. products ≤ n) }
{
    if products == MOST_PRODUCTS {
        return Err(Memory);
    }
    put_terms(terms, k, added)?;
    Ok(products + 1)
}

/// Adds multiples of terms, and bounds the products of a coefficient then.
fn add_terms(
    terms: &mut Vec<(u32, Accumulator)>,
    products: u64,
    k: i64,
    added: &[(u32, i64)],
) -> Result<u64, Memory>
    requires ordered { are_ordered 0 (seen terms.old.items) ≡ true }
    requires counted { are_counted products terms.old.items ≡ true }
    requires rising { are_ordered 0 added.now ≡ true }
    requires within { products ≤ 2 ^ 32 }
    ensures value { OnOk result (seen terms.new.items ≡ collected (scaled_terms k added.now ++ seen terms.old.items)) }
    ensures counted { IfOk result (λ n. are_counted n terms.new.items ≡ true) }
    ensures within { IfOk result (λ n. n ≤ 2 ^ 32) }
    ensures more { IfOk result (λ n. products ≤ n) }
{
    if terms.is_empty() {
        return first_terms(terms, products, k, added);
    }
    let mut counted = products;
    let mut left = added.len();
    while left > 0 {
        left -= 1;
        if counted == MOST_PRODUCTS {
            return Err(Memory);
        }
        let (variable, coefficient) = added[left];
        add_product(terms, counted, variable, k, coefficient)?;
        counted += 1;
    }
    Ok(counted)
}

impl Sum {
    /// The sum of no forms.
    pub(crate) fn nothing(alloc: Global) -> Sum
        ensures value { standing result.terms.items result.negated ≡ of_constant (pos 0) }
        ensures fine { IsSum result.terms.items result.negated result.products }
    {
        Sum {
            terms: Vec::new(alloc),
            negated: Accumulator::new(0),
            products: 0,
        }
    }

    /// Makes it the sum of no forms again, in the memory that it has.
    fn clear(&mut self)
        ensures value { standing self.new.terms.items self.new.negated ≡ of_constant (pos 0) }
        ensures fine { IsSum self.new.terms.items self.new.negated self.new.products }
    {
        self.terms.clear();
        self.negated = Accumulator::new(0);
        self.products = 0;
    }

    /// Adds a multiple of a form.
    pub(crate) fn add_multiple(&mut self, k: i64, lin: &Lin) -> Result<(), Memory>
        requires short { nat_abs k < short_limit }
        requires fine { IsSum self.old.terms.items self.old.negated self.old.products }
        ensures value { OnOk result (standing self.new.terms.items self.new.negated ≡ added (scaled k lin.now) (standing self.old.terms.items self.old.negated)) }
        ensures fine { OnOk result (IsSum self.new.terms.items self.new.negated self.new.products) }
    {
        let products = add_terms(&mut self.terms, self.products, k, lin.terms())?;
        if products == MOST_PRODUCTS {
            return Err(Memory);
        }
        add_negated(&mut self.negated, k, lin.constant());
        self.products = products + 1;
        Ok(())
    }

    /// Whether the sum is 0 on every variable and its constant is above 0.
    pub(crate) fn is_above_zero(&self) -> bool
        ensures { result ≡ is_above_zero (standing self.now.terms.items self.now.negated) }
    {
        self.terms.is_empty() && self.negated.sign() < 0
    }

    /// Whether the divisor divides each coefficient.
    pub(crate) fn is_divided_by(&self, divisor: i64) -> bool
        requires { pos 0 <ℤ divisor }
        ensures { result ≡ is_divided_by divisor (standing self.now.terms.items self.now.negated) }
    {
        for term in &self.terms {
            if !is_multiple(&term.1, divisor) {
                return false;
            }
        }
        true
    }
}

/// The form of a literal of that number, if it may be multiplied so.
pub(crate) fn multiplied(lits: &[Lit], which: u32, k: i64) -> Option<&Lin>
    ensures some { IfSome result (λ lin. (is_multiplier lits.now (which, k) ≡ true) × (lin.now ≡ linear_at lits.now which)) }
    ensures short { IsSome result → nat_abs k < short_limit }
    ensures none { IsNone result → is_multiplier lits.now (which, k) ≡ false }
{
    if k == i64::MIN {
        return None;
    }
    match lits.get(which as usize) {
        Some(lit) => of_literal(lit, k),
        None => None,
    }
}

fn of_literal(lit: &Lit, k: i64) -> Option<&Lin>
    ensures some { IfSome result (λ lin. (may_be_multiplied k lit.now ≡ true) × (lin.now ≡ linear_of lit.now)) }
    ensures none { IsNone result → may_be_multiplied k lit.now ≡ false }
{
    match lit {
        Lit::Le(lin) => { if k >= 0 { Some(lin) } else { None } }
        Lit::Eq(lin) => Some(lin),
        _ => None,
    }
}

/// Makes a sum that of the multiples, where the multipliers are in order, and says whether they are.
pub(crate) fn combine(
    sum: &mut Sum,
    lits: &[Lit],
    multipliers: &[(u32, i64)],
) -> Result<bool, Memory>
    ensures legal { IfOk result (λ legal. legal ≡ are_multipliers lits.now multipliers.now) }
    ensures value { IfOk result (λ legal. legal ≡ true → standing sum.new.terms.items sum.new.negated ≡ combined lits.now multipliers.now) }
    ensures fine { IfOk result (λ legal. legal ≡ true → IsSum sum.new.terms.items sum.new.negated sum.new.products) }
{
    sum.clear();
    let mut left = multipliers.len();
    while left > 0 {
        left -= 1;
        let (which, k) = multipliers[left];
        match multiplied(lits, which, k) {
            Some(lin) => sum.add_multiple(k, lin)?,
            None => return Ok(false),
        }
    }
    Ok(true)
}
