//! What is known of a quotient.

ghost use Rattle.refutation_trees.specs.Refutation.{has_quotient, new_variable, quotient_at};
ghost use Rattle.farkas_proof.specs.machinery.Tells.{DerivesAll};
ghost use Rattle.lin_atoms.specs.declared.lit.Lit.TheVariants.{Eq, Le};
ghost use Rattle.std.specs.Prelude.{◌&&◌, nat_lt, IsSome, ◌≡◌, ◌<◌, ◌^◌, ◌++◌, ◌∷◌, [], IfOk, OnOk, pos, neg_ℤ, ◌-ℤ◌, IfSome, IsNone, true, false};
ghost use Rattle.std.specs.List.{list_all};
ghost use Rattle.lin_atoms.specs.Algebra.{plus};
ghost use Rattle.lin_atoms.specs.Denial.{lit_fits};
ghost use Rattle.lin_atoms.specs.Linear.{fits};
ghost use Rattle.refutation_trees.specs.Combination.{is_division, one_minus, quotient};
ghost use Rattle.int_rows.specs.Ready.{less_multiple};

use crate::known::Known;
use crate::stop::CheckStop;
use base::{Items, Memory};
use lin_atoms::{Divisor, Lin, Lit};
use std::alloc::Global;

/// The terms, and that of a new variable.
fn with_last(alloc: Global, terms: &[(u32, i64)], q: u32, n: i64) -> Result<Vec<(u32, i64)>, Memory>
    ensures { IfOk result (λ made. made.items ≡ terms.now ++ (q, n) ∷ []) }
{
    let mut made = Vec::from_slice(alloc, terms)?;
    made.push((q, n))?;
    Ok(made)
}

/// The divisor with the other sign.
fn minus(n: Divisor) -> i64
    ensures { result ≡ neg_ℤ (pos n) }
{
    -n.get()
}

/// The form less a multiple of a variable above its own. Terms in order make a form, so that only
/// want of memory is in the way.
fn less_multiple(alloc: Global, n: Divisor, q: u32, lin: &Lin) -> Result<Lin, Memory>
    ensures { IfOk result (λ made. made ≡ less_multiple n q lin.now) }
{
    let terms = with_last(alloc, lin.terms(), q, minus(n))?;
    match Lin::new(terms, lin.constant()) {
        Ok(made) => Ok(made),
        Err(_) => Err(Memory),
    }
}

/// 1 less the form.
fn one_minus(alloc: Global, lin: &Lin) -> Result<Option<Lin>, Memory>
    ensures some { IfOk result (λ made. IfSome made (λ above. (above ≡ one_minus lin.now) × (fits (one_minus lin.now) ≡ true))) }
    ensures none { IfOk result (λ made. IsNone made → fits (one_minus lin.now) ≡ false) }
{
    match lin.negated(alloc)?.plus(1) {
        Some(above) => {
            let _constant = above.constant();
            Ok(Some(above))
        }
        None => Ok(None),
    }
}

fn one(alloc: Global, lit: Lit) -> Result<Items<Lit>, Memory>
    ensures { IfOk result (λ lits. lits ≡ lit ∷ []) }
{
    let mut lits = Items::new(alloc);
    lits.push(lit)?;
    Ok(lits)
}

fn two(alloc: Global, first: Lit, second: Lit) -> Result<Items<Lit>, Memory>
    ensures { IfOk result (λ lits. lits ≡ first ∷ second ∷ []) }
{
    let mut lits = Items::new(alloc);
    lits.push(first)?;
    lits.push(second)?;
    Ok(lits)
}

/// The remainder is 0.
fn of_division(alloc: Global, n: Divisor, q: u32, lin: &Lin) -> Result<Items<Lit>, Memory>
    ensures made { IfOk result (λ made. made ≡ Eq (less_multiple n q lin.now) ∷ []) }
    ensures within { OnOk result (fits (less_multiple n q lin.now) ≡ true) }
{
    let less = less_multiple(alloc, n, q, lin)?;
    let _constant = less.constant();
    one(alloc, Lit::Eq(less))
}

/// The remainder is at least 1 and below the divisor.
fn of_rest(alloc: Global, n: Divisor, q: u32, lin: &Lin) -> Result<Option<Items<Lit>>, Memory>
    ensures some { IfOk result (λ made. IfSome made (λ lits. lits ≡ Le (one_minus (less_multiple n q lin.now)) ∷ Le (plus (less_multiple n q lin.now) (pos 1 -ℤ pos n)) ∷ [])) }
    ensures within { IfOk result (λ made. IsSome made → (fits (one_minus (less_multiple n q lin.now)) && fits (plus (less_multiple n q lin.now) (pos 1 -ℤ pos n))) ≡ true) }
    ensures none { IfOk result (λ made. IsNone made → (fits (one_minus (less_multiple n q lin.now)) && fits (plus (less_multiple n q lin.now) (pos 1 -ℤ pos n))) ≡ false) }
{
    let less = less_multiple(alloc, n, q, lin)?;
    match one_minus(alloc, &less)? {
        Some(above) => match less.plus(one_less(n)) {
            Some(below) => {
                let _constant = below.constant();
                Ok(Some(two(alloc, Lit::Le(above), Lit::Le(below))?))
            }
            None => Ok(None),
        },
        None => Ok(None),
    }
}

/// 1 less the divisor.
fn one_less(n: Divisor) -> i64
    ensures { result ≡ pos 1 -ℤ pos n }
{
    1 - n.get()
}

/// What is known of the quotient of a literal, unless a number has no room in a form.
fn quotient(alloc: Global, lit: &Lit, q: u32) -> Result<Option<Items<Lit>>, Memory>
    ensures some { IfOk result (λ made. IfSome made (λ lits. lits ≡ quotient q lit.now)) }
    ensures within { IfOk result (λ made. IsSome made → list_all lit_fits (quotient q lit.now) ≡ true) }
    ensures none { IfOk result (λ made. IsNone made → list_all lit_fits (quotient q lit.now) ≡ false) }
{
    match lit {
        Lit::Div(n, lin) => Ok(Some(of_division(alloc, *n, q, lin)?)),
        Lit::NDiv(n, lin) => of_rest(alloc, *n, q, lin),
        _ => Ok(Some(Items::new(alloc))),
    }
}

fn is_division(lit: &Lit) -> bool
    ensures { result ≡ is_division lit.now }
{
    match lit {
        Lit::Div(n, _) => n.get() > 0,
        Lit::NDiv(n, _) => n.get() > 0,
        _ => false,
    }
}

/// The literals of a node that names a quotient.
pub(crate) fn named(
    alloc: Global,
    lits: &mut Known,
    which: u32,
    end: u64,
    at: u32,
) -> Result<Items<Lit>, CheckStop>
    ensures derived { DerivesAll (has_quotient lits.old which (new_variable end lits.old)) (quotient_at lits.old which (new_variable end lits.old)) at result }
    ensures same { lits.new ≡ lits.old }
{
    let q = lits.end()?.max(end);
    match lits.as_slice().get(which as usize) {
        Some(lit) => named_of(alloc, lit, q, at),
        None => Err(CheckStop::NoProof { node: at }),
    }
}

fn named_of(alloc: Global, lit: &Lit, q: u64, at: u32) -> Result<Items<Lit>, CheckStop>
    ensures { DerivesAll (is_division lit.now && nat_lt q (2 ^ 32)) (quotient q lit.now) at result }
{
    if is_division(lit) && q < 1 << 32 {
        match quotient(alloc, lit, q as u32)? {
            Some(derived) => Ok(derived),
            None => Err(CheckStop::SumWide { node: at }),
        }
    } else {
        Err(CheckStop::NoProof { node: at })
    }
}
