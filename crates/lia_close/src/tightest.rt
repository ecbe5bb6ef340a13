//! Which literal gives the tightest bound on a variable.

ghost use Rattle.std.specs.Prelude.{◌≡◌, pos, neg_ℤ, length, if◌then◌else◌, ◌==◌, true};
ghost use Rattle.std.specs.List.{list_all};
ghost use Rattle.std.specs.Option.{option_map};
ghost use Rattle.int_rows.specs.Node.{coefficient};
ghost use Rattle.int_rows.specs.Ready.{bound_fits, ready_fits};
ghost use Rattle.lia_close.specs.machinery.Tightest.{greatest_found, is_greater, is_less, least_found, side_above, side_below};

use crate::side::Side;
use int_rows::{Bounded, Ready};

/// The coefficient of the variable, where the form has no other one.
fn lone(bounded: &Bounded, variable: u32) -> i64
    ensures { result ≡ (if length bounded.now.form.terms == 1 then coefficient bounded.now.form.terms variable else pos 0) }
{
    match bounded.form.terms() {
        [(only, a)] => { if *only == variable { *a } else { 0 } }
        _ => 0,
    }
}

/// The number with the other sign.
fn minus(bound: Option<i128>) -> Option<i128>
    requires { bound_fits bound ≡ true }
    ensures { result ≡ option_map neg_ℤ bound }
{
    match bound {
        Some(k) => Some(-k),
        None => None,
    }
}

/// What the literal says of the variable from below, and which of its bounds says it.
fn below(readied: &Ready, variable: u32) -> (Option<i128>, Side)
    requires { ready_fits readied.now ≡ true }
    ensures { result ≡ side_below variable readied.now }
{
    match readied {
        Ready::Truth(_) => (None, Side::Lower),
        Ready::Bounds(bounded) => {
            let a = lone(bounded, variable);
            if a == 0 {
                (None, Side::Lower)
            } else if a > 0 {
                (bounded.lower, Side::Lower)
            } else {
                (minus(bounded.upper), Side::Upper)
            }
        }
    }
}

/// What the literal says of the variable from above, and which of its bounds says it.
fn above(readied: &Ready, variable: u32) -> (Option<i128>, Side)
    requires { ready_fits readied.now ≡ true }
    ensures { result ≡ side_above variable readied.now }
{
    match readied {
        Ready::Truth(_) => (None, Side::Upper),
        Ready::Bounds(bounded) => {
            let a = lone(bounded, variable);
            if a == 0 {
                (None, Side::Upper)
            } else if a > 0 {
                (bounded.upper, Side::Upper)
            } else {
                (minus(bounded.lower), Side::Lower)
            }
        }
    }
}

/// Whether the first bound is tighter from below than the second.
fn is_greater(new: Option<i128>, old: Option<i128>) -> bool
    ensures { result ≡ is_greater new old }
{
    match (new, old) {
        (None, _) => false,
        (Some(_), None) => true,
        (Some(n), Some(o)) => n > o,
    }
}

/// Whether the first bound is tighter from above than the second.
fn is_less(new: Option<i128>, old: Option<i128>) -> bool
    ensures { result ≡ is_less new old }
{
    match (new, old) {
        (None, _) => false,
        (Some(_), None) => true,
        (Some(n), Some(o)) => n < o,
    }
}

/// The literal that gives the greatest lower bound on the variable, with the side that gives it.
pub(crate) fn greatest_lower(readied: &[Ready], variable: u32) -> Option<(usize, Side)>
    requires { list_all ready_fits readied.now ≡ true }
    ensures { result ≡ greatest_found readied.now variable }
{
    let mut tightest = None;
    let mut found = None;
    for (at, one) in readied.iter().enumerate() {
        let (bound, side) = below(one, variable);
        if is_greater(bound, tightest) {
            tightest = bound;
            found = Some((at, side));
        }
    }
    found
}

/// The literal that gives the least upper bound on the variable, with the side that gives it.
pub(crate) fn least_upper(readied: &[Ready], variable: u32) -> Option<(usize, Side)>
    requires { list_all ready_fits readied.now ≡ true }
    ensures { result ≡ least_found readied.now variable }
{
    let mut tightest = None;
    let mut found = None;
    for (at, one) in readied.iter().enumerate() {
        let (bound, side) = above(one, variable);
        if is_less(bound, tightest) {
            tightest = bound;
            found = Some((at, side));
        }
    }
    found
}
