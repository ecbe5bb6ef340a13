//! What is said of a variable, and the tighter of two bounds.

ghost use Rattle.std.specs.Prelude.{◌≡◌, ◌<◌, neg_ℤ, pos, length, true, if◌then◌else◌, ◌==◌};
ghost use Rattle.std.specs.Option.{option_map};
ghost use Rattle.int_rows.specs.Node.{coefficient, greater, lesser, lower_on, upper_on};
ghost use Rattle.int_rows.specs.Ready.{bound_fits, bounded_fits};

use int_rows::Bounded;

/// The greater of two lower bounds, where there are any.
pub(crate) fn greater(a: Option<i128>, b: Option<i128>) -> Option<i128>
    requires a { bound_fits a ≡ true }
    requires b { bound_fits b ≡ true }
    ensures is { result ≡ greater a b }
    ensures fits { bound_fits result ≡ true }
{
    match (a, b) {
        (None, _) => b,
        (Some(_), None) => a,
        (Some(j), Some(k)) => { if j <= k { b } else { a } }
    }
}

/// The lesser of two upper bounds, where there are any.
pub(crate) fn lesser(a: Option<i128>, b: Option<i128>) -> Option<i128>
    requires a { bound_fits a ≡ true }
    requires b { bound_fits b ≡ true }
    ensures is { result ≡ lesser a b }
    ensures fits { bound_fits result ≡ true }
{
    match (a, b) {
        (None, _) => b,
        (Some(_), None) => a,
        (Some(j), Some(k)) => { if j <= k { a } else { b } }
    }
}

/// The number with the other sign.
fn minus(bound: Option<i128>) -> Option<i128>
    requires { bound_fits bound ≡ true }
    ensures is { result ≡ option_map neg_ℤ bound }
    ensures fits { bound_fits result ≡ true }
{
    match bound {
        Some(k) => Some(-k),
        None => None,
    }
}

/// The coefficient of the variable, where the form has no other one.
fn lone(bounded: &Bounded, variable: u32) -> i64
    ensures { result ≡ (if length bounded.now.form.terms == 1 then coefficient bounded.now.form.terms variable else pos 0) }
{
    match bounded.form.terms() {
        [(only, a)] => { if *only == variable { *a } else { 0 } }
        _ => 0,
    }
}

/// What is said of the variable from below.
pub(crate) fn lower_on(variable: u32, bounded: &Bounded) -> Option<i128>
    requires { bounded_fits bounded.now ≡ true }
    ensures is { result ≡ lower_on variable bounded.now }
    ensures fits { bound_fits result ≡ true }
{
    let a = lone(bounded, variable);
    if a == 0 {
        None
    } else if a > 0 {
        bounded.lower
    } else {
        minus(bounded.upper)
    }
}

/// What is said of the variable from above.
pub(crate) fn upper_on(variable: u32, bounded: &Bounded) -> Option<i128>
    requires { bounded_fits bounded.now ≡ true }
    ensures is { result ≡ upper_on variable bounded.now }
    ensures fits { bound_fits result ≡ true }
{
    let a = lone(bounded, variable);
    if a == 0 {
        None
    } else if a > 0 {
        bounded.upper
    } else {
        minus(bounded.lower)
    }
}
