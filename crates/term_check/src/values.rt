//! The values of constants.

ghost use Rattle.std.specs.Prelude.{ℕ, ℤ, pos, ◌-ℤ◌, ◌*ℤ◌, neg_ℤ, fold, ◌≡◌, ◌+◌, ◌*◌, ◌^◌, ◌≤◌, ◌<◌, length, map, nat_abs};
ghost use Rattle.term_tree.specs.Operators.{sum_of, difference_of, first_of_all, on_two};
ghost use Rattle.term_check.specs.Rules.{varying, multiplied, if_short, product_if_short, worth, quotient, remainder, value_at};

use crate::part::Part;
use term_tree::OpKind;

/// How many parts are no constants.
pub fn varying(parts: &[Part]) -> usize
    ensures value { result ≡ varying parts.now }
    ensures within { result ≤ length parts.now }
{
    let mut count = 0;
    for part in parts {
        if part.constant.is_none() {
            count += 1;
        }
    }
    count
}

/// The number, where it is short.
pub fn if_short(value: i128) -> Option<i64>
    ensures { result ≡ if_short value }
{
    if value.unsigned_abs() < 1 << 63 {
        Some(value as i64)
    } else {
        None
    }
}

fn times(a: i64, b: i64) -> i128
    ensures value { result ≡ a *ℤ b }
    ensures bound { nat_abs result ≤ 2 ^ 126 }
{
    i128::from(a) * i128::from(b)
}

fn multiplied(product: Option<i64>, factor: Option<i64>) -> Option<i64>
    ensures { result ≡ multiplied product factor }
{
    match product {
        Some(product) => match factor {
            Some(factor) => if_short(times(product, factor)),
            None => Some(product),
        },
        None => None,
    }
}

/// The product of those parts that are constants, where neither it nor that of the first of them is
/// wide.
pub fn product_if_short(parts: &[Part]) -> Option<i64>
    ensures { result ≡ product_if_short parts.now }
{
    let mut product = Some(1);
    for part in parts {
        product = multiplied(product, part.constant);
    }
    product
}

fn worth(part: &Part) -> i64
    ensures { result ≡ worth part.now }
{
    match part.constant {
        Some(value) => value,
        None => 0,
    }
}

fn sum(parts: &[Part]) -> i128
    ensures { result ≡ sum_of (map worth parts.now) }
{
    let mut sum: i128 = 0;
    for part in parts {
        sum += i128::from(worth(part));
    }
    sum
}

fn without(value: i64, parts: &[Part]) -> i128
    ensures { result ≡ fold (λ a k. a -ℤ k) value (map worth parts.now) }
{
    let mut rest = i128::from(value);
    for part in parts {
        rest -= i128::from(worth(part));
    }
    rest
}

fn opposite(part: &Part) -> i128
    ensures { result ≡ neg_ℤ (worth part.now) }
{
    -i128::from(worth(part))
}

fn difference(parts: &[Part]) -> i128
    ensures { result ≡ difference_of (map worth parts.now) }
{
    match parts {
        [] => 0,
        [only] => opposite(only),
        [first, rest @ ..] => without(worth(first), rest),
    }
}

fn magnitude(parts: &[Part]) -> i128
    ensures { result ≡ pos (nat_abs (first_of_all (map worth parts.now))) }
{
    match parts {
        [] => 0,
        [only, ..] => i128::from(worth(only)).abs(),
    }
}

fn quotient(value: i64, divisor: i64) -> i128
    ensures { result ≡ quotient value divisor }
{
    if divisor == 0 {
        0
    } else {
        i128::from(value).div_euclid(i128::from(divisor))
    }
}

fn remainder(value: i64, divisor: i64) -> i128
    ensures { result ≡ remainder value divisor }
{
    if divisor == 0 {
        0
    } else {
        i128::from(value).rem_euclid(i128::from(divisor))
    }
}

fn quotient_of(parts: &[Part]) -> i128
    ensures { result ≡ on_two quotient (map worth parts.now) }
{
    match parts {
        [value, divisor, ..] => quotient(worth(value), worth(divisor)),
        _ => 0,
    }
}

fn remainder_of(parts: &[Part]) -> i128
    ensures { result ≡ on_two remainder (map worth parts.now) }
{
    match parts {
        [value, divisor, ..] => remainder(worth(value), worth(divisor)),
        _ => 0,
    }
}

fn value_at(op: OpKind, parts: &[Part]) -> i128
    ensures { result ≡ value_at op (map worth parts.now) }
{
    match op {
        OpKind::Add => sum(parts),
        OpKind::Sub => difference(parts),
        OpKind::Abs => magnitude(parts),
        OpKind::Div => quotient_of(parts),
        OpKind::Mod => remainder_of(parts),
        _ => 0,
    }
}

/// The value of an operator other than `*` at constants, where it is short.
pub fn value_if_short(op: OpKind, parts: &[Part]) -> Option<i64>
    ensures { result ≡ if_short (value_at op (map worth parts.now)) }
{
    if_short(value_at(op, parts))
}
