//! Values by hand, at the edges of the words.
ghost use Rattle.std.specs.Prelude.{◌≡◌, ◌+◌, ◌^◌, ◌<◌, nat_abs};

use lin_atoms::{Accumulator, Ratio, floor_div, gcd, sign_of_dot};
use std::cmp::Ordering;

const TOP: i64 = i64::MAX;

const BOTTOM: i64 = -i64::MAX;

fn add_five(sum: &mut Accumulator, a: i64, b: i128)
    requires room { sum.old.added < 2 ^ 30 }
    requires long { nat_abs b < 2 ^ 64 }
    ensures { sum.new.added ≡ sum.old.added + 5 }
{
    sum.add(a, b);
    sum.add(a, b);
    sum.add(a, b);
    sum.add(a, b);
    sum.add(a, b);
}

/// 2^127.
const POWER: u128 = 1 << 127;

/// Two numbers with their greatest common divisor.
const DIVISORS: [(u128, u128, u128); 8] = [
    (0, 0, 0),
    (0, 7, 7),
    (7, 0, 7),
    (12, 18, 6),
    (17, 5, 1),
    (POWER, 96, 32),
    (u128::MAX, 255, 255),
    (u128::MAX, u128::MAX, u128::MAX),
];

#[test]
fn greatest_common_divisors_are_those_of_a_table(rt: HostRuntime) {
    for (a, b, divisor) in DIVISORS {
        assert!(rt; gcd(a, b) == divisor);
    }
}

/// A number and a divisor with their quotient.
const QUOTIENTS: [(i128, i128, i128); 8] = [
    (7, 2, 3),
    (-7, 2, -4),
    (-8, 2, -4),
    (0, 5, 0),
    (-1, i128::MAX, -1),
    (i128::MIN, 1, i128::MIN),
    (i128::MIN, i128::MAX, -2),
    (i128::MAX, i128::MAX, 1),
];

/// Whether the quotient is that, where the divisor is above 0.
fn has_floor(a: i128, b: i128, quotient: i128) -> bool {
    b > 0 && floor_div(a, b) == quotient
}

#[test]
fn quotients_are_rounded_down(rt: HostRuntime) {
    for (a, b, quotient) in QUOTIENTS {
        assert!(rt; has_floor(a, b, quotient));
    }
}

/// Two lists of factors and a constant, with the sign of the sum of products.
const SIGNS: [([i64; 4], [i64; 4], i128, i8); 8] = [
    ([3, 0, 0, 0], [-2, 0, 0, 0], 7, 1),
    ([3, 0, 0, 0], [-2, 0, 0, 0], 6, 0),
    // four products of 2^126 - 2^64 + 1 pass 2^127
    ([TOP; 4], [TOP; 4], i128::MIN, 1),
    ([TOP; 4], [BOTTOM; 4], i128::MAX, -1),
    // two go up past 2^127, and two come back
    ([TOP; 4], [TOP, TOP, BOTTOM, BOTTOM], i128::MAX, 1),
    ([TOP; 4], [TOP, TOP, BOTTOM, BOTTOM], 0, 0),
    ([TOP; 4], [TOP, TOP, BOTTOM, BOTTOM], -1, -1),
    ([TOP; 4], [TOP, TOP, BOTTOM, BOTTOM], i128::MIN, -1),
];

fn has_sign(a: [i64; 4], b: [i64; 4], c: i128, sign: i8) -> bool {
    sign_of_dot(a.as_slice(), b.as_slice(), c) == sign
}

#[test]
fn signs_are_exact_where_sums_pass_two_to_the_127(rt: HostRuntime) {
    for (a, b, c, sign) in SIGNS {
        assert!(rt; has_sign(a, b, c, sign));
    }
    assert!(rt; sign_of_dot(&[], &[], 0) == 0);
    assert!(rt; sign_of_dot(&[], &[], -5) == -1);
    assert!(rt; sign_of_dot(&[3], &[-2], 7) == 1);
}

/// Whether the sum is 5 (2^63 - 1) (2^64 - 1) - 3, by hand.
fn is_past(sum: &Accumulator) -> bool {
    sum.sign() == 1
        && sum.to_i128().is_none()
        && sum.remainder(TOP) == TOP - 3
        && sum.remainder(10) == 2
        && !sum.is_multiple(TOP)
        && sum.is_multiple(2)
        && sum.ratio(2).is_none()
        && sum.quotient(TOP).to_i128() == Some(92233720368547758074)
}

/// Whether the sum is -3.
fn is_back(sum: &Accumulator) -> bool {
    sum.sign() == -1 && sum.to_i128() == Some(-3) && sum.remainder(10) == 7
}

#[test]
fn sums_past_two_to_the_127_come_back(rt: HostRuntime) {
    let wide = i128::from(u64::MAX);
    let mut sum = Accumulator::new(-3);
    add_five(&mut sum, TOP, wide);
    assert!(rt; is_past(&sum));
    add_five(&mut sum, TOP, -wide);
    assert!(rt; is_back(&sum));
}

#[test]
fn sums_past_two_to_the_127_are_compared(rt: HostRuntime) {
    let wide = i128::from(u64::MAX);
    let mut sum = Accumulator::new(-3);
    add_five(&mut sum, TOP, wide);
    let mut other = Accumulator::new(-2);
    add_five(&mut other, BOTTOM, -wide);
    assert!(rt; sum.compare(&other) == Ordering::Less);
    assert!(rt; other.compare(&sum) == Ordering::Greater);
    other.add(1, -1);
    assert!(rt; sum.compare(&other) == Ordering::Equal);
}

#[test]
fn a_wide_sum_over_a_denominator_is_in_lowest_terms(rt: HostRuntime) {
    let mut sum = Accumulator::new(0);
    add_five(&mut sum, BOTTOM, i128::from(u64::MAX));
    sum.add(BOTTOM, i128::from(u64::MAX));
    // - 6 (2^63 - 1) (2^64 - 1) over 2^63 - 1
    let whole = sum.ratio(TOP);
    assert!(rt; whole.is_some());
    if let Some(ratio) = whole {
        assert!(rt; ratio.num() == -6 * i128::from(u64::MAX));
        assert!(rt; ratio.den() == 1);
    }
    // 9 divides the product, which leaves room; over 4 the half of it has none
    let ninth = sum.ratio(9);
    assert!(rt; ninth.is_some());
    if let Some(ratio) = ninth {
        assert!(rt; ratio.num() == -113427455640312821136011458403546518870);
        assert!(rt; ratio.den() == 1);
    }
    assert!(rt; sum.ratio(4).is_none());
    let least = Accumulator::new(i128::MIN);
    assert!(rt; least.ratio(1).is_none());
    assert!(rt; least.ratio(2).is_some());
}

/// 2^127 - 1.
const MOST: i128 = i128::MAX;

/// Two ratios of which the first is below the second; their cross products pass 2^127.
const RISING: [(i128, i128, i128, i128); 8] = [
    (-MOST, 1, -MOST + 1, 1),
    (-MOST, 2, -MOST, 3),
    (-1, 2, 0, 5),
    (-1, MOST, 1, MOST),
    (1, MOST, 1, MOST - 1),
    (MOST - 1, MOST, MOST, MOST - 1),
    (MOST - 2, MOST - 1, MOST - 1, MOST),
    (MOST - 1, 1, MOST, 1),
];

/// The ratio, where its denominator is above 0 and its numerator has room.
fn ratio(num: i128, den: i128) -> Option<Ratio> {
    if den <= 0 || num.unsigned_abs() >= 1 << 127 {
        return None;
    }
    Some(Ratio::new(num, den))
}

fn is_below(low: &Ratio, high: &Ratio) -> bool {
    low.less(high) && !high.less(low) && !low.less(low)
}

fn rises(a: i128, b: i128, c: i128, d: i128) -> bool {
    match (ratio(a, b), ratio(c, d)) {
        (Some(low), Some(high)) => is_below(&low, &high),
        _ => false,
    }
}

#[test]
fn ratios_are_in_order(rt: HostRuntime) {
    for (a, b, c, d) in RISING {
        assert!(rt; rises(a, b, c, d));
    }
}

#[test]
fn ratios_are_in_lowest_terms(rt: HostRuntime) {
    let half = Ratio::new(-6, 12);
    assert!(rt; half.num() == -1 && half.den() == 2 && half.floor() == -1);
}
