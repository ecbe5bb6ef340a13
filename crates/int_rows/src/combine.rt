//! A combination of two rows, entry by entry.

ghost use Rattle.std.specs.Prelude.{◌≡◌, ◌<◌, ◌≤◌, ◌^◌, ◌-ℤ◌, ◌*ℤ◌, ◌<ℤ◌, length, nat_abs, pos, true, slice_set, IfSome, IsNone};
ghost use Rattle.std.specs.Int.{IsGcd, int_div_euclid};
ghost use Rattle.std.specs.List.{Contains};
ghost use Rattle.base.specs.Widths.{numerator_limit};
ghost use Rattle.int_rows.specs.Rows.{are_short, content, entry};
ghost use Rattle.int_rows.specs.Pivot.{combined, reduced};

use lin_atoms::gcd;

/// The exact product.
fn product(a: i64, b: i64) -> i128
    requires first { nat_abs a < 2 ^ 63 }
    requires second { nat_abs b < 2 ^ 63 }
    ensures value { result ≡ a *ℤ b }
    ensures bound { nat_abs result < 2 ^ 126 }
{
    i128::from(a) * i128::from(b)
}

/// `p * x - q * y`.
fn combination(p: i64, x: i64, q: i64, y: i64) -> i128
    requires p { nat_abs p < 2 ^ 63 }
    requires x { nat_abs x < 2 ^ 63 }
    requires q { nat_abs q < 2 ^ 63 }
    requires y { nat_abs y < 2 ^ 63 }
    ensures value { result ≡ p *ℤ x -ℤ q *ℤ y }
    ensures bound { nat_abs result < numerator_limit }
{
    product(p, x) - product(q, y)
}

/// `p * x - q * y`, where most entries of the other row are 0 and p is mostly 1: what is left is then
/// x.
fn sparse_combination(p: i64, x: i64, q: i64, y: i64) -> i128
    requires p { nat_abs p < 2 ^ 63 }
    requires x { nat_abs x < 2 ^ 63 }
    requires q { nat_abs q < 2 ^ 63 }
    requires y { nat_abs y < 2 ^ 63 }
    ensures value { result ≡ p *ℤ x -ℤ q *ℤ y }
    ensures bound { nat_abs result < numerator_limit }
{
    if y == 0 && p == 1 {
        i128::from(x)
    } else {
        combination(p, x, q, y)
    }
}

/// A number divided by a positive one and rounded down, in 64 bits where both have room there.
fn divided_by(n: i128, divisor: i128) -> i128
    requires { pos 0 <ℤ divisor }
    ensures { result ≡ int_div_euclid n divisor }
{
    match (i64::try_from(n), i64::try_from(divisor)) {
        (Ok(n), Ok(divisor)) => i128::from(n.div_euclid(divisor)),
        _ => n.div_euclid(divisor),
    }
}

/// A number divided by a positive one and rounded down. Mostly the divisor is 1, and nothing is
/// divided.
fn divided(n: i128, divisor: i128) -> i128
    requires { pos 0 <ℤ divisor }
    ensures { result ≡ int_div_euclid n divisor }
{
    if divisor == 1 {
        n
    } else {
        divided_by(n, divisor)
    }
}

/// `p * x - q * y`, divided and rounded down.
fn quotient(p: i64, x: i64, q: i64, y: i64, divisor: i128) -> i128
    requires p { nat_abs p < 2 ^ 63 }
    requires x { nat_abs x < 2 ^ 63 }
    requires q { nat_abs q < 2 ^ 63 }
    requires y { nat_abs y < 2 ^ 63 }
    requires divisor { pos 0 <ℤ divisor }
    ensures { result ≡ int_div_euclid (p *ℤ x -ℤ q *ℤ y) divisor }
{
    divided(sparse_combination(p, x, q, y), divisor)
}

/// A number that has room.
fn narrow(n: i128) -> i64
    requires { nat_abs n < 2 ^ 63 }
    ensures { result ≡ n }
{
    n as i64
}

/// The greatest common divisor. Mostly the first number is 0 or the second is 1, and nothing is
/// divided.
fn common(a: u128, b: u128) -> u128
    ensures { IsGcd a b result }
{
    if a == 0 {
        b
    } else if b == 1 {
        1
    } else {
        gcd(a, b)
    }
}

/// The greatest common divisor of a number and an entry of a combination, which mostly is 0 because
/// both rows are.
fn with_entry(divisor: u128, p: i64, x: i64, q: i64, y: i64) -> u128
    requires divisor { divisor < numerator_limit }
    requires p { nat_abs p < 2 ^ 63 }
    requires x { nat_abs x < 2 ^ 63 }
    requires q { nat_abs q < 2 ^ 63 }
    requires y { nat_abs y < 2 ^ 63 }
    ensures common { IsGcd divisor (nat_abs (p *ℤ x -ℤ q *ℤ y)) result }
    ensures bound { result < numerator_limit }
{
    if x == 0 && y == 0 {
        return divisor;
    }
    common(divisor, combination(p, x, q, y).unsigned_abs())
}

/// The greatest common divisor of the entries of a combination. It ends early at 1.
pub(crate) fn combined_content(p: i64, row: &[i64], q: i64, other: &[i64]) -> u128
    requires p { nat_abs p < 2 ^ 63 }
    requires q { nat_abs q < 2 ^ 63 }
    requires row { are_short row.now ≡ true }
    requires other { are_short other.now ≡ true }
    requires same { length row.now ≡ length other.now }
    ensures is { result ≡ content (combined p q row.now other.now) }
    ensures bound { result < numerator_limit }
{
    let mut divisor: u128 = 0;
    for (i, x) in row.iter().enumerate() {
        if divisor == 1 {
            return 1;
        }
        divisor = with_entry(divisor, p, *x, q, other[i]);
    }
    divisor
}

/// The entry of a row less a multiple of another one's, where it has no room. Mostly the other's is
/// 0, and the row's stays.
fn wide_at(x: i64, q: i64, y: i64) -> Option<i128>
    requires x { nat_abs x < 2 ^ 63 }
    requires q { nat_abs q < 2 ^ 63 }
    requires y { nat_abs y < 2 ^ 63 }
    ensures some { IfSome result (λ wide. (wide ≡ int_div_euclid (pos 1 *ℤ x -ℤ q *ℤ y) (pos 1)) × (2 ^ 63 ≤ nat_abs wide)) }
    ensures none { IsNone result → nat_abs (int_div_euclid (pos 1 *ℤ x -ℤ q *ℤ y) (pos 1)) < 2 ^ 63 }
{
    if y == 0 {
        return None;
    }
    let entry = quotient(1, x, q, y, 1);
    if entry.unsigned_abs() >= 1 << 63 {
        Some(entry)
    } else {
        None
    }
}

/// The first entry without room of a row less a multiple of another.
fn wide_difference(row: &[i64], q: i64, other: &[i64]) -> Option<i128>
    requires q { nat_abs q < 2 ^ 63 }
    requires row { are_short row.now ≡ true }
    requires other { are_short other.now ≡ true }
    requires same { length row.now ≡ length other.now }
    ensures some { IfSome result (λ wide. Contains (reduced (pos 1) (combined (pos 1) q row.now other.now)) wide × (2 ^ 63 ≤ nat_abs wide)) }
    ensures none { IsNone result → are_short (reduced (pos 1) (combined (pos 1) q row.now other.now)) ≡ true }
{
    for (i, x) in row.iter().enumerate() {
        if let Some(wide) = wide_at(*x, q, other[i]) {
            return Some(wide);
        }
    }
    None
}

/// The first entry of a combination that has no room after it is divided, for any multiples and
/// divisor.
fn wide_quotient(p: i64, row: &[i64], q: i64, other: &[i64], divisor: i128) -> Option<i128>
    requires p { nat_abs p < 2 ^ 63 }
    requires q { nat_abs q < 2 ^ 63 }
    requires row { are_short row.now ≡ true }
    requires other { are_short other.now ≡ true }
    requires same { length row.now ≡ length other.now }
    requires divisor { pos 0 <ℤ divisor }
    ensures some { IfSome result (λ wide. Contains (reduced divisor (combined p q row.now other.now)) wide × (2 ^ 63 ≤ nat_abs wide)) }
    ensures none { IsNone result → are_short (reduced divisor (combined p q row.now other.now)) ≡ true }
{
    for (i, x) in row.iter().enumerate() {
        let entry = quotient(p, *x, q, other[i], divisor);
        if entry.unsigned_abs() >= 1 << 63 {
            return Some(entry);
        }
    }
    None
}

/// The first entry of a combination that has no room after it is divided.
pub(crate) fn wide_entry(p: i64, row: &[i64], q: i64, other: &[i64], divisor: i128) -> Option<i128>
    requires p { nat_abs p < 2 ^ 63 }
    requires q { nat_abs q < 2 ^ 63 }
    requires row { are_short row.now ≡ true }
    requires other { are_short other.now ≡ true }
    requires same { length row.now ≡ length other.now }
    requires divisor { pos 0 <ℤ divisor }
    ensures some { IfSome result (λ wide. Contains (reduced divisor (combined p q row.now other.now)) wide × (2 ^ 63 ≤ nat_abs wide)) }
    ensures none { IsNone result → are_short (reduced divisor (combined p q row.now other.now)) ≡ true }
{
    if p == 1 && divisor == 1 {
        wide_difference(row, q, other)
    } else {
        wide_quotient(p, row, q, other, divisor)
    }
}

/// Writes the entry of a row less a multiple of another one's, where the other's isn't 0.
fn put_difference(row: &mut [i64], q: i64, y: i64, i: usize)
    requires within { i < length row.old }
    requires x { nat_abs (entry row.old i) < 2 ^ 63 }
    requires q { nat_abs q < 2 ^ 63 }
    requires y { nat_abs y < 2 ^ 63 }
    requires room { nat_abs (int_div_euclid (pos 1 *ℤ entry row.old i -ℤ q *ℤ y) (pos 1)) < 2 ^ 63 }
    ensures { row.new ≡ slice_set row.old i (int_div_euclid (pos 1 *ℤ entry row.old i -ℤ q *ℤ y) (pos 1)) }
{
    if y != 0 {
        let entry = quotient(1, row[i], q, y, 1);
        row[i] = narrow(entry);
    }
}

/// The row less a multiple of another, in place of the row.
fn put_differences(row: &mut [i64], q: i64, other: &[i64])
    requires q { nat_abs q < 2 ^ 63 }
    requires row { are_short row.old ≡ true }
    requires other { are_short other.now ≡ true }
    requires same { length row.old ≡ length other.now }
    requires room { are_short (reduced (pos 1) (combined (pos 1) q row.old other.now)) ≡ true }
    ensures { row.new ≡ reduced (pos 1) (combined (pos 1) q row.old other.now) }
{
    for i in 0..row.len() {
        put_difference(row, q, other[i], i);
    }
}

/// The combination, divided, in place of the row, for any multiples and divisor.
fn put_quotients(p: i64, row: &mut [i64], q: i64, other: &[i64], divisor: i128)
    requires p { nat_abs p < 2 ^ 63 }
    requires q { nat_abs q < 2 ^ 63 }
    requires row { are_short row.old ≡ true }
    requires other { are_short other.now ≡ true }
    requires same { length row.old ≡ length other.now }
    requires divisor { pos 0 <ℤ divisor }
    requires room { are_short (reduced divisor (combined p q row.old other.now)) ≡ true }
    ensures { row.new ≡ reduced divisor (combined p q row.old other.now) }
{
    for i in 0..row.len() {
        let entry = quotient(p, row[i], q, other[i], divisor);
        row[i] = narrow(entry);
    }
}

/// The combination, divided, in place of the row.
pub(crate) fn combine(p: i64, row: &mut [i64], q: i64, other: &[i64], divisor: i128)
    requires p { nat_abs p < 2 ^ 63 }
    requires q { nat_abs q < 2 ^ 63 }
    requires row { are_short row.old ≡ true }
    requires other { are_short other.now ≡ true }
    requires same { length row.old ≡ length other.now }
    requires divisor { pos 0 <ℤ divisor }
    requires room { are_short (reduced divisor (combined p q row.old other.now)) ≡ true }
    ensures { row.new ≡ reduced divisor (combined p q row.old other.now) }
{
    if p == 1 && divisor == 1 {
        put_differences(row, q, other);
    } else {
        put_quotients(p, row, q, other, divisor);
    }
}
