ghost use Rattle.std.specs.Prelude.{◌≡◌, ◌+◌, ◌^◌, ◌<◌, ◌≤◌, ◌*◌, ◌+ℤ◌, ◌*ℤ◌, ◌<ℤ◌, pos, nat_abs};

/// The sum as a carry and a rest.
pub fn carried(a: i128, b: i128) -> (i64, i128)
    ensures value { result.0 *ℤ pos (2 ^ 128) +ℤ result.1 ≡ a +ℤ b }
    ensures carry { nat_abs result.0 ≤ 1 }
{
    if b >= 0 {
        if a > i128::MAX - b {
            (1, (a + i128::MIN) + (b + i128::MIN))
        } else {
            (0, a + b)
        }
    } else if a < i128::MIN - b {
        (-1, (a + i128::MAX) + (b + i128::MAX) + 2)
    } else {
        (0, a + b)
    }
}

/// A number as a multiple of 2^128, which is 0 or -1, and two digits in base 2^64.
fn digits(low: i128) -> (i64, u64, u64)
    ensures value { result.0 *ℤ pos (2 ^ 128) +ℤ pos (result.1 * 2 ^ 64 + result.2) ≡ low }
    ensures borrow { nat_abs result.0 ≤ 1 }
{
    let (borrow, bits) = if low < 0 {
        (-1, (low - i128::MIN) as u128 + (1 << 127))
    } else {
        (0, low as u128)
    };
    (borrow, (bits >> 64) as u64, (bits % (1 << 64)) as u64)
}

/// The quotient, rounded down, and the rest.
fn halves(n: i64, divisor: i64) -> (i64, u64)
    requires { pos 0 <ℤ divisor }
    ensures value { result.0 *ℤ divisor +ℤ pos result.1 ≡ n }
    ensures rest { result.1 < nat_abs divisor }
    ensures small { nat_abs result.0 ≤ nat_abs n }
{
    (n.div_euclid(divisor), n.rem_euclid(divisor) as u64)
}

/// The quotient and the rest of a number of two digits in base 2^64 whose first is below the
/// divisor.
fn divided(high: u64, low: u64, divisor: u64) -> (u64, u64)
    requires { high < divisor }
    ensures value { result.0 * divisor + result.1 ≡ high * 2 ^ 64 + low }
    ensures rest { result.1 < divisor }
{
    let whole = (u128::from(high) << 64) + u128::from(low);
    let quotient = whole / u128::from(divisor);
    let rest = whole % u128::from(divisor);
    (quotient as u64, rest as u64)
}

/// A quotient, rounded down, in digits, and its rest.
#[derive(Clone, Copy)]
pub struct Quotient {
    pub high: i64,
    pub first: u64,
    pub second: u64,
    pub rest: u64,
}

/// Divides a multiple of 2^128 and a rest.
pub fn divided_words(high: i64, low: i128, divisor: i64) -> Quotient
    requires room { nat_abs high ≤ 2 ^ 32 }
    requires positive { pos 0 <ℤ divisor }
    ensures value { (result.high *ℤ pos (2 ^ 128) +ℤ pos (result.first * 2 ^ 64 + result.second)) *ℤ divisor +ℤ pos result.rest ≡ high *ℤ pos (2 ^ 128) +ℤ low }
    ensures rest { result.rest < nat_abs divisor }
    ensures small { nat_abs result.high ≤ 2 ^ 32 + 1 }
{
    let (borrow, first, second) = digits(low);
    let size = divisor.unsigned_abs();
    let (high, rest) = halves(high + borrow, divisor);
    let (first, rest) = divided(rest, first, size);
    let (second, rest) = divided(rest, second, size);
    Quotient {
        high,
        first,
        second,
        rest,
    }
}

/// A multiple of 2^128 and two digits in base 2^64 as a multiple of 2^128 and an `i128`.
pub fn signed(high: i64, first: u64, second: u64) -> (i64, i128)
    requires { nat_abs high ≤ 2 ^ 32 + 1 }
    ensures { result.0 *ℤ pos (2 ^ 128) +ℤ result.1 ≡ high *ℤ pos (2 ^ 128) +ℤ pos (first * 2 ^ 64 + second) }
{
    let bits = (u128::from(first) << 64) + u128::from(second);
    if bits >= 1 << 127 {
        (high + 1, (bits - (1 << 127)) as i128 + i128::MIN)
    } else {
        (high, bits as i128)
    }
}
