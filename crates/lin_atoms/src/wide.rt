ghost use Rattle.std.specs.Prelude.{◌≡◌, ◌+◌, ◌-◌, ◌*◌, ◌^◌, ◌≤◌, nat_lt};

/// The exact product of two words, which leaves room for two words more.
fn word_product(a: u64, b: u64) -> u128
    ensures value { result ≡ a * b }
    ensures room { result ≤ (2 ^ 64 - 1) * (2 ^ 64 - 1) }
{
    u128::from(a) * u128::from(b)
}

/// The upper and the lower half of a number.
fn split(n: u128) -> (u64, u64)
    ensures { result.0 * 2 ^ 64 + result.1 ≡ n }
{
    ((n >> 64) as u64, (n % (1 << 64)) as u64)
}

/// The exact product, as a multiple of 2^128 and a rest.
fn wide_product(a: u128, b: u128) -> (u128, u128)
    ensures { result.0 * 2 ^ 128 + result.1 ≡ a * b }
{
    let (a_high, a_low) = split(a);
    let (b_high, b_low) = split(b);
    let (carry, lowest) = split(word_product(a_low, b_low));
    let (first, middle) = split(word_product(a_high, b_low) + u128::from(carry));
    let (second, middle) = split(word_product(a_low, b_high) + u128::from(middle));
    let high = word_product(a_high, b_high) + u128::from(first) + u128::from(second);
    (high, (u128::from(middle) << 64) + u128::from(lowest))
}

/// Whether the first product is below the second.
pub fn is_product_below(a: u128, b: u128, c: u128, d: u128) -> bool
    ensures { result ≡ nat_lt (a * b) (c * d) }
{
    let (high, low) = wide_product(a, b);
    let (other_high, other_low) = wide_product(c, d);
    if high == other_high {
        low < other_low
    } else {
        high < other_high
    }
}
