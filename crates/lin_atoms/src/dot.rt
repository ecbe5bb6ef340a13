ghost use Rattle.std.specs.Prelude.{◌≡◌, ◌^◌, ◌<◌, ◌≤◌, ◌+ℤ◌, ◌*ℤ◌, pos, nat_abs, length};
ghost use Rattle.std.specs.Int.{int_signum};
ghost use Rattle.lin_atoms.specs.Dot.{dot};

/// The exact product.
fn product(a: i64, b: i64) -> i128
    ensures { result ≡ a *ℤ b }
{
    i128::from(a) * i128::from(b)
}

/// A number as a multiple of 2^64 and a rest.
fn parts(n: i128) -> (i128, u128)
    ensures value { result.0 *ℤ pos (2 ^ 64) +ℤ pos result.1 ≡ n }
    ensures high { nat_abs result.0 ≤ 2 ^ 63 }
    ensures low { result.1 < 2 ^ 64 }
{
    let high = n >> 64;
    (high, (n - high * (1 << 64)) as u128)
}

/// The sign of a multiple of 2^64 and a rest.
fn sign_of_parts(high: i128, low: u128) -> i8
    requires { nat_abs high ≤ 2 ^ 126 }
    ensures { result ≡ int_signum (high *ℤ pos (2 ^ 64) +ℤ pos low) }
{
    let high = high + (low >> 64) as i128;
    let low = low % (1 << 64);
    if high < 0 {
        -1
    } else if high > 0 {
        1
    } else if low > 0 {
        1
    } else {
        0
    }
}

/// The sign of the sum of the products and a number, exactly: -1, 0 or 1. The halves of the products
/// are summed apart, so that no sum overflows and none is tested.
pub fn sign_of_dot(a: &[i64], b: &[i64], c: i128) -> i8
    requires same { length a.now ≡ length b.now }
    requires short { length a.now < 2 ^ 31 }
    ensures { result ≡ int_signum (dot a.now b.now +ℤ c) }
{
    let (mut high, mut low) = parts(c);
    for (i, x) in a.iter().enumerate() {
        let (upper, lower) = parts(product(*x, b[i]));
        high += upper;
        low += lower;
    }
    sign_of_parts(high, low)
}
