//! For `bench/sign_of_dot.sh`: the sign of a scalar product by `lin_atoms`.

ghost use Rattle.std.specs.Prelude.{◌≡◌, ◌+ℤ◌, ◌^◌, ◌<◌, length};
ghost use Rattle.std.specs.Int.{int_signum};
ghost use Rattle.lin_atoms.specs.Dot.{dot};

/// The sign of the sum of the products and of `c`.
#[unsafe(no_mangle)]
pub extern "C" fn lin_atoms_sign_of_dot(a: &[i64], b: &[i64], c: i64) -> i8
    requires same { length a.now ≡ length b.now }
    requires short { length a.now < 2 ^ 31 }
    ensures { result ≡ int_signum (dot a.now b.now +ℤ c) }
{
    lin_atoms::sign_of_dot(a, b, i128::from(c))
}
