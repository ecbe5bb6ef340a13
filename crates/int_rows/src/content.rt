ghost use Rattle.std.specs.Prelude.{◌≡◌};
ghost use Rattle.int_rows.specs.Rows.{are_short, content};

use lin_atoms::gcd;

/// The greatest common divisor of the entries, 0 where each is 0. It ends early at 1.
pub(crate) fn content(row: &[i64]) -> u128
    ensures { result ≡ content row.now }
{
    let mut divisor: u128 = 0;
    for entry in row {
        if divisor == 1 {
            return 1;
        }
        divisor = gcd(divisor, u128::from(entry.unsigned_abs()));
    }
    divisor
}

/// Whether each entry is below 2^63 in magnitude: -2^63 alone isn't.
pub(crate) fn are_short(row: &[i64]) -> bool
    ensures { result ≡ are_short row.now }
{
    row.iter().all(|entry| *entry != i64::MIN)
}
