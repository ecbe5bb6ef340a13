//! Names compared.

ghost use Rattle.std.specs.Prelude.{◌≡◌};
ghost use Rattle.std.specs.Str.{bytes_eq};

/// Whether each byte is the same. Comparing slices puts both on the stack first, so `are_same` leaves
/// it to a function of its own.
fn are_equal(a: &[u8], b: &[u8]) -> bool
    ensures { result ≡ bytes_eq a.now b.now }
{
    a == b
}

/// Whether the bytes are the same. Names that differ mostly do so in their lengths, their last bytes or
/// their first ones, which are compared before anything is called.
pub(crate) fn are_same(a: &[u8], b: &[u8]) -> bool
    ensures { result ≡ bytes_eq a.now b.now }
{
    let count = a.len();
    if count != b.len() {
        return false;
    }
    if count == 0 {
        return true;
    }
    if a[count - 1] != b[count - 1] || a[0] != b[0] {
        return false;
    }
    count <= 2 || are_equal(a, b)
}
