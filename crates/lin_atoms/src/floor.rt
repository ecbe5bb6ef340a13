ghost use Rattle.std.specs.Prelude.{◌*ℤ◌, ◌≤ℤ◌, ◌<ℤ◌, ℤ, pos};

/// The quotient, rounded down: the greatest integer whose product with the divisor is at most the
/// number.
pub fn floor_div(a: i128, b: i128) -> i128
    requires { pos 0 <ℤ b }
    ensures below { (result *ℤ b) ≤ℤ a }
    ensures greatest { (q : ℤ) → (q *ℤ b) ≤ℤ a → q ≤ℤ result }
{
    a.div_euclid(b)
}
