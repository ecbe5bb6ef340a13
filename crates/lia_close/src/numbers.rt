//! Numbers of literals in a refutation.

ghost use Rattle.std.specs.Prelude.{◌≡◌, ◌+◌, IfOk};

use base::Memory;

/// The number as a refutation writes it. One of 2^32 or more counts as want of memory: 2^32
/// literals take over 2^37 bytes.
pub fn numbered(number: usize) -> Result<u32, Memory>
    ensures { IfOk result (λ n. n ≡ number) }
{
    if number < 1 << 32 {
        Ok(number as u32)
    } else {
        Err(Memory)
    }
}

/// The sum of two numbers as a refutation writes it.
pub(crate) fn numbered_sum(first: usize, second: usize) -> Result<u32, Memory>
    ensures { IfOk result (λ n. n ≡ first + second) }
{
    match first.checked_add(second) {
        Some(sum) => numbered(sum),
        None => Err(Memory),
    }
}
