//! Which numbers a tree uses.

use base::Memory;

/// Literals that a tree derives below a node have numbers from here on.
pub const DERIVED: u32 = 1 << 30;

/// Whether the number isn't among them, and isn't one of a literal that a tree derives.
fn is_new(used: &[u32], number: u32) -> bool {
    number < DERIVED && !used.contains(&number)
}

/// Puts the number behind the others, where it is new.
pub(crate) fn put(used: &mut Vec<u32>, number: u32) -> Result<(), Memory> {
    if is_new(used.as_slice(), number) {
        used.push(number)?;
    }
    Ok(())
}

/// Whether the number is in the range.
fn is_within(range: (u32, u32), number: u32) -> bool {
    let (first, end) = range;
    number >= first && number < end
}

/// Whether a number in the range is used.
pub(crate) fn is_used(used: &[u32], range: (u32, u32)) -> bool {
    for number in used {
        if is_within(range, *number) {
            return true;
        }
    }
    false
}

/// Puts the numbers outside the range behind the others.
pub(crate) fn put_others(
    all: &mut Vec<u32>,
    used: &[u32],
    range: (u32, u32),
) -> Result<(), Memory> {
    for number in used {
        if !is_within(range, *number) {
            put(all, *number)?;
        }
    }
    Ok(())
}
