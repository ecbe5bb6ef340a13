//! Lists of numbers, by their places.

ghost use Rattle.std.specs.Prelude.{◌≡◌, IfOk, pos, replicate, slice_set};

use base::Memory;
use std::alloc::Global;

/// `count` zeros.
pub fn zeros(alloc: Global, count: usize) -> Result<Vec<i64>, Memory>
    ensures { IfOk result (λ made. made.items ≡ replicate count (pos 0)) }
{
    let made = vec![in alloc; 0; count]?;
    Ok(made)
}

/// The number at the place, and 0 where there is no such place.
pub(crate) fn entry(entries: &[i64], at: usize) -> i64 {
    match entries.get(at) {
        Some(entry) => *entry,
        None => 0,
    }
}

/// The number at the place becomes the value, where there is such a place.
pub fn set(entries: &mut [i64], at: usize, value: i64)
    ensures { entries.new ≡ slice_set entries.old at value }
{
    if at < entries.len() {
        entries[at] = value;
    }
}
