//! The values of a vertex.

use lin_atoms::Ratio;

/// The value, where it is an integer.
fn whole(ratio: &Ratio) -> Option<i64> {
    if ratio.num().checked_rem_euclid(ratio.den()) != Some(0) {
        return None;
    }
    floored(ratio)
}

/// The value rounded down.
fn floored(ratio: &Ratio) -> Option<i64> {
    let floor = ratio.num().checked_div_euclid(ratio.den())?;
    i64::try_from(floor).ok()
}

/// Whether each value is an integer.
pub(crate) fn are_whole(ratios: &[Ratio]) -> bool {
    for ratio in ratios {
        if whole(ratio).is_none() {
            return false;
        }
    }
    true
}

/// The first of the values that isn't an integer, and its floor.
pub(crate) fn first_fraction(ratios: &[Ratio]) -> Option<(usize, i64)> {
    for (at, ratio) in ratios.iter().enumerate() {
        if whole(ratio).is_none() {
            return Some((at, floored(ratio)?));
        }
    }
    None
}
