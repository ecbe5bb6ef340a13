//! Numbers of a vertex, as multiples of a small fraction.

use lin_atoms::Ratio;

/// The fraction is 1 by this number.
const SCALE: i128 = 1 << 24;

/// What is as near to an integer as this counts as one.
const SLACK: i128 = 1 << 10;

/// A number of a vertex, scaled and rounded.
pub(crate) fn scaled(ratio: &Ratio) -> Option<i128> {
    let num = ratio.num().checked_mul(SCALE)?;
    num.checked_add(ratio.den() / 2)?
        .checked_div_euclid(ratio.den())
}

/// How a number is rounded.
#[derive(Clone, Copy)]
pub(crate) enum Way {
    Near,
    Up,
    Down,
}

impl Way {
    /// The integer.
    pub(crate) fn round(self, value: i128) -> Option<i128> {
        let more = match self {
            Way::Near => SCALE / 2,
            Way::Up => SCALE - SLACK,
            Way::Down => SLACK,
        };
        value.checked_add(more)?.checked_div_euclid(SCALE)
    }
}
