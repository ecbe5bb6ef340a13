//! A combination of the unknowns of equations.

/// A combination of unknowns, which takes the place of one of them.
#[derive(Drop)]
pub(crate) struct Column {
    /// How often each equation has it, and behind that how often each of the first unknowns has it.
    pub(crate) entries: Vec<i128>,
    /// How many equations there are.
    pub(crate) rows: usize,
    /// About what it is, scaled.
    pub(crate) near: i128,
}

impl Column {
    /// How often the equation has it.
    pub(crate) fn entry(&self, row: usize) -> i128 {
        number_at(self.entries.as_slice(), row)
    }

    /// How often each of the first unknowns has it.
    pub(crate) fn parts(&self) -> &[i128] {
        let entries = self.entries.as_slice();
        &entries[self.rows.min(entries.len())..]
    }

    /// Another column is taken away `times` times. It then stands for `times` times this one more.
    pub(crate) fn take_away(&mut self, times: i128, other: &mut Column) -> Option<()> {
        subtract(self.entries.as_mut_slice(), times, other.entries.as_slice())?;
        other.near = more(other.near, times, self.near)?;
        Some(())
    }
}

/// The number at that place, and 0 where there is none.
pub(crate) fn number_at(numbers: &[i128], at: usize) -> i128 {
    match numbers.get(at) {
        Some(number) => *number,
        None => 0,
    }
}

/// A number plus `times` times another one.
pub(crate) fn more(own: i128, times: i128, part: i128) -> Option<i128> {
    own.checked_add(times.checked_mul(part)?)
}

/// A number less `times` times another one.
pub(crate) fn less(from: i128, times: i128, other: i128) -> Option<i128> {
    from.checked_sub(times.checked_mul(other)?)
}

/// A multiple of a list of numbers is taken away from another list.
fn subtract(from: &mut [i128], times: i128, other: &[i128]) -> Option<()> {
    for (at, own) in from.iter_mut().enumerate() {
        match less(*own, times, number_at(other, at)) {
            Some(value) => *own = value,
            None => return None,
        }
    }
    Some(())
}
