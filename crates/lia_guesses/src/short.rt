//! Columns that are free are made shorter: each is less by the multiple of another one that leaves least of it.

use crate::column::{Column, more, number_at};

/// So often all columns are made shorter at the most.
const MOST_PASSES: u32 = 6;

/// With more columns than this none is made shorter.
const MOST_COLUMNS: usize = 30;

/// The sum of products, where it has room.
fn product(one: &[i128], other: &[i128]) -> Option<i128> {
    let mut sum: i128 = 0;
    for (at, a) in one.iter().enumerate() {
        match more(sum, *a, number_at(other, at)) {
            Some(value) => sum = value,
            None => return None,
        }
    }
    Some(sum)
}

/// How often the other column is to be taken away: the quotient of both, rounded to the nearest integer.
fn times(own: &Column, other: &Column) -> Option<i128> {
    let both = product(own.parts(), other.parts())?;
    if both == 0 {
        return Some(0);
    }
    let size = product(other.parts(), other.parts())?;
    let twice = both.unsigned_abs().checked_mul(2)?;
    if twice <= size.unsigned_abs() {
        return Some(0);
    }
    both.checked_add(size / 2)?.checked_div_euclid(size)
}

/// The other column is taken away. Whether that changes anything.
fn less(own: &mut Column, other: &mut Column) -> Option<bool> {
    let times = times(own, other)?;
    if times == 0 {
        return Some(false);
    }
    own.take_away(times, other)?;
    Some(true)
}

/// The other columns are taken away. Whether that changes anything.
fn less_all(own: &mut Column, others: &mut [Column]) -> Option<bool> {
    let mut is_changed = false;
    for other in others.iter_mut() {
        match less(own, other) {
            Some(is_new) => is_changed = is_changed || is_new,
            None => return None,
        }
    }
    Some(is_changed)
}

/// The last column is moved to where those that are done end, and the others are taken away from it. Whether
/// that changes anything.
fn next(free: &mut [Column], done: usize) -> bool {
    let (done, rest) = free.split_at_mut(done.min(free.len()));
    let moved = rest.len().min(1);
    rest.rotate_right(moved);
    match rest.split_first_mut() {
        Some((own, others)) => {
            let before = less_all(own, others);
            let after = less_all(own, done);
            before == Some(true) || after == Some(true)
        }
        None => false,
    }
}

/// Each column is made shorter once, the last one first. Whether that changes anything.
fn pass(free: &mut [Column]) -> bool {
    let mut is_changed = false;
    for done in 0..free.len() {
        let is_new = next(free, done);
        is_changed = is_changed || is_new;
    }
    is_changed
}

/// The columns are made shorter, as long as that changes them.
pub(crate) fn shorten(free: &mut [Column]) {
    if free.len() > MOST_COLUMNS {
        return;
    }
    for _ in 0..MOST_PASSES {
        if !pass(free) {
            return;
        }
    }
}
