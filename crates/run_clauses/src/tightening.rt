//! What a literal says of the ranges of its variables, and whether it holds by them.

use crate::ranges::Ranges;
use lin_atoms::{Lin, Lit};

/// What is known of a literal or a formula.
#[derive(Clone, Copy)]
pub(crate) enum Truth {
    Holds,
    Fails,
    Open,
}

/// The least and the greatest value of a form by the ranges of its variables. Sums that have no room stay at the
/// end of it.
#[derive(Clone, Copy)]
struct Sums {
    low: i128,
    high: i128,
    /// How many of its variables aren't known.
    open: u32,
}

/// The product of two numbers, which has room.
fn times(a: i64, b: i64) -> i128 {
    i128::from(a) * i128::from(b)
}

/// The least and the greatest value of a term.
fn ends(ranges: &Ranges, variable: u32, coefficient: i64) -> (i128, i128) {
    let (low, high) = ranges.of(variable);
    if low == high {
        let value = times(coefficient, low);
        (value, value)
    } else if coefficient > 0 {
        (times(coefficient, low), times(coefficient, high))
    } else {
        (times(coefficient, high), times(coefficient, low))
    }
}

fn sums_of(lin: &Lin, ranges: &Ranges) -> Sums {
    let mut sums = Sums {
        low: lin.constant(),
        high: lin.constant(),
        open: 0,
    };
    for (variable, coefficient) in lin.terms() {
        let (low, high) = ends(ranges, *variable, *coefficient);
        sums.low = sums.low.saturating_add(low);
        sums.high = sums.high.saturating_add(high);
        if low != high {
            sums.open = sums.open.saturating_add(1);
        }
    }
    sums
}

/// What is known of a form that is to be at most 0.
fn truth_of_le(sums: Sums) -> Truth {
    if sums.high <= 0 {
        Truth::Holds
    } else if sums.low > 0 {
        Truth::Fails
    } else {
        Truth::Open
    }
}

/// What is known of a form that is to be 0.
fn truth_of_eq(sums: Sums) -> Truth {
    if sums.low > 0 || sums.high < 0 {
        Truth::Fails
    } else if sums.open == 0 {
        Truth::Holds
    } else {
        Truth::Open
    }
}

/// What is known of a form that is to be a multiple, or none.
fn truth_of_multiple(sums: Sums, divisor: i64, is_wanted: bool) -> Truth {
    if sums.open > 0 {
        return Truth::Open;
    }
    match sums.low.checked_rem(i128::from(divisor)) {
        Some(rest) => {
            if (rest == 0) == is_wanted {
                Truth::Holds
            } else {
                Truth::Fails
            }
        }
        None => Truth::Open,
    }
}

/// What is known of the literal by the ranges.
pub(crate) fn truth_of_lit(lit: &Lit, ranges: &Ranges) -> Truth {
    match lit {
        Lit::Le(lin) => truth_of_le(sums_of(lin, ranges)),
        Lit::Eq(lin) => truth_of_eq(sums_of(lin, ranges)),
        Lit::Div(divisor, lin) => truth_of_multiple(sums_of(lin, ranges), divisor.get(), true),
        Lit::NDiv(divisor, lin) => truth_of_multiple(sums_of(lin, ranges), divisor.get(), false),
    }
}

/// The term and the rest are at most 0.
fn bound(ranges: &mut Ranges, variable: u32, coefficient: i64, rest: i128) {
    let less = match i64::try_from(rest) {
        Ok(rest) => rest.saturating_neg(),
        Err(_) => return,
    };
    if coefficient > 0 {
        if let Some(most) = less.checked_div_euclid(coefficient) {
            ranges.lower(variable, most);
        }
    } else if let Some(most) = less.checked_div_euclid(coefficient.saturating_neg()) {
        ranges.raise(variable, most.saturating_neg());
    }
}

/// The form is at most 0. Its least value stays as it is.
fn push_down(lin: &Lin, ranges: &mut Ranges) {
    let sums = sums_of(lin, ranges);
    for (variable, coefficient) in lin.terms() {
        let (low, high) = ends(ranges, *variable, *coefficient);
        if low != high {
            bound(
                ranges,
                *variable,
                *coefficient,
                sums.low.saturating_sub(low),
            );
        }
    }
}

/// The form is at least 0. Its greatest value stays as it is.
fn push_up(lin: &Lin, ranges: &mut Ranges) {
    let sums = sums_of(lin, ranges);
    for (variable, coefficient) in lin.terms() {
        let (low, high) = ends(ranges, *variable, *coefficient);
        if low != high {
            let rest = sums.high.saturating_sub(high).saturating_neg();
            bound(ranges, *variable, coefficient.saturating_neg(), rest);
        }
    }
}

/// What is known of a form whose ranges were made smaller by it: with one variable they say all of it.
fn truth_after(sums: Sums) -> Truth {
    if sums.open == 1 {
        Truth::Holds
    } else {
        Truth::Open
    }
}

/// Makes the ranges smaller by a form that is at most 0.
fn tighten_le(lin: &Lin, ranges: &mut Ranges) -> Truth {
    let sums = sums_of(lin, ranges);
    match truth_of_le(sums) {
        Truth::Open => {
            push_down(lin, ranges);
            truth_after(sums)
        }
        known => known,
    }
}

/// Makes the ranges smaller by a form that is 0.
fn tighten_eq(lin: &Lin, ranges: &mut Ranges) -> Truth {
    let sums = sums_of(lin, ranges);
    match truth_of_eq(sums) {
        Truth::Open => {
            push_down(lin, ranges);
            push_up(lin, ranges);
            truth_after(sums)
        }
        known => known,
    }
}

/// Makes the ranges smaller by a literal that is to hold, and says what is still to be known of it.
pub(crate) fn tighten(lit: &Lit, ranges: &mut Ranges) -> Truth {
    match lit {
        Lit::Le(lin) => tighten_le(lin, ranges),
        Lit::Eq(lin) => tighten_eq(lin, ranges),
        _ => truth_of_lit(lit, ranges),
    }
}
