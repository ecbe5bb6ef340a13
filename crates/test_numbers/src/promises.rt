//! What a cube promises, against a search: for small conjunctions of a seeded generator each point
//! of the cube is extended by trying values of the other variables, one after another.

ghost use Rattle.std.specs.Prelude.{◌<◌};

use crate::made::check_at;
use crate::projected::{Row, all_hold, literals, projected};
use lin_atoms::Lit;
use std::alloc::Global;
use std::mem;
use std::process::Abort;

/// A literal as in a row, with a small constant.
type Small = (i64, i64, i64, i64, i64);

/// How many values are tried: those up to 125 in magnitude.
const SIDE: i64 = 251;

/// The next state of a linear congruential generator (Knuth's constants for 64 bits), and a number
/// below `n` from its high bits.
fn drawn(state: &mut u64, n: u64) -> i64
    requires { 0 < n }
{
    *state = state
        .wrapping_mul(6364136223846793005)
        .wrapping_add(1442695040888963407);
    ((*state >> 33) % n) as i64
}

/// A number from -4 to 4.
fn small(state: &mut u64) -> i64 {
    drawn(state, 9).wrapping_sub(4)
}

/// What is claimed of a form: half of the time a bound or an equation.
fn kind(state: &mut u64) -> i64 {
    match drawn(state, 9) {
        0 | 1 => 0,
        2 | 3 => -1,
        4 => 2,
        5 => 3,
        6 => 4,
        7 => -2,
        _ => -3,
    }
}

fn row(state: &mut u64) -> Small {
    let kind = kind(state);
    let a = small(state);
    let b = small(state);
    let c = small(state);
    (kind, a, b, c, small(state))
}

/// Whether a row is true at a point, in machine arithmetic.
fn holds(row: Small, point: [i64; 3]) -> bool {
    let [x, y, z] = point;
    let terms = row.1.wrapping_mul(x).wrapping_add(row.2.wrapping_mul(y));
    let value = terms
        .wrapping_add(row.3.wrapping_mul(z))
        .wrapping_add(row.4);
    match row.0 {
        0 => value <= 0,
        -1 => value == 0,
        2 => value % 2 == 0,
        3 => value % 3 == 0,
        4 => value % 4 == 0,
        -2 => value % 2 != 0,
        _ => value % 3 != 0,
    }
}

fn are_true(rows: &[Small], point: [i64; 3]) -> bool {
    for row in rows {
        if !holds(*row, point) {
            return false;
        }
    }
    true
}

/// Four rows that are true at the model.
fn conjunction(rt: &impl Abort, alloc: Global, state: &mut u64, model: [i64; 3]) -> Vec<Small> {
    let mut rows = Vec::new(alloc);
    for _ in 0..40 {
        let next = row(state);
        if rows.len() < 4 && holds(next, model) {
            rows.push(next).expect(rt, "memory");
        }
    }
    rows
}

fn widened(rt: &impl Abort, alloc: Global, rows: &[Small]) -> Vec<Row> {
    let mut made = Vec::new(alloc);
    for row in rows {
        made.push((row.0, row.1, row.2, row.3, i128::from(row.4)))
            .expect(rt, "memory");
    }
    made
}

/// The point with a value of the kept variable and values of the others.
fn point(kept: u32, value: i64, a: i64, b: i64) -> [i64; 3] {
    match kept {
        0 => [value, a, b],
        1 => [a, value, b],
        _ => [a, b, value],
    }
}

/// 0, -1, 1, -2, 2 and so on.
fn outwards(n: i64) -> i64 {
    if n % 2 == 0 { n / 2 } else { -(n / 2) - 1 }
}

/// Whether some value of the last variable makes the rows true.
fn extends_with(rows: &[Small], kept: u32, value: i64, a: i64) -> bool {
    for n in 0..SIDE {
        if are_true(rows, point(kept, value, a, outwards(n))) {
            return true;
        }
    }
    false
}

/// Whether some values of the others make the rows true.
fn extends(rows: &[Small], kept: u32, value: i64) -> bool {
    for n in 0..SIDE {
        if extends_with(rows, kept, value, outwards(n)) {
            return true;
        }
    }
    false
}

/// Whether no other variable occurs.
fn is_over(lit: &Lit, kept: u32) -> bool {
    let lin = match lit {
        Lit::Le(lin) => lin,
        Lit::Eq(lin) => lin,
        Lit::Div(_, lin) => lin,
        Lit::NDiv(_, lin) => lin,
    };
    for term in lin.terms() {
        if term.0 != kept {
            return false;
        }
    }
    true
}

fn are_over(cube: &[Lit], kept: u32) -> bool {
    for lit in cube {
        if !is_over(lit, kept) {
            return false;
        }
    }
    true
}

/// How many values from -20 to 20 the cube has, where each of them extends.
fn values(rows: &[Small], cube: &[Lit], kept: u32) -> Option<u32> {
    let mut count: u32 = 0;
    for value in -20..21 {
        if !all_hold(cube, &point(kept, value, 0, 0)) {
            continue;
        }
        if !extends(rows, kept, value) {
            return None;
        }
        count = count.wrapping_add(1);
    }
    Some(count)
}

/// How many values from -20 to 20 the cube of the conjunction of that number has, where each of them
/// extends, and the cube has the model's point and the kept variable alone; else none.
fn values_of(rt: &impl Abort, alloc: Global, number: u32) -> Option<u32> {
    let mut state = u64::from(number);
    let model = [small(&mut state), small(&mut state), small(&mut state)];
    let rows = conjunction(rt, alloc, &mut state, model);
    let wide = widened(rt, alloc, rows.as_slice());
    let lits = literals(rt, alloc, wide.as_slice());
    let kept = number % 3;
    let made = projected(rt, alloc, lits.as_slice(), &model, &[kept]);
    let cube = made.cube();
    let found = if all_hold(cube, &model) && are_over(cube, kept) {
        values(rows.as_slice(), cube, kept)
    } else {
        None
    };
    mem::forget(lits);
    mem::forget(made);
    found
}

/// The cubes of 300 conjunctions have 3296 of the values; a plain elimination in another language
/// counts the same.
#[test]
fn every_point_of_a_cube_extends(rt: HostRuntime) {
    let mut total: u32 = 0;
    for number in 0..300 {
        let values = values_of(&rt, rt.alloc(), number);
        check_at(&rt, values.is_some(), i128::from(number));
        total = total.wrapping_add(values.unwrap_or(0));
    }
    assert!(rt; total == 3296);
}
