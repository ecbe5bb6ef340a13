//! Vertices, conflicts and numbers without room, each put into the equations and bounds again.

use crate::solving::{
    Found, at_least, at_most, between, finds, has_conflict, of_forms, solved, width,
};
use int_rows::Tableau;
use std::alloc::Global;
use std::mem;
use std::process::Abort;

#[test]
fn two_equations_of_large_numbers_have_a_wide_row(rt: HostRuntime) {
    let a: i64 = (1 << 62) + 1;
    let rows = [[a, 1, 0, 0], [1, a, 0, 0]];
    let mut t = of_forms(&rt, rt.alloc(), &rows);
    between(&mut t, 4, 3, 3);
    between(&mut t, 5, 5, 5);
    let entry = (1 << 124) + (1 << 63);
    assert!(rt; finds(rt.alloc(), &mut t, &rows, Found::WideRow(-entry)));
    mem::forget(t);
}

#[test]
fn two_equations_of_small_numbers_have_a_vertex(rt: HostRuntime) {
    let rows = [[1, 1, 0, 0], [1, 1, 0, 0]];
    let mut t = of_forms(&rt, rt.alloc(), &rows);
    between(&mut t, 4, 3, 3);
    between(&mut t, 5, 3, 3);
    assert!(rt; finds(rt.alloc(), &mut t, &rows, Found::Vertex));
    at_most(&mut t, 0, -7);
    assert!(rt; finds(rt.alloc(), &mut t, &rows, Found::Vertex));
    at_most(&mut t, 1, 9);
    assert!(rt; finds(rt.alloc(), &mut t, &rows, Found::Conflict));
    mem::forget(t);
}

#[test]
fn equations_without_a_solution_are_a_conflict(rt: HostRuntime) {
    let rows = [[1, 1, 0, 0], [1, 1, 0, 0]];
    let mut t = of_forms(&rt, rt.alloc(), &rows);
    between(&mut t, 4, 1, 1);
    between(&mut t, 5, 2, 2);
    // the first slack is 1 and the second 2, where both are x + y
    let wanted = [0, 0, 0, 0, 0, 0, 0, 0, 0, 1, 1, 0];
    assert!(rt; has_conflict(rt.alloc(), &mut t, &wanted));
    assert!(rt; finds(rt.alloc(), &mut t, &rows, Found::Conflict));
    mem::forget(t);
}

#[test]
fn crossed_bounds_are_a_conflict_before_anything(rt: HostRuntime) {
    let rows = [[1, 2, 3, 4]];
    let mut t = of_forms(&rt, rt.alloc(), &rows);
    between(&mut t, 1, 5, 4);
    let wanted = [0, 0, 1, 1, 0, 0, 0, 0, 0, 0];
    assert!(rt; has_conflict(rt.alloc(), &mut t, &wanted));
    assert!(rt; finds(rt.alloc(), &mut t, &rows, Found::Conflict));
    mem::forget(t);
}

#[test]
fn coordinates_without_room_are_named(rt: HostRuntime) {
    let a: i64 = 1 << 62;
    let rows = [[a, a, a, 0]];
    let most = (1 << 64) - 1;
    let mut t = of_forms(&rt, rt.alloc(), &rows);
    between(&mut t, 0, most, most);
    between(&mut t, 1, most, most);
    assert!(rt; finds(rt.alloc(), &mut t, &rows, Found::WideCoordinate(0)));
    between(&mut t, 2, most, most);
    assert!(rt; finds(rt.alloc(), &mut t, &rows, Found::WideCoordinate(4)));
    between(&mut t, 0, 0, (1 << 63) - 1);
    between(&mut t, 1, 0, 0);
    between(&mut t, 2, -(1 << 63), -(1 << 63));
    assert!(rt; finds(rt.alloc(), &mut t, &rows, Found::WideCoordinate(2)));
    between(&mut t, 2, 1 - (1 << 63), 1 - (1 << 63));
    assert!(rt; finds(rt.alloc(), &mut t, &rows, Found::Vertex));
    mem::forget(t);
}

/// Sixty-four forms of the first two variables, each their sum but for the last two.
fn many_forms(a: i64) -> [[i64; 4]; 64] {
    let mut rows = [[1, 1, 0, 0]; 64];
    rows[62] = [a, 1, 0, 0];
    rows[63] = [1, a, 0, 0];
    rows
}

#[test]
fn many_columns_have_a_vertex_and_a_conflict(rt: HostRuntime) {
    let rows = many_forms(2);
    let mut t = of_forms(&rt, rt.alloc(), &rows);
    between(&mut t, 66, 4, 4);
    between(&mut t, 67, 5, 5);
    assert!(rt; finds(rt.alloc(), &mut t, &rows, Found::Vertex));
    between(&mut t, 4, 4, 4);
    assert!(rt; finds(rt.alloc(), &mut t, &rows, Found::Conflict));
    mem::forget(t);
}

#[test]
fn many_columns_have_a_wide_row(rt: HostRuntime) {
    let rows = many_forms((1 << 62) + 1);
    let mut t = of_forms(&rt, rt.alloc(), &rows);
    between(&mut t, 66, 3, 3);
    between(&mut t, 67, 5, 5);
    let entry = (1 << 124) + (1 << 63);
    assert!(rt; finds(rt.alloc(), &mut t, &rows, Found::WideRow(-entry)));
    mem::forget(t);
}

#[test]
fn many_columns_have_a_wide_coordinate(rt: HostRuntime) {
    let mut rows = many_forms(1);
    rows[63] = [1 << 62, 1 << 62, 1 << 62, 0];
    let mut t = of_forms(&rt, rt.alloc(), &rows);
    let most = (1 << 64) - 1;
    for variable in 0..3 {
        between(&mut t, variable, most, most);
    }
    assert!(rt; finds(rt.alloc(), &mut t, &rows, Found::WideCoordinate(67)));
    mem::forget(t);
}

/// Bounds of programs that cycle under the greatest-coefficient rule.
fn bound_program(t: &mut Tableau) {
    for variable in 0..4 {
        at_least(t, variable, 0);
    }
    at_most(t, 4, 0);
    at_most(t, 5, 0);
    at_most(t, 6, 1);
}

/// What is answered for such a program, where the last form is to be at most, or at least, a number.
fn found(rt: &impl Abort, alloc: Global, rows: &[[i64; 4]], least: bool, optimum: i128) -> Found {
    let mut t = of_forms(rt, alloc, rows);
    bound_program(&mut t);
    if least {
        at_least(&mut t, 7, optimum);
    } else {
        at_most(&mut t, 7, optimum);
    }
    let found = solved(alloc, &mut t, rows);
    mem::forget(t);
    found
}

/// Beale 1955, times 100, 50, 1 and 100: the least value is -5.
const BEALE: [[i64; 4]; 4] = [
    [25, -6000, -4, 900],
    [25, -4500, -1, 150],
    [0, 0, 1, 0],
    [-75, 15000, -2, 600],
];

/// Chvatal 1983, times 2, 2, 1 and 1: the greatest value is 1.
const CHVATAL: [[i64; 4]; 4] = [
    [1, -11, -5, 18],
    [1, -3, -1, 2],
    [1, 0, 0, 0],
    [10, -57, -9, -24],
];

#[test]
fn programs_that_cycle_under_other_rules_end(rt: HostRuntime) {
    for (rows, least, optimum, wanted) in [
        (BEALE, false, -5, Found::Vertex),
        (BEALE, false, -6, Found::Conflict),
        (CHVATAL, true, 1, Found::Vertex),
        (CHVATAL, true, 2, Found::Conflict),
    ] {
        assert!(rt; found(&rt, rt.alloc(), &rows, least, optimum) == wanted);
    }
}

/// The next of a series of numbers, and one from -3 to 3 made of it.
fn next(seed: &mut u64) -> i64 {
    *seed = seed
        .wrapping_mul(6364136223846793005)
        .wrapping_add(1442695040888963407);
    ((*seed >> 33) % 7) as i64 - 3
}

/// Three forms of four variables.
fn next_forms(seed: &mut u64) -> [[i64; 4]; 3] {
    let mut rows = [[0; 4]; 3];
    for row in &mut rows {
        for coefficient in row.iter_mut() {
            *coefficient = next(seed);
        }
    }
    rows
}

/// Gives each column a lower bound, an upper bound, both or none.
fn bound_all(t: &mut Tableau, seed: &mut u64) {
    for column in 0..width(t) {
        let kind = next(seed);
        let least = i128::from(next(seed));
        let room = i128::from(next(seed).max(-2));
        if kind > -2 {
            at_least(t, column, least.wrapping_sub(3));
        }
        if kind < 2 {
            at_most(t, column, least.wrapping_add(room));
        }
    }
}

/// How many vertices and conflicts there were.
#[derive(Drop)]
struct Counts {
    vertices: u32,
    conflicts: u32,
}

fn tally(counts: &mut Counts, found: Found) {
    match found {
        Found::Vertex => counts.vertices = counts.vertices.wrapping_add(1),
        Found::Conflict => counts.conflicts = counts.conflicts.wrapping_add(1),
        _ => {}
    }
}

/// Solves the next system under bounds three times.
fn solve_next(rt: &impl Abort, alloc: Global, seed: &mut u64, counts: &mut Counts) {
    let rows = next_forms(seed);
    let mut t = of_forms(rt, alloc, &rows);
    for _ in 0..3 {
        bound_all(&mut t, seed);
        tally(counts, solved(alloc, &mut t, &rows));
    }
    mem::forget(t);
}

#[test]
fn small_systems_are_answered_rightly_also_from_where_the_last_run_ended(rt: HostRuntime) {
    let mut seed = 1;
    let mut counts = Counts {
        vertices: 0,
        conflicts: 0,
    };
    for _ in 0..200 {
        solve_next(&rt, rt.alloc(), &mut seed, &mut counts);
    }
    assert!(rt; counts.vertices.wrapping_add(counts.conflicts) == 600);
    assert!(rt; counts.vertices > 100 && counts.conflicts > 100);
}
