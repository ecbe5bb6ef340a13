//! Pivots that were worked out by hand.

ghost use Rattle.std.specs.Prelude.{◌≡◌};
ghost use Rattle.std.specs.List.{list_all};
ghost use Rattle.lin_atoms.specs.Linear.{lin_is_below};

use crate::made::{divisor, form};
use int_rows::{Bounded, Ready, ReadyStop, RowStop, RowWide, Tableau, ready};
use lin_atoms::{Divisor, Lin, Lit};
use std::alloc::Global;
use std::mem;
use std::process::Abort;

/// Whether each variable of the forms is below the number.
pub(crate) fn are_below(forms: &[Lin], variables: usize) -> bool
    ensures { result ≡ list_all (lin_is_below variables) forms.now }
{
    forms.iter().all(|form| form.is_below(variables))
}

/// The tableau of the forms, whose variables are below the number, of 2 at most.
pub(crate) fn tableau(
    rt: &impl Abort,
    alloc: Global,
    forms: Vec<Lin>,
    variables: usize,
) -> Tableau {
    assert!(rt; variables <= 2);
    assert!(rt; are_below(forms.as_slice(), variables));
    let t = Tableau::new(alloc, forms.as_slice(), variables).expect(rt, "a tableau");
    mem::forget(forms);
    t
}

/// The tableau of the forms a*x + b*y and c*x + d*y.
pub(crate) fn of_two(rt: &impl Abort, alloc: Global, a: i64, b: i64, c: i64, d: i64) -> Tableau {
    let first = form(rt, alloc, &[a, b], 0);
    let second = form(rt, alloc, &[c, d], 7);
    let forms = Vec::from_array(alloc, [first, second]).expect(rt, "memory");
    tableau(rt, alloc, forms, 2)
}

/// Whether a row has these entries and this basic variable.
pub(crate) fn has_row(t: &Tableau, row: usize, entries: &[i64], basic: usize) -> bool {
    if row >= t.rows() {
        return false;
    }
    t.basic(row) == basic && t.row(row) == entries
}

/// The rows and the basic variables of a tableau of two forms.
type Stand = ([[i64; 4]; 2], [usize; 2]);

fn stands(t: &Tableau, stand: Stand) -> bool {
    let (rows, basic) = stand;
    t.rows() == 2
        && has_row(t, 0, rows[0].as_slice(), basic[0])
        && has_row(t, 1, rows[1].as_slice(), basic[1])
}

/// What a pivot answers, where the entry is there and isn't 0.
fn pivot(t: &mut Tableau, row: usize, column: usize) -> Option<Result<(), RowWide>> {
    if row >= t.rows() || column >= t.columns() {
        return None;
    }
    if t.entry(row, column) == 0 {
        return None;
    }
    Some(t.pivot(row, column))
}

pub(crate) fn is_made(t: &mut Tableau, row: usize, column: usize) -> bool {
    matches!(pivot(t, row, column), Some(Ok(())))
}

#[test]
fn the_first_basis_is_the_slacks(rt: HostRuntime) {
    let t = of_two(&rt, rt.alloc(), 2, 3, 1, -1);
    assert!(rt; stands(&t, ([[-2, -3, 1, 0], [-1, 1, 0, 1]], [2, 3])));
    mem::forget(t);
}

/// Pivots of 2x + 3y and x - y, and how the tableau then stands.
const PIVOTS: [(usize, usize, Stand); 2] = [
    (0, 0, ([[2, 3, -1, 0], [0, 5, -1, 2]], [0, 3])),
    (1, 1, ([[5, 0, -1, -3], [0, 5, -1, 2]], [0, 1])),
];

#[test]
fn a_pivot_by_hand(rt: HostRuntime) {
    let mut t = of_two(&rt, rt.alloc(), 2, 3, 1, -1);
    for (row, column, stand) in PIVOTS {
        assert!(rt; is_made(&mut t, row, column) && stands(&t, stand));
    }
    mem::forget(t);
}

#[test]
fn rows_are_divided_by_what_divides_them(rt: HostRuntime) {
    let mut t = of_two(&rt, rt.alloc(), 2, 4, 6, 2);
    let stand = ([[2, 4, -1, 0], [0, 10, -3, 1]], [0, 3]);
    assert!(rt; is_made(&mut t, 0, 0) && stands(&t, stand));
    mem::forget(t);
}

/// 2^62 + 1.
pub(crate) const LARGE: i64 = (1 << 62) + 1;

/// Whether a pivot answers that the row has an entry of -2^124 - 2^63.
fn is_wide(t: &mut Tableau, row: usize, column: usize, wide: usize) -> bool {
    match pivot(t, row, column) {
        Some(Err(stop)) => stop.row == wide && stop.entry == -(1 << 124) - (1 << 63),
        _ => false,
    }
}

#[test]
fn a_row_without_room_leaves_the_tableau(rt: HostRuntime) {
    let mut t = of_two(&rt, rt.alloc(), LARGE, 1, 1, LARGE);
    let stand = ([[-LARGE, -1, 1, 0], [-1, -LARGE, 0, 1]], [2, 3]);
    for (at, wide) in [(0, 1), (1, 0)] {
        assert!(rt; is_wide(&mut t, at, at, wide) && stands(&t, stand));
    }
    mem::forget(t);
}

/// `count` forms of no variable.
pub(crate) fn constants(rt: &impl Abort, alloc: Global, count: usize) -> Vec<Lin> {
    let mut forms = Vec::new(alloc);
    for _ in 0..count {
        forms.push(Lin::of_constant(alloc, 0)).expect(rt, "memory");
    }
    forms
}

/// Whether `count` forms are too many; with memory.
fn are_too_many(rt: &impl Abort, alloc: Global, count: usize) -> bool {
    let forms = constants(rt, alloc, count);
    assert!(rt; are_below(forms.as_slice(), 0));
    let answer = Tableau::new(alloc, forms.as_slice(), 0);
    let are_too_many = matches!(&answer, Err(RowStop::TooMany));
    mem::forget(forms);
    mem::forget(answer);
    are_too_many
}

#[test]
fn more_than_1024_forms_are_too_many(rt: HostRuntime) {
    for (count, wanted) in [(1024, false), (1025, true)] {
        assert!(rt; are_too_many(&rt, rt.alloc(), count) == wanted);
    }
}

/// The form of `variables` variables, each with this coefficient.
fn wide_form(
    rt: &impl Abort,
    alloc: Global,
    variables: u32,
    coefficient: i64,
    constant: i128,
) -> Lin {
    let mut terms = Vec::new(alloc);
    for variable in 0..variables {
        terms.push((variable, coefficient)).expect(rt, "memory");
    }
    Lin::new(terms, constant).expect(rt, "a form")
}

/// How many terms a form has, its first coefficient, and two bounds.
type Said = (usize, i64, Option<i128>, Option<i128>);

/// What is said where no form has room.
const WIDE: Said = (usize::MAX, 0, None, None);

fn told(made: &Bounded) -> Said {
    let terms = made.form.terms();
    let first = if terms.is_empty() { 0 } else { terms[0].1 };
    (terms.len(), first, made.lower, made.upper)
}

/// What is said of a literal below 1,000.
fn said(alloc: Global, lit: &Lit) -> Option<Said> {
    if !lit.is_below(1000) {
        return None;
    }
    match ready(alloc, lit, 1000) {
        Ok(Ready::Truth(truth)) => Some((0, i64::from(truth), None, None)),
        Ok(Ready::Bounds(made)) => {
            let told = told(&made);
            mem::forget(made);
            Some(told)
        }
        Err(ReadyStop::Wide) => Some(WIDE),
        Err(_) => None,
    }
}

/// A kind of literal, with the divisor 5.
#[derive(Clone, Copy)]
enum Kind {
    Le,
    Eq,
    Div,
    NDiv,
}

fn of_kind(kind: Kind, five: Divisor, lin: Lin) -> Lit {
    match kind {
        Kind::Le => Lit::Le(lin),
        Kind::Eq => Lit::Eq(lin),
        Kind::Div => Lit::Div(five, lin),
        Kind::NDiv => Lit::NDiv(five, lin),
    }
}

/// What is said of a literal of `count` variables, each with this coefficient.
fn said_of(
    rt: &impl Abort,
    alloc: Global,
    kind: Kind,
    count: u32,
    coefficient: i64,
    constant: i128,
) -> Option<Said> {
    let lin = wide_form(rt, alloc, count, coefficient, constant);
    let lit = of_kind(kind, divisor(rt, 5), lin);
    let said = said(alloc, &lit);
    mem::forget(lit);
    said
}

/// Coefficients and constants, with what is said of one variable.
const READY: [(Kind, i64, i128, Said); 4] = [
    (Kind::Le, 6, 7, (1, 1, None, Some(-2))),
    (Kind::Eq, -6, 7, (1, -1, Some(-1), Some(-2))),
    (Kind::Div, 6, 7, (2, 6, Some(-7), Some(-7))),
    (Kind::NDiv, 6, 7, (2, 6, Some(-6), Some(-3))),
];

/// Whether what is said has the same numbers, and `more` further terms.
fn says(found: Option<Said>, said: Said, more: usize) -> bool {
    match found {
        Some((count, first, lower, upper)) => {
            count == said.0.wrapping_add(more)
                && first == said.1
                && lower == said.2
                && upper == said.3
        }
        None => false,
    }
}

/// Whether all literals of one variable and `more` others say what they are to say.
fn are_ready(rt: &impl Abort, alloc: Global, more: u32) -> bool {
    let mut all = true;
    for (kind, coefficient, constant, said) in READY {
        let count = more.wrapping_add(1);
        let found = said_of(rt, alloc, kind, count, coefficient, constant);
        all = all && says(found, said, more as usize);
    }
    all
}

#[test]
fn literals_are_made_ready_at_small_and_large_sizes(rt: HostRuntime) {
    for more in [0, 1, 299] {
        assert!(rt; are_ready(&rt, rt.alloc(), more));
    }
}

#[test]
fn constants_have_a_truth_and_wide_bounds_none(rt: HostRuntime) {
    let truth = said_of(&rt, rt.alloc(), Kind::Le, 0, 1, 1);
    assert!(rt; says(truth, (0, 0, None, None), 0));
    let wide = said_of(&rt, rt.alloc(), Kind::NDiv, 1, 1, 1 - (1 << 64));
    assert!(rt; says(wide, WIDE, 0));
}

/// Whether a variable that is there has these bounds.
pub(crate) fn has_bounds(
    t: &Tableau,
    variable: usize,
    lower: Option<i128>,
    upper: Option<i128>,
) -> bool {
    if variable < t.columns() || variable - t.columns() < t.rows() {
        t.lower(variable) == lower && t.upper(variable) == upper
    } else {
        false
    }
}

/// Gives a variable both bounds.
pub(crate) fn fasten(t: &mut Tableau, variable: usize) {
    if variable < t.columns() || variable - t.columns() < t.rows() {
        t.set_bounds(variable, Some(-5), Some(7));
    }
}

/// Takes the lower bound of a variable away, and gives it another upper one.
fn loosen(t: &mut Tableau, variable: usize) {
    if variable < t.columns() || variable - t.columns() < t.rows() {
        t.set_bounds(variable, None, Some(8));
    }
}

/// The tableau of `count` forms of one variable.
fn of_many(rt: &impl Abort, alloc: Global, count: usize) -> Tableau {
    let mut forms = Vec::new(alloc);
    for _ in 0..count {
        forms.push(form(rt, alloc, &[3], 0)).expect(rt, "memory");
    }
    tableau(rt, alloc, forms, 1)
}

/// Whether a row that is there is the same in both, and its basic variable the first.
fn have_row(copied: &Tableau, t: &Tableau, row: usize) -> bool {
    if row >= copied.rows() || row >= t.rows() {
        return false;
    }
    copied.basic(row) == 0 && copied.row(row) == t.row(row)
}

/// Whether both have the same sizes, row and bounds, and the copy then keeps bounds of its own.
fn are_apart(copied: &mut Tableau, t: &Tableau, row: usize) -> bool {
    let sizes = copied.rows() == t.rows() && copied.columns() == t.columns();
    let same = have_row(copied, t, row) && has_bounds(copied, 1, Some(-5), Some(7));
    loosen(copied, 1);
    sizes && same && has_bounds(copied, 1, None, Some(8)) && has_bounds(t, 1, Some(-5), Some(7))
}

/// Whether the copy of a tableau of `last` forms and one more, pivoted in its last row, is equal to
/// it and keeps bounds of its own on a slack.
fn copies_are_equal(rt: &impl Abort, alloc: Global, last: usize) -> bool {
    let mut t = of_many(rt, alloc, last.wrapping_add(1));
    fasten(&mut t, 1);
    assert!(rt; is_made(&mut t, last, 0));
    let mut copied = t.copy(alloc).expect(rt, "memory");
    let are_apart = are_apart(&mut copied, &t, last);
    mem::forget(t);
    mem::forget(copied);
    are_apart
}

#[test]
fn copies_are_equal_at_small_and_large_sizes(rt: HostRuntime) {
    for last in [0, 199] {
        assert!(rt; copies_are_equal(&rt, rt.alloc(), last));
    }
}
