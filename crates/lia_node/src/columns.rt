//! The forms of the rows, and the bounds of all columns.

ghost use Rattle.std.specs.Prelude.{◌≡◌, ◌∷◌, [], ◌++◌, ◌+◌, ◌<◌, ◌==◌, ℕ, ℤ, List, length, map, IfOk, IfSome, IsNone, OnOk, true, false};
ghost use Rattle.std.specs.List.{list_all, range_with_len};
ghost use Rattle.int_rows.specs.Node.{greater, in_rows, lesser, lower_on, upper_on};
ghost use Rattle.int_rows.specs.Ready.{bounded_fits};
ghost use Rattle.int_rows.specs.Table.{width};
ghost use Rattle.int_rows.specs.declared.bounds.Bounded.{Bounded};
ghost use Rattle.lia_node.specs.machinery.Columns.{all_sides, first_of, is_said_below, second_of, sides_fit, sides_of, sides_on};

use crate::gathering::has_row;
use crate::tightest::{greater, lesser, lower_on, upper_on};
use base::Memory;
use int_rows::{Bounded, Tableau};
use lin_atoms::Lin;
use std::alloc::Global;

/// Puts a form with a row after the others.
fn put_form(made: &mut Vec<Lin>, bounded: Bounded) -> Result<(), Memory>
    ensures { OnOk result (made.new.items ≡ made.old.items ++ map (λ b. b.form) (in_rows (bounded ∷ []))) }
{
    let keep = has_row(&bounded);
    let Bounded { form, .. } = bounded;
    if keep {
        made.push(form)?;
    }
    Ok(())
}

/// The forms of two or more variables.
pub(crate) fn forms(alloc: Global, bounds: Vec<Bounded>) -> Result<Vec<Lin>, Memory>
    ensures { IfOk result (λ made. made.items ≡ map (λ b. b.form) (in_rows bounds.items)) }
{
    let mut left = bounds;
    let mut made = Vec::with_capacity(alloc, left.len())?;
    'forms: while let Some(bounded) = left.pop() {
        put_form(&mut made, bounded)?;
    }
    made.reverse();
    Ok(made)
}

/// The variable of a form that has no other one.
fn only_variable(bounded: &Bounded) -> Option<u32>
    ensures some { IfSome result (λ v. (a : ℤ) × (bounded.now.form.terms ≡ (v, a) ∷ [])) }
    ensures none { IsNone result → (length bounded.now.form.terms == 1) ≡ false }
{
    match bounded.form.terms() {
        [(variable, _)] => Some(*variable),
        _ => None,
    }
}

/// The bounds of the variable, with what is said of it.
fn met(
    sides: (Option<i128>, Option<i128>),
    bounded: &Bounded,
    variable: u32,
) -> (Option<i128>, Option<i128>)
    requires fits { bounded_fits bounded.now ≡ true }
    requires sides { sides_fit sides ≡ true }
    ensures is { result ≡ (greater (lower_on variable bounded.now) sides.0, lesser (upper_on variable bounded.now) sides.1) }
    ensures fit { sides_fit result ≡ true }
{
    let (lower, upper) = sides;
    (
        greater(lower_on(variable, bounded), lower),
        lesser(upper_on(variable, bounded), upper),
    )
}

/// What is said of a variable is met by its bounds.
fn meet(made: &mut [(Option<i128>, Option<i128>)], bounded: &Bounded)
    requires fits { bounded_fits bounded.now ≡ true }
    requires below { is_said_below (length made.old) bounded.now ≡ true }
    requires fit { list_all sides_fit made.old ≡ true }
    ensures is { (n : ℕ) (bs : List Bounded) → made.old ≡ map (sides_on bs) (range_with_len 0 n) → made.new ≡ map (sides_on (bounded.now ∷ bs)) (range_with_len 0 n) }
    ensures fit { list_all sides_fit made.new ≡ true }
    ensures long { length made.new ≡ length made.old }
{
    if let Some(variable) = only_variable(bounded) {
        let at = variable as usize;
        made[at] = met(made[at], bounded, variable);
    }
}

/// No bounds, for each of `variables` variables.
fn without_bounds(
    alloc: Global,
    variables: u32,
) -> Result<Vec<(Option<i128>, Option<i128>)>, Memory>
    ensures is { IfOk result (λ made. made.items ≡ map (sides_on []) (range_with_len 0 variables)) }
    ensures fit { IfOk result (λ made. list_all sides_fit made.items ≡ true) }
{
    let mut made = Vec::with_capacity(alloc, variables as usize)?;
    for _ in 0..variables {
        made.push((None, None))?;
    }
    Ok(made)
}

/// The bounds of the variables.
fn of_variables(
    alloc: Global,
    bounds: &[Bounded],
    variables: u32,
) -> Result<Vec<(Option<i128>, Option<i128>)>, Memory>
    requires fit { list_all bounded_fits bounds.now ≡ true }
    requires below { list_all (is_said_below variables) bounds.now ≡ true }
    ensures is { IfOk result (λ made. made.items ≡ map (sides_on bounds.now) (range_with_len 0 variables)) }
    ensures fit { IfOk result (λ made. list_all sides_fit made.items ≡ true) }
{
    let mut made = without_bounds(alloc, variables)?;
    let mut at = bounds.len();
    'each: while at > 0 {
        at -= 1;
        meet(made.as_mut_slice(), &bounds[at]);
    }
    Ok(made)
}

/// Puts the bounds of a row's slack after the others.
fn put_slack(made: &mut Vec<(Option<i128>, Option<i128>)>, bounded: &Bounded) -> Result<(), Memory>
    ensures { OnOk result (made.new.items ≡ made.old.items ++ map sides_of (in_rows (bounded.now ∷ []))) }
{
    if has_row(bounded) {
        made.push((bounded.lower, bounded.upper))?;
    }
    Ok(())
}

/// The bounds of all columns: first the variables, then the slacks.
pub(crate) fn all_sides(
    alloc: Global,
    bounds: &[Bounded],
    variables: u32,
) -> Result<Vec<(Option<i128>, Option<i128>)>, Memory>
    requires fit { list_all bounded_fits bounds.now ≡ true }
    requires below { list_all (is_said_below variables) bounds.now ≡ true }
    ensures is { IfOk result (λ made. made.items ≡ all_sides variables bounds.now) }
    ensures fit { IfOk result (λ made. list_all sides_fit made.items ≡ true) }
{
    let mut made = of_variables(alloc, bounds, variables)?;
    for bounded in bounds {
        put_slack(&mut made, bounded)?;
    }
    Ok(made)
}

/// Gives each column its bounds.
pub(crate) fn set_all(tableau: &mut Tableau, sides: &[(Option<i128>, Option<i128>)])
    requires each { length sides.now ≡ width tableau.old }
    requires fit { list_all sides_fit sides.now ≡ true }
    ensures { tableau.new ≡ record tableau.old { lower = map first_of sides.now; upper = map second_of sides.now } }
{
    tableau.table_law();
    for (column, (lower, upper)) in sides.iter().enumerate() {
        tableau.set_bounds(column, *lower, *upper);
    }
}
