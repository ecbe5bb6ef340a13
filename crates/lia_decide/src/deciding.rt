//! What is found is checked.

ghost use Rattle.std.specs.Prelude.{◌≡◌, ℕ, IfOk, IfSome, length, true};
ghost use Rattle.std.specs.List.{list_all};
ghost use Rattle.lin_atoms.specs.Linear.{is_short};
ghost use Rattle.lia_search.specs.Decides.{Decides};

use base::Memory;
use farkas_proof::{CheckStop, check};
use lia_backjump::{End, search_back};
use lia_search::Decision;
use lin_atoms::{Form, holds};
use refutation_trees::Refutation;
use std::alloc::Global;

/// So many nodes are split at most for each inner node of a split tree that is allowed.
const SPLITS: u32 = 4;

/// One more than the greatest variable of the form, whose variables are below `vars`.
fn end_of(form: &Form, vars: u32) -> u32 {
    let mut low: u32 = 0;
    let mut high = vars;
    'halves: for _ in 0..32 {
        let middle = low.saturating_add(high.saturating_sub(low) / 2);
        if form.is_below(middle as usize) {
            high = middle;
        } else {
            low = middle.saturating_add(1).min(high);
        }
    }
    high
}

/// Whether the number is below 2^63 in magnitude.
fn is_short(value: i64) -> bool
    ensures { result ≡ is_short value }
{
    value.unsigned_abs() < 1 << 63
}

fn are_short(point: &[i64]) -> bool
    ensures { result ≡ list_all is_short point.now }
{
    for value in point {
        if !is_short(*value) {
            return false;
        }
    }
    true
}

/// The value of a variable below `end`, and 0 for one from there on.
fn value(point: &[i64], variable: usize, end: usize) -> i64 {
    match point.get(variable) {
        Some(value) => { if variable < end { *value } else { 0 } }
        None => 0,
    }
}

/// The values of so many variables.
fn cut(alloc: Global, point: &[i64], end: usize, vars: usize) -> Result<Vec<i64>, Memory>
    ensures { IfOk result (λ made. length made.items ≡ vars) }
{
    let mut made = Vec::with_capacity(alloc, vars)?;
    'cut: for variable in 0..vars {
        made.push(value(point, variable, end))?;
    }
    Ok(made)
}

/// The point, where the form is true at it.
fn model(
    alloc: Global,
    form: &Form,
    point: &[i64],
    end: u32,
    vars: u32,
) -> Result<Option<Decision>, Memory>
    ensures { (nodes : ℕ) → IfOk result (λ found. IfSome found (λ decision. Decides form.now vars nodes decision)) }
{
    let point = cut(alloc, point, end as usize, vars as usize)?;
    if are_short(point.as_slice()) && holds(form, point.as_slice()) {
        return Ok(Some(Decision::Model(point)));
    }
    Ok(None)
}

/// The form with the tree, where that refutes it.
fn refuted(alloc: Global, form: &Form, tree: &Refutation) -> Result<Option<Decision>, Memory>
    ensures { (vars nodes : ℕ) → IfOk result (λ found. IfSome found (λ decision. Decides form.now vars nodes decision)) }
{
    match check(alloc, form, tree) {
        Ok(refuted) => Ok(Some(Decision::Refuted(refuted))),
        Err(CheckStop::Memory) => Err(Memory),
        Err(CheckStop::NoProof { .. }) => Ok(None),
        Err(CheckStop::SumWide { .. }) => Ok(None),
    }
}

/// Decides the form, whose variables are below `vars`, where a search that goes back finds a point or a refutation
/// with at most four splits for each of `nodes`. The first `taken` literals of the flattened form join at once, as
/// for `search`. What is found is checked. A form isn't searched where three for each literal and one for each
/// disjunction are more than 2^20.
pub fn decide_back(
    alloc: Global,
    form: &Form,
    taken: usize,
    vars: u32,
    nodes: u32,
) -> Result<Option<Decision>, Memory>
    ensures { IfOk result (λ found. IfSome found (λ decision. Decides form.now vars nodes decision)) }
{
    let end = end_of(form, vars);
    match search_back(alloc, form, taken, end, nodes.saturating_mul(SPLITS))? {
        End::Point(point) => {
            let found = model(alloc, form, point.as_slice(), end, vars)?;
            Ok(found)
        }
        End::Refuted(tree) => {
            let found = refuted(alloc, form, &tree)?;
            Ok(found)
        }
        End::Nothing => Ok(None),
    }
}
