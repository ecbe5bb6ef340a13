//! The bounds of a variable, and the one that the model is nearest to.

ghost use Rattle.std.specs.Prelude.{Some, ◌≡◌, ◌<◌, ◌≤◌, ◌*◌, nat_abs, None, true, false, IfOk, IfSome, IsErr, IsNone, OnOk};
ghost use Rattle.std.specs.Option.{option_map};
ghost use Rattle.base.specs.Widths.{short_limit};
ghost use Rattle.lin_atoms.specs.Linear.{variable_at};
ghost use Rattle.model_project.specs.Elimination.{gap, gaps_are_short, is_bound, is_nearer, nearer, nearest};
ghost use Rattle.model_project.specs.Substitution.{coefficient};

use crate::period::short;
use crate::reading;
use lin_atoms::{Lin, Lit};

/// What a variable stands for at a point.
pub(crate) fn variable_at(point: &[i64], variable: usize) -> i64
    ensures { result ≡ variable_at point.now variable }
{
    if variable < point.len() {
        point[variable]
    } else {
        0
    }
}

/// The gap of a bound, unless it is wide.
fn gap(lin: &Lin, model: &[i64]) -> Option<u64>
    ensures some { IfSome result (λ n. n ≡ gap model.now lin.now) }
    ensures short { IfSome result (λ n. gap model.now lin.now < short_limit) }
    ensures none { IsNone result → short_limit ≤ gap model.now lin.now }
{
    match lin.total_at(model).to_i128() {
        Some(value) => short(value.unsigned_abs()),
        None => None,
    }
}

/// The magnitude of a coefficient.
pub(crate) fn size(lin: &Lin, variable: usize) -> u64
    ensures is { result ≡ nat_abs (coefficient variable lin.now) }
    ensures short { result < short_limit }
{
    reading::coefficient(lin, variable).unsigned_abs()
}

/// The exact product.
pub(crate) fn product(a: u64, b: u64) -> u128
    ensures { result ≡ a * b }
{
    u128::from(a) * u128::from(b)
}

/// A bound with its gap.
#[derive(Clone, Copy)]
pub(crate) struct Bound<'a> {
    pub(crate) lin: &'a Lin,
    pub(crate) gap: u64,
}

/// Whether the first gap, divided by its coefficient, is less than the second.
fn is_nearer(model: &[i64], variable: usize, a: Bound<'_>, b: Bound<'_>) -> bool
    requires a { a.gap ≡ gap model.now a.lin.now }
    requires b { b.gap ≡ gap model.now b.lin.now }
    ensures { result ≡ is_nearer model.now variable a.entry.lin.now b.entry.lin.now }
{
    let _model = model;
    product(a.gap, size(b.lin, variable)) < product(b.gap, size(a.lin, variable))
}

/// The nearer of two bounds, the first of two that are as near.
fn nearer<'a>(model: &[i64], variable: usize, a: Bound<'a>, best: Option<Bound<'a>>) -> Bound<'a>
    requires a { a.gap ≡ gap model.now a.lin.now }
    requires best { IfSome best (λ b. b.gap ≡ gap model.now b.lin.now) }
    ensures is { Some result.lin.now ≡ nearer model.now variable a.entry.lin.now (option_map (λ b. b.lin.now) best.entry) }
    ensures gap { result.gap ≡ gap model.now result.lin.now }
{
    match best {
        Some(b) => {
            if is_nearer(model, variable, b, a) {
                b
            } else {
                a
            }
        }
        None => a,
    }
}

/// A gap that is wide.
#[derive(Debug, Drop)]
pub(crate) struct Wide;

/// The nearest bound on a side, unless a gap is wide.
pub(crate) fn nearest<'a>(
    lits: &'a [Lit],
    model: &[i64],
    below: bool,
    variable: usize,
) -> Result<Option<Bound<'a>>, Wide>
    ensures is { IfOk result (λ best. option_map (λ b. b.lin.now) best ≡ nearest model.now below variable lits.now) }
    ensures gap { IfOk result (λ best. IfSome best (λ b. b.gap ≡ gap model.now b.lin.now)) }
    ensures short { OnOk result (gaps_are_short model.now below variable lits.now ≡ true) }
    ensures wide { IsErr result → gaps_are_short model.now below variable lits.now ≡ false }
{
    let mut best = None;
    let mut left = lits.len();
    while left > 0 {
        left -= 1;
        if !reading::is_bound(&lits[left], below, variable) {
            continue;
        }
        let lin = reading::linear_of(&lits[left]);
        match gap(lin, model) {
            Some(gap) => {
                let found = nearer(model, variable, Bound { lin, gap }, best);
                best = Some(found);
            }
            None => return Err(Wide),
        }
    }
    Ok(best)
}
