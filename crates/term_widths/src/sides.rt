//! Differences of the sides of comparisons.

ghost use Rattle.std.specs.Prelude.{◌≡◌, not, IfOk};
ghost use Rattle.std.specs.List.{list_any};
ghost use Rattle.linear_terms.specs.Formula.{neighbours, pairs, sides};
ghost use Rattle.linear_terms.specs.Linear.{is_narrow, less};
ghost use Rattle.term_widths.specs.Sides.{is_wide_pair, is_wide_with};

use base::Memory;
use lin_atoms::{Lin, WideStop};
use linear_terms::less;
use std::alloc::Global;
use term_tree::OpKind;

/// Whether the first form less the second is wide.
fn is_wide_pair(alloc: Global, a: &Lin, b: &Lin) -> Result<bool, Memory>
    ensures { IfOk result (λ wide. wide ≡ not (is_narrow (less a.now b.now))) }
{
    match less(alloc, a, b) {
        Ok(_) => Ok(false),
        Err(WideStop::Wide) => Ok(true),
        Err(WideStop::Memory) => Err(Memory),
    }
}

/// Whether the form less one of the others is wide.
fn is_wide_with(alloc: Global, first: &Lin, others: &[Lin]) -> Result<bool, Memory>
    ensures { IfOk result (λ wide. wide ≡ is_wide_with first.now others.now) }
{
    for other in others {
        if is_wide_pair(alloc, first, other)? {
            return Ok(true);
        }
    }
    Ok(false)
}

/// Whether the difference of two neighbours is wide.
fn are_wide_neighbours(alloc: Global, forms: &[Lin]) -> Result<bool, Memory>
    ensures { IfOk result (λ wide. wide ≡ list_any is_wide_pair (neighbours forms.now)) }
{
    for i in 1..forms.len() {
        if is_wide_pair(alloc, &forms[i - 1], &forms[i])? {
            return Ok(true);
        }
    }
    Ok(false)
}

/// Whether the difference of any two is wide.
fn are_wide_pairs(alloc: Global, forms: &[Lin]) -> Result<bool, Memory>
    ensures { IfOk result (λ wide. wide ≡ list_any is_wide_pair (pairs forms.now)) }
{
    for i in 0..forms.len() {
        if is_wide_with(alloc, &forms[i], &forms[i + 1..])? {
            return Ok(true);
        }
    }
    Ok(false)
}

/// Whether a difference of two sides of the operator is wide: of any two for `distinct`, of two
/// neighbours for every other one.
pub fn has_wide_difference(alloc: Global, op: OpKind, forms: &[Lin]) -> Result<bool, Memory>
    ensures { IfOk result (λ wide. wide ≡ list_any is_wide_pair (sides op forms.now)) }
{
    match op {
        OpKind::Distinct => are_wide_pairs(alloc, forms),
        _ => are_wide_neighbours(alloc, forms),
    }
}
