//! What the parts of an operation stand as.

ghost use Rattle.std.specs.Prelude.{◌≡◌, map, IfSome, IsNone, if◌then◌else◌};
ghost use Rattle.term_tree.specs.declared.sort.Sort.TheVariants.{Bool as Truth};
ghost use Rattle.term_tree.specs.Sorts.{has_sort};
ghost use Rattle.linear_terms.specs.Text.{are_truths, chosen, is_truth, operands, spot_as};
ghost use Rattle.term_tables.specs.machinery.Table.{sort_in};

use linear_terms::{Spot, Standing};
use term_tables::SortTable;
use term_tree::{OpKind, Sort, TermId};

pub(crate) fn spot_as(standing: Standing, id: TermId) -> Spot
    ensures { result ≡ spot_as standing id }
{
    Spot { id: id.0, standing }
}

fn is_bool(sort: Option<Sort>) -> bool
    ensures { result ≡ has_sort Truth sort }
{
    match sort {
        Some(Sort::Bool) => true,
        _ => false,
    }
}

fn is_truth(sorts: &SortTable, id: TermId) -> bool
    ensures { result ≡ is_truth (sort_in sorts.now) id.0 }
{
    is_bool(sorts.sort(id))
}

fn are_truths(sorts: &SortTable, ids: &[TermId]) -> bool
    ensures { result ≡ are_truths (sort_in sorts.now) ids.now }
{
    match ids {
        [] => false,
        [id, ..] => is_truth(sorts, *id),
    }
}

/// What the arguments of a relation of equality stand as.
fn compared(sorts: &SortTable, args: &[TermId]) -> Standing
    ensures { result ≡ (if are_truths (sort_in sorts.now) args.now then Standing.Bit else Standing.Plain) }
{
    if are_truths(sorts, args) {
        Standing::Bit
    } else {
        Standing::Plain
    }
}

/// What all arguments of an operation stand as. Those of a choice don't stand as the same.
pub(crate) fn operands(sorts: &SortTable, op: OpKind, args: &[TermId]) -> Option<Standing>
    ensures alike { IfSome result (λ standing. operands (sort_in sorts.now) op args.now ≡ map (spot_as standing) args.now) }
    ensures choice { IsNone result → operands (sort_in sorts.now) op args.now ≡ chosen args.now }
{
    match op {
        OpKind::Xor => Some(Standing::Bit),
        OpKind::Eq => Some(compared(sorts, args)),
        OpKind::Distinct => Some(compared(sorts, args)),
        OpKind::Ite => None,
        _ => Some(Standing::Plain),
    }
}
