//! What a point breaks.

ghost use Rattle.std.specs.Prelude.{◌≡◌, ◌+◌, ◌<◌, length, take, slice_get, option_map, Some, IfSome, IsNone, false, true};
ghost use Rattle.std.specs.List.{list_all, list_any};
ghost use Rattle.lin_atoms.specs.Truth.{lit_truth, truth};
ghost use Rattle.lia_stack.specs.machinery.Opened.{left_lits};
ghost use Rattle.lia_stack.specs.machinery.Fewest.{IsFewest};

use crate::lent::Lent;
use crate::waiting::LeftOut;
use base::Items;
use lin_atoms::{Form, holds};

/// Whether a part of a disjunction is true at the point.
pub fn any_holds(parts: &[Form], point: &[i64]) -> bool
    ensures { result ≡ list_any (truth point.now) parts.now }
{
    for part in parts {
        if holds(part, point) {
            return true;
        }
    }
    false
}

/// The first of the literals that is false at the point.
pub(crate) fn first_literal(left_out: &[LeftOut], point: &[i64]) -> Option<usize>
    ensures within { IfSome result (λ at. at < length left_out.now) }
    ensures broken { IfSome result (λ at. option_map (λ one. lit_truth point.now one.lit) (slice_get left_out.now at) ≡ Some false) }
    ensures before { IfSome result (λ at. list_all (lit_truth point.now) (left_lits (take at left_out.now)) ≡ true) }
    ensures none { IsNone result → list_all (lit_truth point.now) (left_lits left_out.now) ≡ true }
{
    for (at, one) in left_out.iter().enumerate() {
        if !one.lit.get().holds(point) {
            return Some(at);
        }
    }
    None
}

/// The first of the disjunctions that is false at the point.
pub(crate) fn first_disjunction(cases: &[Lent<Items<Form>>], point: &[i64]) -> Option<usize>
    ensures within { IfSome result (λ at. at < length cases.now) }
    ensures broken { IfSome result (λ at. option_map (list_any (truth point.now)) (slice_get cases.now at) ≡ Some false) }
    ensures before { IfSome result (λ at. list_all (list_any (truth point.now)) (take at cases.now) ≡ true) }
    ensures none { IsNone result → list_all (list_any (truth point.now)) cases.now ≡ true }
{
    for (at, parts) in cases.iter().enumerate() {
        if !any_holds(parts.get().as_slice(), point) {
            return Some(at);
        }
    }
    None
}

/// The disjunction at `at`, where it has fewer parts than the one at `known` and is false at the point,
/// too; and otherwise the one at `known`.
fn fewer(cases: &[Lent<Items<Form>>], point: &[i64], known: usize, at: usize) -> usize
    requires known { known < at }
    requires there { at < length cases.now }
    requires fewest { IsFewest point.now cases.now at known }
    ensures within { result < at + 1 }
    ensures fewest { IsFewest point.now cases.now (at + 1) result }
{
    if cases[at].get().len() >= cases[known].get().len() {
        return known;
    }
    if any_holds(cases[at].get().as_slice(), point) {
        return known;
    }
    at
}

/// Of the disjunctions that are false at the point the first of those with the fewest parts, where
/// `known` is the first one that is false there.
pub(crate) fn fewest_parts(cases: &[Lent<Items<Form>>], point: &[i64], known: usize) -> usize
    requires within { known < length cases.now }
    requires broken { option_map (list_any (truth point.now)) (slice_get cases.now known) ≡ Some false }
    requires before { list_all (list_any (truth point.now)) (take known cases.now) ≡ true }
    ensures within { result < length cases.now }
    ensures broken { option_map (list_any (truth point.now)) (slice_get cases.now result) ≡ Some false }
    ensures fewest { IsFewest point.now cases.now (length cases.now) result }
{
    let mut found = known;
    'fewest: for at in known + 1..cases.len() {
        found = fewer(cases, point, found, at);
    }
    found
}
