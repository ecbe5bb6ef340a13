//! Evidence of giving up that was worked out by hand.

ghost use Rattle.std.specs.Prelude.{◌≡◌, ◌∷◌, []};
ghost use Rattle.lin_atoms.specs.declared.lit.Lit.TheVariants.{Eq};
ghost use Rattle.farkas_proof.specs.Instances.{both, large_on_first, large_on_second};

use crate::made::lin;
use base::{Items, Same};
use lin_atoms::{Form, Lit};
use refutation_trees::{Evidence, GaveUp};
use std::alloc::Global;
use std::mem;
use std::process::Abort;

/// 2^124 + 2^63, the square of 2^62 + 1 less 1.
const WIDE: i128 = 21_267_647_932_558_653_975_684_285_001_340_289_024;

/// The form is 0.
fn equal(rt: &impl Abort, alloc: Global, terms: &[(u32, i64)], constant: i128) -> Lit
    ensures { result ≡ Eq (record { terms = terms.now; constant = constant }) }
{
    Lit::Eq(lin(rt, alloc, terms, constant))
}

fn conjunction(rt: &impl Abort, alloc: Global, first: Lit, second: Lit) -> Form
    ensures { result ≡ both first second }
{
    let mut parts = Items::new(alloc);
    parts.push(Form::Lit(first)).expect(rt, "memory");
    parts.push(Form::Lit(second)).expect(rt, "memory");
    Form::And(parts)
}

fn pair(rt: &impl Abort, alloc: Global, first: Lit, second: Lit) -> Items<Lit>
    ensures { result ≡ first ∷ second ∷ [] }
{
    let mut lits = Items::new(alloc);
    lits.push(first).expect(rt, "memory");
    lits.push(second).expect(rt, "memory");
    lits
}

fn first_two(rt: &impl Abort, alloc: Global) -> Items<u32>
    ensures { result ≡ 0 ∷ 1 ∷ [] }
{
    Items::from_slice(alloc, &[0, 1]).expect(rt, "memory")
}

/// a*x + y = 3, where a is 2^62 + 1.
fn on_first(rt: &impl Abort, alloc: Global) -> Lit
    ensures { result ≡ large_on_first }
{
    equal(rt, alloc, &[(0, 4_611_686_018_427_387_905), (1, 1)], -3)
}

/// x + a*y = 5.
fn on_second(rt: &impl Abort, alloc: Global) -> Lit
    ensures { result ≡ large_on_second }
{
    equal(rt, alloc, &[(0, 1), (1, 4_611_686_018_427_387_905)], -5)
}

/// In the basis of x and y the row of x has the entry a*a - 1.
fn crossing(rt: &impl Abort, alloc: Global) -> GaveUp {
    let first = on_first(rt, alloc);
    let second = on_second(rt, alloc);
    let form = conjunction(rt, alloc, first, second);
    let first = on_first(rt, alloc);
    let second = on_second(rt, alloc);
    let lits = pair(rt, alloc, first, second);
    let basis = first_two(rt, alloc);
    let evidence = Evidence::Row {
        lits,
        basis,
        entry: WIDE,
    };
    GaveUp::keep(form, evidence)
}

/// y = 2*x and y = 1: x is a half, so a split tree has an inner node.
fn half(rt: &impl Abort, alloc: Global) -> GaveUp {
    let double = equal(rt, alloc, &[(0, -2), (1, 1)], 0);
    let one = equal(rt, alloc, &[(1, 1)], -1);
    let form = conjunction(rt, alloc, double, one);
    GaveUp::keep(form, Evidence::Nodes { nodes: 1 })
}

/// Whether both are the same entry of a row, or the same number of splits.
fn are_equal(one: &Evidence, other: &Evidence) -> bool {
    match (one, other) {
        (
            Evidence::Row {
                lits: k,
                basis: a,
                entry: x,
            },
            Evidence::Row {
                lits: l,
                basis: b,
                entry: y,
            },
        ) => k.equals(l) && a.equals(b) && x == y,
        (Evidence::Nodes { nodes: m }, Evidence::Nodes { nodes: n }) => m == n,
        _ => false,
    }
}

/// Whether a copy has the same form and evidence.
fn has_equal_copy(rt: &impl Abort, alloc: Global, kept: &GaveUp) -> bool {
    let copied = kept.copy(alloc).expect(rt, "memory");
    let is_equal = copied.form().equals(kept.form())
        && are_equal(copied.evidence(), kept.evidence());
    mem::forget(copied);
    is_equal
}

fn entry_of(evidence: &Evidence) -> Option<i128> {
    match evidence {
        Evidence::Row { entry, .. } => Some(*entry),
        _ => None,
    }
}

fn nodes_of(evidence: &Evidence) -> Option<u32> {
    match evidence {
        Evidence::Nodes { nodes } => Some(*nodes),
        _ => None,
    }
}

#[test]
fn wide_row_is_kept(rt: HostRuntime) {
    let kept = crossing(&rt, rt.alloc());
    assert!(rt; has_equal_copy(&rt, rt.alloc(), &kept));
    assert!(rt; entry_of(kept.evidence()) == Some(WIDE));
    mem::forget(kept);
}

#[test]
fn split_at_a_half_is_kept(rt: HostRuntime) {
    let kept = half(&rt, rt.alloc());
    assert!(rt; has_equal_copy(&rt, rt.alloc(), &kept));
    assert!(rt; nodes_of(kept.evidence()) == Some(1));
    mem::forget(kept);
}

#[test]
fn kinds_of_evidence_differ(rt: HostRuntime) {
    let row = crossing(&rt, rt.alloc());
    let split = half(&rt, rt.alloc());
    let same = are_equal(row.evidence(), split.evidence());
    assert!(rt; !same);
    mem::forget(row);
    mem::forget(split);
}
