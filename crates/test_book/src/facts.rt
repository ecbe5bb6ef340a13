//! Facts worked out by hand. The tuple of a fact has one value, and that of false none. Most facts aren't let go
//! in the end, since that costs a proof.

ghost use Rattle.std.specs.Prelude.{◌≡◌, ◌<◌, length, true};
ghost use Rattle.std.specs.List.{All};

use base::Items;
use cube_forms::Tuple;
use derivations::{Fact, Facts};
use std::alloc::Global;
use std::mem;
use std::process::Abort;

/// Whether each is the number of a fact.
fn are_there(facts: &Facts, premises: &[u32]) -> bool
    ensures { result ≡ true → All (λ p. p < length facts.now) premises.now }
{
    for id in premises {
        if *id >= facts.count() {
            return false;
        }
    }
    true
}

/// Adds a fact that isn't there, and answers its number.
pub(crate) fn added(
    rt: &impl Abort,
    alloc: Global,
    facts: &mut Facts,
    pred: u32,
    tuple: &[i64],
    premises: &[u32],
) -> Option<u32> {
    if facts.count() >= 1_000_000 || !are_there(facts, premises) {
        return None;
    }
    match facts.find(pred, tuple) {
        Some(_) => None,
        None => {
            let fact = Fact {
                clause: 0,
                point: Items::new(alloc),
                premises: Items::from_slice(alloc, premises).expect(rt, "memory"),
                pred: Some(pred),
                tuple: Tuple::from_slice(alloc, tuple).expect(rt, "memory"),
            };
            Some(facts.add(fact).expect(rt, "memory"))
        }
    }
}

/// Facts 0 to 4: p(5), q(5) from 0, p(3), q(9) from 2 and 1, and p(-7) from 2.
fn made(rt: &impl Abort, alloc: Global) -> Facts {
    let mut facts = Facts::new(alloc).expect(rt, "memory");
    added(rt, alloc, &mut facts, 0, &[5], &[]);
    added(rt, alloc, &mut facts, 1, &[5], &[0]);
    added(rt, alloc, &mut facts, 0, &[3], &[]);
    added(rt, alloc, &mut facts, 1, &[9], &[2, 1]);
    added(rt, alloc, &mut facts, 0, &[-7], &[2]);
    facts
}

/// Whether the fact of that number has this height.
fn has_height(facts: &Facts, id: u32, height: u32) -> bool {
    id < facts.count() && facts.height(id) == height
}

/// Whether a fact rests on exactly these.
fn rests_on(rt: &impl Abort, facts: &Facts, id: u32, wanted: &[u32]) -> bool {
    if id >= facts.count() {
        return false;
    }
    facts.steps_to(id).expect(rt, "memory").as_slice() == wanted
}

/// Whether these are the facts of a predicate.
fn are_of(facts: &Facts, pred: u32, wanted: &[u32]) -> bool {
    facts.of(pred) == wanted
}

/// Whether a fact has this one value and these premises.
fn stands(facts: &Facts, id: u32, value: i64, premises: &[u32]) -> bool {
    if id >= facts.count() {
        return false;
    }
    let fact = facts.fact(id);
    fact.tuple.as_slice() == [value].as_slice() && fact.premises.as_slice() == premises
}

#[test]
fn a_tuple_is_found_with_its_predicate(rt: HostRuntime) {
    let facts = made(&rt, rt.alloc());
    for (pred, value, wanted) in [
        (0, 5, Some(0)),
        (1, 5, Some(1)),
        (0, 3, Some(2)),
        (1, 3, None),
        (1, 9, Some(3)),
        (0, -7, Some(4)),
        (0, 4, None),
        (2, 5, None),
    ] {
        assert!(rt; facts.find(pred, &[value]) == wanted, "{pred} {value}");
    }
    assert!(rt; facts.find(0, &[]).is_none());
    assert!(rt; are_of(&facts, 0, &[0, 2, 4]));
    assert!(rt; are_of(&facts, 1, &[1, 3]));
    assert!(rt; are_of(&facts, 7, &[]));
    mem::forget(facts);
}

#[test]
fn a_fact_rests_on_its_premises(rt: HostRuntime) {
    let facts = made(&rt, rt.alloc());
    for (id, wanted) in [(0, 1), (1, 2), (2, 1), (3, 3), (4, 2)] {
        assert!(rt; has_height(&facts, id, wanted), "{id}");
    }
    assert!(rt; rests_on(&rt, &facts, 3, &[0, 1, 2, 3]));
    assert!(rt; rests_on(&rt, &facts, 4, &[2, 4]));
    assert!(rt; rests_on(&rt, &facts, 2, &[2]));
    mem::forget(facts);
}

#[test]
fn a_version_keeps_what_it_had(rt: HostRuntime) {
    let mut facts = made(&rt, rt.alloc());
    let before = facts.share().expect(&rt, "memory");
    assert!(rt; added(&rt, rt.alloc(), &mut facts, 0, &[4], &[3]) == Some(5));
    assert!(rt; added(&rt, rt.alloc(), &mut facts, 0, &[4], &[]).is_none());
    assert!(rt; before.count() == 5);
    assert!(rt; are_of(&before, 0, &[0, 2, 4]));
    assert!(rt; before.find(0, &[4]).is_none());
    assert!(rt; stands(&before, 3, 9, &[2, 1]));
    assert!(rt; stands(&facts, 5, 4, &[3]));
    assert!(rt; facts.find(0, &[4]) == Some(5));
    mem::forget(before);
    mem::forget(facts);
}

/// The facts with false alone, from an instance without a body.
fn refuted(rt: &impl Abort, alloc: Global) -> Facts {
    let mut facts = Facts::new(alloc).expect(rt, "memory");
    let fact = Fact {
        clause: 0,
        point: Items::new(alloc),
        premises: Items::new(alloc),
        pred: None,
        tuple: Tuple::from_slice(alloc, &[]).expect(rt, "memory"),
    };
    facts.add(fact).expect(rt, "memory");
    facts
}

#[test]
fn false_is_of_no_predicate(rt: HostRuntime) {
    let facts = refuted(&rt, rt.alloc());
    assert!(rt; facts.find(0, &[]).is_none());
    assert!(rt; are_of(&facts, 0, &[]));
    assert!(rt; rests_on(&rt, &facts, 0, &[0]));
    mem::forget(facts);
}
