//! A hundred thousand facts of ten predicates, and each of them found. A benchmark runs these tests one by
//! one.

use crate::facts::added;
use derivations::Facts;
use std::alloc::Global;
use std::process::Abort;

/// How many facts there are.
const FACTS: u32 = 100_000;

/// How many predicates they are of, in turn.
const PREDS: u32 = 10;

/// The value of a fact by its number: no two have the same, and they come in no order.
fn value_of(number: u32) -> i64 {
    i64::from(number).wrapping_mul(48_271) % 2_147_483_647
}

fn filled(rt: &impl Abort, alloc: Global) -> Facts {
    let mut facts = Facts::new(alloc).expect(rt, "memory");
    for number in 0..FACTS {
        let tuple = [value_of(number)];
        added(rt, alloc, &mut facts, number % PREDS, &tuple, &[]);
    }
    facts
}

/// Whether each fact is found by what it says.
fn are_found(facts: &Facts) -> bool {
    (0..FACTS).all(|number| facts.find(number % PREDS, &[value_of(number)]) == Some(number))
}

#[test]
fn a_hundred_thousand_facts(rt: HostRuntime) {
    let facts = filled(&rt, rt.alloc());
    assert!(rt; facts.count() == FACTS);
}

#[test]
fn a_hundred_thousand_facts_found(rt: HostRuntime) {
    let facts = filled(&rt, rt.alloc());
    for _ in 0..10 {
        assert!(rt; are_found(&facts));
    }
}
