//! Chains of ten thousand nodes.

use base::{Boxed, Items};
use farkas_proof::{check, check_owned};
use lin_atoms::{Form, Lin};
use refutation_trees::Refutation;
use std::alloc::Global;
use std::process::Abort;

const LONG: u32 = 10_000;

#[derive(Clone, Copy)]
enum Kind {
    Round,
    Below,
    Above,
}

/// A leaf for a form that is false.
fn leaf(rt: &impl Abort, alloc: Global) -> Refutation {
    Refutation::Leaf {
        multipliers: Items::from_slice(alloc, &[(0, 1)]).expect(rt, "memory"),
    }
}

fn split(rt: &impl Abort, alloc: Global, below: Refutation, above: Refutation) -> Refutation {
    Refutation::Split {
        lin: Lin::of_constant(alloc, 0),
        below: Boxed::new(alloc, below).expect(rt, "memory"),
        above: Boxed::new(alloc, above).expect(rt, "memory"),
    }
}

/// A node over a chain.
fn on(rt: &impl Abort, alloc: Global, kind: Kind, tree: Refutation) -> Refutation {
    match kind {
        Kind::Round => Refutation::Round {
            multipliers: Items::from_slice(alloc, &[(0, 1)]).expect(rt, "memory"),
            divisor: 1,
            sub: Boxed::new(alloc, tree).expect(rt, "memory"),
        },
        Kind::Below => split(rt, alloc, tree, leaf(rt, alloc)),
        Kind::Above => split(rt, alloc, leaf(rt, alloc), tree),
    }
}

fn chain(rt: &impl Abort, alloc: Global, kind: Kind) -> Refutation {
    let mut tree = leaf(rt, alloc);
    for _node in 0..LONG {
        tree = on(rt, alloc, kind, tree);
    }
    tree
}

#[test]
fn long_chains_are_checked_and_copied_and_dropped(rt: HostRuntime) {
    for kind in [Kind::Round, Kind::Below, Kind::Above] {
        let tree = chain(&rt, rt.alloc(), kind);
        let copied = tree.copy(rt.alloc()).expect(&rt, "memory");
        assert!(rt; check(rt.alloc(), &Form::False, &copied).is_ok());
        assert!(rt; check_owned(rt.alloc(), Form::False, tree).is_ok());
    }
}
