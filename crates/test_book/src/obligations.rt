//! Small trees that were closed by hand. Most aren't let go in the end, since that costs a proof.

use crate::lits::{not, only};
use cube_forms::Tuple;
use obligation_tree::{Cause, Obligation, Tree};
use std::alloc::Global;
use std::mem;
use std::process::Abort;

/// What is done to a tree.
#[derive(Clone, Copy)]
enum Step {
    /// An obligation comes: its parent, its predicate, its level and the one value of its cube.
    Ask(u32, u32, u32, i64),
    /// A lemma excludes one value: its predicate, its level and the value.
    Deny(u32, u32, i64),
    /// A fact: its predicate and its value.
    Find(u32, i64),
    /// The fact false.
    End,
    /// A raise, with the root's new level.
    Raise(u32),
}

/// Adds an obligation, if its parent is live.
fn ask(
    rt: &impl Abort,
    alloc: Global,
    tree: &mut Tree,
    parent: u32,
    pred: u32,
    level: u32,
    value: i64,
) {
    let obligation = Obligation {
        pred: Some(pred),
        level,
        cube: only(rt, alloc, value),
        point: Tuple::from_slice(alloc, &[value]).expect(rt, "memory"),
        parent,
        clause: 0,
        atom: 0,
    };
    let count = tree.count();
    if parent < count && count < 1000 && tree.is_live(parent) {
        tree.add(obligation).expect(rt, "memory");
    }
}

fn close(rt: &impl Abort, tree: &mut Tree, cause: Cause, entry: u64) {
    tree.close_by(cause, entry).expect(rt, "memory");
}

/// Closes by the lemma that excludes one value.
fn deny(
    rt: &impl Abort,
    alloc: Global,
    tree: &mut Tree,
    pred: u32,
    level: u32,
    value: i64,
    entry: u64,
) {
    let lemma = not(rt, alloc, value);
    let cause = Cause::Lemma {
        pred,
        level,
        lemma: &lemma,
    };
    close(rt, tree, cause, entry);
    mem::forget(lemma);
}

/// Closes by a fact.
fn find(rt: &impl Abort, tree: &mut Tree, pred: Option<u32>, tuple: &[i64], entry: u64) {
    close(rt, tree, Cause::Fact { pred, tuple }, entry);
}

fn take(rt: &impl Abort, alloc: Global, tree: &mut Tree, step: Step, entry: u64) {
    match step {
        Step::Ask(parent, pred, level, value) => ask(rt, alloc, tree, parent, pred, level, value),
        Step::Deny(pred, level, value) => deny(rt, alloc, tree, pred, level, value, entry),
        Step::Find(pred, value) => find(rt, tree, Some(pred), &[value], entry),
        Step::End => find(rt, tree, None, &[], entry),
        Step::Raise(level) => close(rt, tree, Cause::Raise { level }, entry),
    }
}

/// Takes the steps with the entries 1, 2, ..
fn take_all(rt: &impl Abort, alloc: Global, tree: &mut Tree, steps: &[Step]) {
    let mut entry: u64 = 0;
    for step in steps {
        entry = entry.saturating_add(1);
        take(rt, alloc, tree, *step, entry);
    }
}

/// Which entry closed each obligation; 0 stands for none.
fn entries(rt: &impl Abort, alloc: Global, tree: &Tree) -> Vec<u64> {
    let mut all = Vec::new(alloc);
    for id in 0..tree.count() {
        all.push(tree.closed_by(id).unwrap_or(0))
            .expect(rt, "memory");
    }
    all
}

fn has_entries(rt: &impl Abort, alloc: Global, tree: &Tree, closed: &[u64]) -> bool {
    entries(rt, alloc, tree).as_slice() == closed
}

fn has_leaves(rt: &impl Abort, tree: &Tree, leaves: &[u32]) -> bool {
    let listed = tree.leaves().expect(rt, "memory");
    listed.as_slice() == leaves && tree.live_leaves() == leaves
}

/// Whether this is the root's level, and a live child is told of the root where it isn't the one
/// leaf.
fn has_root(tree: &Tree, level: u32) -> bool {
    tree.tree_law();
    tree.obligation(0).level == level && tree.has_live_child(0) == (tree.live().len() > 1)
}

/// Whether these are the entries, the leaves, and the root's level.
fn stands(
    rt: &impl Abort,
    alloc: Global,
    tree: &Tree,
    closed: &[u64],
    leaves: &[u32],
    level: u32,
) -> bool {
    has_entries(rt, alloc, tree, closed) && has_leaves(rt, tree, leaves) && has_root(tree, level)
}

#[test]
fn the_lists_follow_a_short_run(rt: HostRuntime) {
    let mut tree = Tree::new(rt.alloc()).expect(&rt, "memory");
    let steps = [Step::Raise(2), Step::Ask(0, 0, 1, 3)];
    take_all(&rt, rt.alloc(), &mut tree, &steps);
    let before = tree.share().expect(&rt, "memory");
    take_all(&rt, rt.alloc(), &mut tree, &[Step::Deny(0, 1, 3)]);
    assert!(rt; stands(&rt, rt.alloc(), &tree, &[0, 1], &[0], 2));
    assert!(rt; stands(&rt, rt.alloc(), &before, &[0, 0], &[1], 2));
}

/// 1 and 5 hang under the root, 2 and 3 under 1, and 4 under 3.
const GROWN: [Step; 5] = [
    Step::Ask(0, 0, 3, 1),
    Step::Ask(1, 1, 2, 2),
    Step::Ask(1, 1, 2, 3),
    Step::Ask(3, 0, 1, 4),
    Step::Ask(0, 0, 3, 5),
];

/// The tree of `GROWN` after these steps.
fn grown(rt: &impl Abort, alloc: Global, steps: &[Step]) -> Tree {
    let mut tree = Tree::new(alloc).expect(rt, "memory");
    take_all(rt, alloc, &mut tree, &GROWN);
    take_all(rt, alloc, &mut tree, steps);
    tree
}

#[test]
fn what_hangs_under_a_closed_one_is_closed_with_it(rt: HostRuntime) {
    // another predicate has the value, and then a lower level
    let steps = [
        Step::Deny(0, 9, 3),
        Step::Deny(0, 2, 1),
        Step::Deny(1, 2, 3),
    ];
    let tree = grown(&rt, rt.alloc(), &steps);
    assert!(rt; stands(&rt, rt.alloc(), &tree, &[0, 0, 0, 3, 3, 0], &[2, 5], 1));
    mem::forget(tree);
    let steps = [Step::Find(1, 2), Step::Raise(4), Step::End];
    let tree = grown(&rt, rt.alloc(), &steps);
    assert!(rt; stands(&rt, rt.alloc(), &tree, &[3, 2, 1, 2, 2, 2], &[], 4));
    mem::forget(tree);
}

/// Asks for an obligation for a worker, and adds what is told; obligation 9 stands for a release.
fn claim(rt: &impl Abort, tree: &mut Tree, told: &mut Vec<bool>, worker: u32, id: u32) {
    if worker == 0 || worker > 64 {
        return;
    }
    if id < tree.count() {
        told.push(tree.claim(id, worker)).expect(rt, "memory");
    } else {
        tree.release(worker);
    }
}

/// What the tree above tells of claims, each by its worker and obligation.
fn claims(rt: &impl Abort, alloc: Global, asked: &[(u32, u32)]) -> Vec<bool> {
    let mut tree = grown(rt, alloc, &[]);
    let mut told = Vec::new(alloc);
    for (worker, id) in asked {
        claim(rt, &mut tree, &mut told, *worker, *id);
    }
    mem::forget(tree);
    told
}

#[test]
fn a_worker_claims_what_no_other_holds(rt: HostRuntime) {
    let asked = [
        (1, 2),
        (64, 2),
        (1, 2),
        (1, 4),
        (64, 2),
        (2, 2),
        (64, 9),
        (2, 2),
        (64, 4),
    ];
    let told = claims(&rt, rt.alloc(), &asked);
    let wanted = [true, false, true, true, true, false, true, false];
    assert!(rt; told.as_slice() == wanted.as_slice());
}

/// Whether the one at this number alone is marked as stalled.
fn is_marked(tree: &Tree, at: u32) -> bool {
    for id in 0..tree.count() {
        if tree.is_stalled(id) != (id == at) {
            return false;
        }
    }
    at < tree.count()
}

#[test]
fn stalling_marks_one_obligation(rt: HostRuntime) {
    let mut tree = grown(&rt, rt.alloc(), &[]);
    assert!(rt; tree.count() > 4);
    tree.stall(4).expect(&rt, "memory");
    assert!(rt; is_marked(&tree, 4));
    mem::forget(tree);
}
