//! Frames worked out by hand. Lemma n says that the one argument isn't n.

use crate::lits::not;
use lemma_frames::Frames;
use std::alloc::Global;
use std::mem;
use std::process::Abort;

/// Adds a lemma, and answers its number.
fn put(rt: &impl Abort, alloc: Global, frames: &mut Frames, pred: u32, level: u32) -> Option<u32> {
    let count = frames.count();
    if count >= 1000 || pred as usize >= frames.preds() {
        return None;
    }
    let lemma = not(rt, alloc, i64::from(count));
    Some(frames.add(pred, lemma, level).expect(rt, "memory"))
}

/// Frames of two predicates with these lemmas, each a predicate and a level.
fn made(rt: &impl Abort, alloc: Global, lemmas: &[(u32, u32)]) -> Frames {
    let mut frames = Frames::new(alloc, 2).expect(rt, "memory");
    for (pred, level) in lemmas {
        put(rt, alloc, &mut frames, *pred, *level);
    }
    frames
}

/// Raises a lemma.
fn raise(rt: &impl Abort, frames: &mut Frames, id: u32) {
    if id < frames.count() && frames.level_of(id) < u32::MAX {
        frames.lift(id).expect(rt, "memory");
    }
}

/// Whether `upper` lends these numbers.
pub(crate) fn lends(frames: &Frames, pred: u32, level: u32, wanted: &[u32]) -> bool {
    (pred as usize) < frames.preds() && level > 0 && frames.upper(pred, level) == wanted
}

/// Whether `at_level` answers these numbers.
fn lists(rt: &impl Abort, frames: &Frames, pred: u32, level: u32, wanted: &[u32]) -> bool {
    if pred as usize >= frames.preds() {
        return false;
    }
    frames.at_level(pred, level).expect(rt, "memory").as_slice() == wanted
}

/// Whether a lemma is there, has this predicate and level, and denies its own number alone.
fn stands(frames: &Frames, id: u32, pred: u32, level: u32) -> bool {
    if id >= frames.count() || frames.pred_of(id) != pred || frames.level_of(id) != level {
        return false;
    }
    let lemma = frames.lemma(id);
    lemma.excludes(&[id as i64]) && !lemma.excludes(&[id as i64 + 1])
}

#[test]
fn a_lemma_that_rises_comes_to_its_place(rt: HostRuntime) {
    let lemmas = [(0, 1), (0, 1), (1, 1), (0, 3), (0, 1)];
    let mut frames = made(&rt, rt.alloc(), &lemmas);
    assert!(rt; lends(&frames, 0, 1, &[3, 0, 1, 4]));
    for (id, wanted) in [
        (4, [3, 4, 0, 1]),
        (1, [3, 1, 4, 0]),
        (2, [3, 1, 4, 0]),
        (0, [3, 0, 1, 4]),
        (4, [3, 4, 0, 1]),
    ] {
        raise(&rt, &mut frames, id);
        assert!(rt; lends(&frames, 0, 1, &wanted), "{id}");
    }
    assert!(rt; lends(&frames, 0, 3, &[3, 4]));
    assert!(rt; lists(&rt, &frames, 0, 3, &[3, 4]));
    assert!(rt; lends(&frames, 1, 2, &[2]));
    mem::forget(frames);
}

#[test]
fn a_level_is_bare_where_no_lemma_has_exactly_it(rt: HostRuntime) {
    let frames = made(&rt, rt.alloc(), &[(1, 1), (0, 4)]);
    for (level, bare) in [
        (0, true),
        (1, false),
        (2, true),
        (3, true),
        (4, false),
        (5, true),
    ] {
        assert!(rt; frames.level_is_bare(level) == bare, "{level}");
    }
    mem::forget(frames);
}

#[test]
fn levels_go_up_to_the_greatest(rt: HostRuntime) {
    let mut frames = made(&rt, rt.alloc(), &[(0, u32::MAX - 2), (0, u32::MAX - 1)]);
    raise(&rt, &mut frames, 0);
    assert!(rt; lends(&frames, 0, u32::MAX - 1, &[0, 1]));
    assert!(rt; lends(&frames, 0, u32::MAX, &[]));
    mem::forget(frames);
}

#[test]
fn a_version_keeps_what_it_had(rt: HostRuntime) {
    let mut frames = made(&rt, rt.alloc(), &[(0, 1)]);
    let before = frames.share().expect(&rt, "memory");
    raise(&rt, &mut frames, 0);
    assert!(rt; put(&rt, rt.alloc(), &mut frames, 0, 1) == Some(1));
    assert!(rt; stands(&before, 0, 0, 1) && before.count() == 1);
    assert!(rt; lends(&before, 0, 1, &[0]));
    assert!(rt; stands(&frames, 0, 0, 2));
    assert!(rt; stands(&frames, 1, 0, 1));
}
