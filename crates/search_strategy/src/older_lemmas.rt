//! The lemmas that a book has, beside one that is learnt.

ghost use Rattle.std.specs.Prelude.{◌≡◌, ◌≤◌, ◌<◌, ◌↔◌, ℕ, length, IfOk, IfSome, IsSomeAnd, IsTrue};
ghost use Rattle.clause_form.specs.System.{Clauses};
ghost use Rattle.lemma_frames.specs.Frames.{level_of};
ghost use Rattle.search_strategy.specs.Older.{Excludes, IsBest, IsLower, IsOlder, better_of};
ghost use Rattle.search_strategy.specs.machinery.Steps.{AreFor, IsOffered};

use base::{Copied, Memory, Same};
use lemma_frames::Frames;
use std::alloc::Global;
use step_rules::{LemmaPart, LiftPart, Step};

/// Whether the lemma of that number is of the part's predicate, and of a lower level.
fn is_lower(frames: &Frames, part: &LemmaPart, id: u32) -> bool
    requires { id < length frames.now.lemmas }
    ensures { IsTrue result ↔ IsLower frames.now.lemmas part.now id }
{
    frames.pred_of(id) == part.pred && frames.level_of(id) < part.level
}

/// Whether it is such a lemma and excludes the tuple.
fn is_excluding(frames: &Frames, part: &LemmaPart, tuple: &[i64], id: u32) -> bool
    requires { id < length frames.now.lemmas }
    ensures { IsTrue result ↔ Excludes frames.now.lemmas part.now tuple.now id }
{
    is_lower(frames, part, id) && frames.lemma(id).excludes(tuple)
}

/// Whether it is such a lemma and has the part's cube.
fn is_older(frames: &Frames, part: &LemmaPart, id: u32) -> bool
    requires { id < length frames.now.lemmas }
    ensures { IsTrue result ↔ IsOlder frames.now.lemmas part.now id (level_of frames.now.lemmas id) }
{
    frames.pred_of(id) == part.pred
        && frames.level_of(id) < part.level
        && frames.lemma(id).equals(&part.lemma)
}

/// The best of those so far and a later one: of the higher level, of two of one level the later.
fn better(frames: &Frames, best: Option<u32>, id: u32) -> u32
    requires best { IfSome best (λ n. n < length frames.now.lemmas) }
    requires there { id < length frames.now.lemmas }
    ensures there { result < length frames.now.lemmas }
    ensures is { result ≡ better_of frames.now.lemmas best id }
{
    match best {
        None => id,
        Some(first) => {
            if frames.level_of(id) < frames.level_of(first) {
                first
            } else {
                id
            }
        }
    }
}

/// Of the lemmas of the part's predicate and of a lower level that exclude the tuple, the newest of the
/// highest level.
pub fn excluding(frames: &Frames, part: &LemmaPart, tuple: &[i64]) -> Option<u32>
    ensures there { IfSome result (λ n. n < length frames.now.lemmas) }
    ensures best { IsBest frames.now.lemmas (Excludes frames.now.lemmas part.now tuple.now) (length frames.now.lemmas) result }
{
    let mut best = None;
    for id in 0..frames.count() {
        if is_excluding(frames, part, tuple, id) {
            best = Some(better(frames, best, id));
        }
    }
    best
}

/// Of the lemmas of the part's predicate and of a lower level that have its cube, the last, to be lifted
/// in place of a copy: its number and its level.
pub fn older(frames: &Frames, part: &LemmaPart) -> Option<(u32, u32)>
    ensures older { IfSome result (λ found. IsOlder frames.now.lemmas part.now found.0 found.1) }
    ensures last { (id level : ℕ) → IsOlder frames.now.lemmas part.now id level → IsSomeAnd result (λ found. id ≤ found.0) }
{
    let mut best = None;
    for id in 0..frames.count() {
        if is_older(frames, part, id) {
            best = Some((id, frames.level_of(id)));
        }
    }
    best
}

/// The Lift of the lemma of that number from this level to the next, with the part's proofs. They prove
/// it where the lemma has the part's cube and is of a lower level: what they use is in the frame below
/// the part's level, and so in each lower frame, or is the lemma itself, which is in the frame of its level.
pub fn lift_by(alloc: Global, part: &LemmaPart, id: u32, from: u32) -> Result<Step, Memory>
    ensures { (sys : Clauses) (nodes : ℕ) → AreFor sys part.now.proofs → IfOk result (IsOffered sys nodes) }
{
    let proofs = part.proofs.copy(alloc)?;
    Ok(Step::LiftStep(LiftPart {
        lemma: id,
        from,
        proofs,
    }))
}
