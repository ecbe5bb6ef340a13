//! The lemma of a book that is equal to one.

ghost use Rattle.std.specs.Prelude.{◌<◌, length, IfSome};

use base::Same;
use guess_bounds::Wanted;
use lemma_frames::Frames;

/// Whether the lemma of that number is equal to the one that is wanted.
fn is_wanted(frames: &Frames, wanted: &Wanted, id: u32) -> bool
    requires { id < length frames.now.lemmas }
{
    frames.pred_of(id) == wanted.pred && frames.lemma(id).equals(&wanted.lemma)
}

/// Of the one so far and another one that of the higher level; of two of one level the first.
fn higher(frames: &Frames, best: Option<u32>, id: u32) -> u32
    requires best { IfSome best (λ n. n < length frames.now.lemmas) }
    requires there { id < length frames.now.lemmas }
    ensures { result < length frames.now.lemmas }
{
    match best {
        None => id,
        Some(first) => {
            if frames.level_of(first) < frames.level_of(id) {
                id
            } else {
                first
            }
        }
    }
}

/// The best one so far, or the lemma of that number if it is equal and better.
fn better(frames: &Frames, best: Option<u32>, wanted: &Wanted, id: u32) -> Option<u32>
    requires best { IfSome best (λ n. n < length frames.now.lemmas) }
    requires there { id < length frames.now.lemmas }
    ensures { IfSome result (λ n. n < length frames.now.lemmas) }
{
    if is_wanted(frames, wanted, id) {
        Some(higher(frames, best, id))
    } else {
        best
    }
}

/// Of the book's lemmas that are equal to the one that is wanted, the first of the highest level.
pub(crate) fn find(frames: &Frames, wanted: &Wanted) -> Option<u32>
    ensures { IfSome result (λ n. n < length frames.now.lemmas) }
{
    let mut best = None;
    for id in 0..frames.count() {
        best = better(frames, best, wanted, id);
    }
    best
}
