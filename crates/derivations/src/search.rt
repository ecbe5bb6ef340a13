ghost use Rattle.std.specs.Prelude.{◌≡◌, ◌≢◌, ◌↔◌, ◌<◌, ◌≤◌, ℕ, length, map, true, false};
ghost use Rattle.std.specs.List.{All, AllPairs, Contains};
ghost use Rattle.std.specs.Ordering.{int_cmp};
ghost use Rattle.std.specs.Cmp.Lexicographic.{slice_cmp};
ghost use Rattle.std.specs.declared.cmp.Ordering.TheVariants.{Less};
ghost use Rattle.derivations.specs.Facts.{tuple_of};
ghost use Rattle.derivations.specs.machinery.Index.{Begins, IsBelow, IsRank, IsRun, key_of};

use crate::notes::Notes;
use std::cmp::Ordering;

/// The key of a tuple: no tuple that stands before it has a greater one.
pub(crate) fn key_of(tuple: &[i64]) -> i64
    ensures { result ≡ key_of tuple.now }
{
    if tuple.is_empty() {
        return i64::MIN;
    }
    tuple[0]
}

/// Whether a fact's tuple stands before a tuple. The keys tell it, and where they are the same the
/// first value that differs.
fn is_below(notes: &Notes, id: u32, own: i64, tuple: &[i64], key: i64) -> bool
    requires there { id < length notes.now }
    requires own { own ≡ key_of (tuple_of notes.now id) }
    requires key { key ≡ key_of tuple.now }
    ensures before { result ≡ true → slice_cmp int_cmp (tuple_of notes.now id) tuple.now ≡ Less }
    ensures behind { result ≡ false → slice_cmp int_cmp (tuple_of notes.now id) tuple.now ≢ Less }
{
    if own < key {
        return true;
    }
    if key < own {
        return false;
    }
    notes.tuple(id).cmp(tuple) == Ordering::Less
}

/// How many of a row in order of tuple stand before a tuple, by halving.
pub(crate) fn rank(notes: &Notes, row: &[u32], keys: &[i64], tuple: &[i64]) -> usize
    requires order { AllPairs (IsBelow (tuple_of notes.now)) row.now }
    requires there { All (λ n. n < length notes.now) row.now }
    requires keyed { keys.now ≡ map (λ n. key_of (tuple_of notes.now n)) row.now }
    ensures { IsRank (tuple_of notes.now) row.now tuple.now result }
{
    let key = key_of(tuple);
    let mut low = 0;
    let mut high = row.len();
    while low < high {
        let middle = low + (high - low) / 2;
        if is_below(notes, row[middle], keys[middle], tuple, key) {
            low = middle + 1;
        } else {
            high = middle;
        }
    }
    low
}

/// Whether a fact's tuple begins with these values.
fn begins(notes: &Notes, id: u32, front: &[i64]) -> bool
    requires { id < length notes.now }
    ensures yes { result ≡ true → Begins front.now (tuple_of notes.now id) }
    ensures no { result ≡ false → Begins front.now (tuple_of notes.now id) → ⊥ }
{
    notes.tuple(id).starts_with(front)
}

/// The first place, from one on, whose tuple doesn't begin with these values.
fn behind(notes: &Notes, row: &[u32], front: &[i64], low: usize) -> usize
    requires there { All (λ n. n < length notes.now) row.now }
    requires within { low ≤ length row.now }
    ensures { IsRun (tuple_of notes.now) row.now front.now low result }
{
    let mut high = low;
    while high < row.len() {
        if !begins(notes, row[high], front) {
            return high;
        }
        high += 1;
    }
    high
}

/// The numbers in a row whose tuples begin with these values. They stand side by side.
pub(crate) fn begun<'a>(notes: &Notes, row: &'a [u32], keys: &[i64], front: &[i64]) -> &'a [u32]
    requires order { AllPairs (IsBelow (tuple_of notes.now)) row.now }
    requires there { All (λ n. n < length notes.now) row.now }
    requires keyed { keys.now ≡ map (λ n. key_of (tuple_of notes.now n)) row.now }
    ensures order { AllPairs (IsBelow (tuple_of notes.now)) result.now }
    ensures exact { (n : ℕ) → Contains result.now n ↔ (Contains row.now n × Begins front.now (tuple_of notes.now n)) }
{
    let low = rank(notes, row, keys, front);
    let high = behind(notes, row, front, low);
    &row[low..high]
}
