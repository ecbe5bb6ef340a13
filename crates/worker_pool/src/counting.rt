//! How many entries of a book each worker wrote.

ghost use Rattle.std.specs.Prelude.{◌≡◌, ◌≤◌, ◌<◌, ◌+◌, length, take};
ghost use Rattle.worker_pool.specs.Counts.{counts_of, entries_of};

use chc_core::Book;

/// 1 where the entry behind the first ones is the worker's, else 0.
fn one_of(book: &Book, before: u64, worker: u32) -> u64
    requires { before < length book.now.journal }
    ensures is { entries_of (take (before + 1) book.now.journal) worker ≡ entries_of (take before book.now.journal) worker + result }
    ensures few { result ≤ 1 }
{
    let _length = book.length();
    if book.entry(before + 1).worker == worker {
        1
    } else {
        0
    }
}

/// How many entries the worker wrote.
fn entries_of(book: &Book, worker: u32) -> u64
    ensures { result ≡ entries_of book.now.journal worker }
{
    let mut count = 0;
    for before in 0..book.length() {
        count += one_of(book, before, worker);
    }
    count
}

/// Writes how many entries each of the workers wrote, in their order.
pub(crate) fn write_counts(book: &Book, workers: u32, counts: &mut [u64])
    requires { length counts.old ≡ workers }
    ensures { counts.new ≡ counts_of workers book.now.journal }
{
    for before in 0..workers {
        counts[before as usize] = entries_of(book, before + 1);
    }
}
