//! Whole runs of the program's top call, and what is seen of them.
//!
//! A report isn't let go, as `main` doesn't let go its own: to let its book go part by part would be proved
//! anew in each function that holds one.

use chc_cli::{Report, chc_run, exit_number};
use outside_io::{MemSink, MemSource};
use std::alloc::Global;
use std::mem;
use std::process::Abort;
use std::sync::Wait;
use std::thread::Threads;
use worker_pool::FreeGate;

/// How the ends of a run behave: how many bytes they move in a turn, and which of their turns fail.
#[derive(Clone, Copy)]
pub struct Ends {
    pub source_step: usize,
    pub source_fails: Option<u64>,
    pub sink_step: usize,
    pub sink_fails: Option<u64>,
}

/// Ends that never fail, and move a few bytes in a turn.
pub const SMALL: Ends = Ends {
    source_step: 7,
    source_fails: None,
    sink_step: 5,
    sink_fails: None,
};

/// What came of a run: what its report tells, and what the sink holds.
#[derive(Drop)]
pub struct Ran {
    pub status: u8,
    pub read: Vec<u8>,
    pub is_refused: bool,
    /// How many entries the book has, where there is one.
    pub entries: Option<u64>,
    pub counts: Vec<u64>,
    pub held: Vec<u8>,
}

/// The words, each as a text of its own.
pub fn owned(rt: &impl Abort, alloc: Global, words: &[&str]) -> Vec<String> {
    let mut all = Vec::new(alloc);
    for word in words {
        let word = String::from_str(alloc, word).expect(rt, "memory");
        all.push(word).expect(rt, "memory");
    }
    all
}

fn named(rt: &impl Abort, alloc: Global, turn: Option<u64>) -> Vec<u64> {
    match turn {
        Some(turn) => Vec::from_array(alloc, [turn]).expect(rt, "memory"),
        None => Vec::new(alloc),
    }
}

/// A source of the input and a sink with room, which behave so.
pub fn ends_of(rt: &impl Abort, alloc: Global, input: &[u8], ends: &Ends) -> (MemSource, MemSink) {
    let bytes = Vec::from_slice(alloc, input).expect(rt, "memory");
    let fails = named(rt, alloc, ends.source_fails);
    let source = MemSource::new(bytes, ends.source_step.max(1), fails);
    let fails = named(rt, alloc, ends.sink_fails);
    let sink = MemSink::new(alloc, 1 << 20, ends.sink_step.max(1), fails);
    (source, sink.expect(rt, "memory"))
}

/// What is seen of a report and a sink.
pub fn seen(rt: &impl Abort, alloc: Global, report: Report, sink: &MemSink) -> Ran {
    let entries = match &report.book {
        Some(book) => Some(book.length()),
        None => None,
    };
    let ran = Ran {
        status: exit_number(&report),
        read: Vec::from_slice(alloc, report.read.as_slice()).expect(rt, "memory"),
        is_refused: report.refusal.is_some(),
        entries,
        counts: Vec::from_slice(alloc, report.counts.as_slice()).expect(rt, "memory"),
        held: Vec::from_slice(alloc, sink.held()).expect(rt, "memory"),
    };
    mem::forget(report);
    ran
}

/// Runs the words over the input, with ends that behave so.
pub fn run<W: Threads + Wait + Abort + Sync>(
    rt: &W,
    alloc: Global,
    words: &[&str],
    input: &[u8],
    ends: &Ends,
) -> Ran {
    let words = owned(rt, alloc, words);
    let (mut source, mut sink) = ends_of(rt, alloc, input, ends);
    let report = chc_run(
        rt,
        alloc,
        words.as_slice(),
        &mut source,
        &mut sink,
        &FreeGate,
    );
    seen(rt, alloc, report, &sink)
}

/// Asserts the status of a run, and its output.
pub fn check_ran(rt: &impl Abort, shows: &str, ran: &Ran, status: u8, output: &[u8]) {
    assert!(rt; ran.status == status, "status of {shows}");
    assert!(rt; ran.held.as_slice() == output, "output of {shows}");
}

/// Asserts the status of a run, and how its output begins.
pub fn check_start(rt: &impl Abort, shows: &str, ran: &Ran, status: u8, start: &[u8]) {
    assert!(rt; ran.status == status, "status of {shows}");
    assert!(rt; ran.held.as_slice().starts_with(start), "output of {shows}");
}

/// Asserts that each worker has a count, and that they sum to the length of the book's journal.
pub fn check_counts(rt: &impl Abort, ran: &Ran, workers: usize) {
    let mut sum: u64 = 0;
    for count in ran.counts.as_slice() {
        sum = sum.saturating_add(*count);
    }
    assert!(rt; ran.counts.len() == workers, "a count of each worker");
    assert!(rt; ran.entries == Some(sum), "the sum of the counts");
}
