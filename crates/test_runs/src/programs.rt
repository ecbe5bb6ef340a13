//! The whole program as `main` calls it: from the words that the system gives to the status.

use crate::runs::{SMALL, check_start, ends_of, owned, seen};
use chc_cli::chc_main;
use std::alloc::Global;
use std::env::Args;
use std::io::{self, ErrorKind};
use std::process::Abort;
use std::sync::Wait;
use std::thread::Threads;

/// Runs the program over a script without predicates, where the system gives these words, and asserts its
/// status and how its output begins.
fn check_main<W: Threads + Wait + Abort + Sync>(
    rt: &W,
    alloc: Global,
    args: io::Result<Args>,
    status: u8,
    start: &[u8],
) {
    let (mut source, mut sink) = ends_of(rt, alloc, b"(set-logic HORN)(check-sat)", &SMALL);
    let report = chc_main(rt, alloc, args, &mut source, &mut sink);
    let ran = seen(rt, alloc, report, &sink);
    check_start(rt, "a call of the program", &ran, status, start);
    assert!(rt; ran.read.is_empty() == (status != 0), "what was read");
}

/// The words as the system gives them.
fn given(rt: &impl Abort, alloc: Global, words: &[&str]) -> io::Result<Args> {
    Ok(owned(rt, alloc, words).into_iter())
}

#[test]
fn all_words_behind_the_name_are_taken(rt: HostRuntime) {
    for (words, status, start) in [
        (["chc", "solve"].as_slice(), 0, b"sat\n".as_slice()),
        (&["chc", "solve", "more"], 2, b"usage: "),
        (&["solve"], 2, b"usage: "),
        (&[], 2, b"usage: "),
    ] {
        let args = given(&rt, rt.alloc(), words);
        check_main(&rt, rt.alloc(), args, status, start);
    }
}

#[test]
fn words_that_are_no_text_are_usage_and_words_without_room_are_not(rt: HostRuntime) {
    let no_text = Err(ErrorKind::InvalidData.into());
    check_main(&rt, rt.alloc(), no_text, 2, b"usage: ");
    let no_room = Err(ErrorKind::OutOfMemory.into());
    check_main(&rt, rt.alloc(), no_room, 5, b"(error \"out of memory\")\n");
}
