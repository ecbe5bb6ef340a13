//! The program `chc`: its words, standard input and standard output, handed to the top call.
#![tactic(auto)]

mod stack;

use crate::stack::take_stack;
use chc_cli::{chc_main, exit_number};
use outside_io::{StdSink, StdSource};
use std::env::{self, Args};
use std::process::ExitCode;
use std::{io, mem};

/// The program's words, once the stack has room for the deepest text.
fn words(rt: &HostRuntime) -> io::Result<Args> {
    take_stack(rt.alloc())?;
    env::args(rt)
}

fn main(rt: HostRuntime) -> ExitCode {
    let mut source = StdSource::new(rt.stdin());
    let mut sink = StdSink::new(rt.stdout());
    let report = chc_main(&rt, rt.alloc(), words(&rt), &mut source, &mut sink);
    let number = exit_number(&report);
    // The process ends here and gives its memory back as a whole: letting the clauses and the book go
    // part by part would only take time.
    mem::forget(report);
    ExitCode::from(number)
}
