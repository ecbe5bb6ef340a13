//! Hands each example script, and each case of the tables beside them, to the top call, and prints what is
//! written and the status.
#![tactic(auto)]

use chc_cli::{chc_run, exit_number};
use outside_io::{MemSource, Sink, Source, StdSink, StdSource};
use std::alloc::Global;
use std::sync::Wait;
use std::thread::Threads;
use std::{fs, io};
use worker_pool::FreeGate;

/// Each script with the options that its run is given.
const SCRIPTS: [(&str, &str); 13] = [
    ("counter.smt2", ""),
    ("pump.smt2", ""),
    ("facts.smt2", ""),
    ("two_machines.smt2", ""),
    ("query.smt2", ""),
    ("query.smt2", "--units 1"),
    ("bounded.smt2", ""),
    ("halves.smt2", ""),
    ("saturating.smt2", ""),
    ("two_heads.smt2", ""),
    ("too_wide.smt2", ""),
    ("wrong_sort.smt2", ""),
    ("no_check.smt2", ""),
];

/// Tables of calls. A case begins with a line of `# ` and what it shows; then come a line with its words, and
/// what it reads.
const TABLES: [&str; 10] = [
    "cases/words.txt",
    "cases/bytes.txt",
    "cases/commands.txt",
    "cases/names.txt",
    "cases/terms.txt",
    "cases/clauses.txt",
    "cases/answers.txt",
    "cases/queries.txt",
    "cases/printed.txt",
    "cases/checks.txt",
];

/// The words of a line.
fn words_of(alloc: Global, line: &str) -> io::Result<Vec<String>> {
    let mut words = Vec::new(alloc);
    for word in line.split(' ') {
        if !word.is_empty() {
            words.push(String::from_str(alloc, word)?)?;
        }
    }
    Ok(words)
}

/// Carries out the words of a line over what the source gives, and prints the status behind what is written.
fn carry_out<W: Threads + Wait + Print + Sync, S: Source, K: Sink>(
    rt: &W,
    alloc: Global,
    line: &str,
    source: &mut S,
    sink: &mut K,
) -> io::Result<()> {
    let words = words_of(alloc, line)?;
    let report = chc_run(rt, alloc, words.as_slice(), source, sink, &FreeGate);
    println!(rt; "status {}", exit_number(&report))
}

/// What a case shows, its words, and what it reads.
fn parts_of(case: &str) -> Option<(&str, &str, &str)> {
    let (shows, rest) = case.split_once('\n')?;
    let (words, input) = rest.split_once('\n')?;
    Some((shows, words, input))
}

/// Runs the cases of a table. What stands before the first one says what they show, and the last one ends
/// before the table's last line feed.
fn run_cases<W: Threads + Wait + Print + Sync, K: Sink>(
    rt: &W,
    alloc: Global,
    table: &str,
    sink: &mut K,
) -> io::Result<()> {
    let cases = table.strip_suffix('\n').unwrap_or(table);
    for case in cases.split("\n# ").skip(1) {
        if let Some((shows, words, input)) = parts_of(case) {
            println!(rt; "# {shows}")?;
            let bytes = Vec::from_slice(alloc, input.as_bytes())?;
            let mut source = MemSource::new(bytes, 7, Vec::new(alloc));
            carry_out(rt, alloc, words, &mut source, sink)?;
        }
    }
    Ok(())
}

fn main(rt: HostRuntime) -> io::Result<()> {
    let mut sink = StdSink::new(rt.stdout());
    for (script, options) in SCRIPTS {
        let space = if options.is_empty() { "" } else { " " };
        println!(rt; "$ ./chc solve{space}{options} < examples/{script}")?;
        let words = format!(in rt.alloc(); "solve {options}")?;
        let mut source = StdSource::new(fs::open(&rt, script)?);
        carry_out(&rt, rt.alloc(), words.as_str(), &mut source, &mut sink)?;
    }
    for table in TABLES {
        println!(rt; "{table}")?;
        let text = fs::read_to_string(&rt, table)?;
        run_cases(&rt, rt.alloc(), text.as_str(), &mut sink)?;
    }
    Ok(())
}
