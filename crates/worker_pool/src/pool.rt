//! A run: one worker or several over one book, until it has ended.

ghost use Rattle.std.specs.Prelude.{◌≡◌, ◌<◌, [], length, replicate, sum, true, vec_len, None, IfOk};
ghost use Rattle.book_rules.specs.Legal.{end};
ghost use Rattle.book_rules.specs.Walks.{AllOf};
ghost use Rattle.chc_core.specs.Views.{standing_of, state_of};
ghost use Rattle.clause_queries.specs.Answers.{AreFew};
ghost use Rattle.obligation_turn.specs.Turns.{IsThin};
ghost use Rattle.search_strategy.specs.Runs.{CanRun};
ghost use Rattle.shared_book.specs.Runs.{IsEntry};
ghost use Rattle.worker_pool.specs.Allowed.{AreAllowed};
ghost use Rattle.worker_pool.specs.Counts.{counts_of};

use crate::counting::write_counts;
use crate::gate::Gate;
use crate::limits::Limits;
use crate::working::work;
use base::Memory;
use book_loop::search;
use chc_core::{Book, End};
use clause_form::System;
use search_strategy::begin;
use shared_book::{Run, Share, SharedBook};
use std::alloc::Global;
use std::marker::Brand;
use std::sync::Wait;
use std::sync::atomic::{AtomicBool, Ordering};
use std::sync::ledger::Blank;
use std::thread;
use std::thread::Threads;

/// What a run leaves.
#[derive(Drop)]
pub struct Outcome {
    /// The book's end.
    pub end: Option<End>,
    /// Whether a worker wanted memory.
    pub memory: bool,
    /// The book that the workers left.
    pub book: Book,
    /// How many of its entries each worker wrote, in their order.
    pub counts: Vec<u64>,
}

/// A count of 0 for each worker.
fn zeros(alloc: Global, workers: u32) -> Result<Vec<u64>, Memory>
    ensures { IfOk result (λ counts. counts.items ≡ replicate workers 0) }
{
    let counts = vec![in alloc; 0; workers as usize]?;
    Ok(counts)
}

/// What a run leaves, of its book: each worker's entries are counted.
fn left_by(book: Book, workers: u32, counts: Vec<u64>, memory: bool) -> Outcome
    requires unended { end (state_of book) ≡ None → memory ≡ true }
    requires each { vec_len counts ≡ workers }
    ensures end { result.end ≡ end (state_of book) }
    ensures unended { result.end ≡ None → result.memory ≡ true }
    ensures book { result.book ≡ book }
    ensures counts { result.counts.items ≡ counts_of workers book.journal }
{
    let mut counts = counts;
    write_counts(&book, workers, counts.as_mut_slice());
    let end = book.end();
    Outcome {
        end,
        memory,
        book,
        counts,
    }
}

/// Whether a worker noted want of memory, or left the book without an end.
fn is_wanting(book: &Book, noted: bool) -> bool
    ensures { end (state_of book.now) ≡ None → result ≡ true }
{
    noted || book.end().is_none()
}

/// All workers work until they are done, each with its share.
fn all_work<R: Run + Send + Sync, W: Threads + Wait + Sync, G: Gate>(
    rt: &W,
    alloc: Global,
    shared: &SharedBook<R>,
    shares: &mut [Share<R>],
    limits: Limits,
    gate: &G,
    wanted: &AtomicBool,
)
    requires workers { 0 < limits.workers }
    requires some { 0 < limits.nodes }
    requires nodes { limits.nodes ≡ R.nodes }
{
    let each = move |_: usize, share: &mut Share<R>|
        requires { (0 < limits.nodes) × (limits.nodes ≡ R.nodes) }
    { work(rt, alloc, shared, share, limits, gate, wanted) };
    thread::for_each_mut(rt, shares, limits.workers as usize, &each);
}

/// A run over the book.
fn run<R: Run + Send + Sync, W: Threads + Wait + Sync, G: Gate>(
    rt: &W,
    alloc: Global,
    blank: Blank,
    book: Book,
    limits: Limits,
    gate: &G,
) -> Result<Outcome, Memory>
    requires name { blank.name ≡ R.name }
    requires parts { blank.parts ≡ R.parts }
    requires each { R.parts ≡ R.workers }
    requires workers { limits.workers ≡ R.workers }
    requires nodes { limits.nodes ≡ R.nodes }
    requires units { limits.units ≡ R.units }
    requires allowed { AreAllowed limits }
    requires system { book.system ≡ R.system }
    requires given { book.given ≡ R.units }
    requires new { book.journal ≡ [] }
    requires few { AreFew book.system }
    requires thin { IsThin (standing_of book) }
    ensures system { IfOk result (λ outcome. outcome.book.system ≡ book.system) }
    ensures given { IfOk result (λ outcome. outcome.book.given ≡ limits.units) }
    ensures entries { IfOk result (λ outcome. AllOf (IsEntry limits.workers limits.nodes) outcome.book.journal) }
    ensures thin { IfOk result (λ outcome. IsThin (standing_of outcome.book)) }
    ensures end { IfOk result (λ outcome. outcome.end ≡ end (state_of outcome.book)) }
    ensures unended { IfOk result (λ outcome. outcome.end ≡ None → outcome.memory ≡ true) }
    ensures counts { IfOk result (λ outcome. outcome.counts.items ≡ counts_of limits.workers outcome.book.journal) }
{
    let counts = zeros(alloc, limits.workers)?;
    let (shared, mut shares) = SharedBook::<R>::new(alloc, blank, book, limits.workers)?;
    let wanted = AtomicBool::new(false);
    all_work(
        rt,
        alloc,
        &shared,
        shares.as_mut_slice(),
        limits,
        gate,
        &wanted,
    );
    let book = shared.into_book(shares);
    let memory = is_wanting(&book, wanted.load(Ordering::SeqCst));
    Ok(left_by(book, limits.workers, counts, memory))
}

/// The book that these clauses open, as one worker leaves it that searches it alone: with an end, unless
/// memory was wanted. It waits for nobody, and so it returns.
pub fn solve_alone(alloc: Global, system: System, limits: Limits) -> Result<Outcome, Memory>
    requires can_run { CanRun system }
    requires allowed { AreAllowed limits }
    requires one { limits.workers ≡ 1 }
    ensures system { IfOk result (λ outcome. outcome.book.system ≡ system) }
    ensures given { IfOk result (λ outcome. outcome.book.given ≡ limits.units) }
    ensures entries { IfOk result (λ outcome. AllOf (IsEntry limits.workers limits.nodes) outcome.book.journal) }
    ensures thin { IfOk result (λ outcome. IsThin (standing_of outcome.book)) }
    ensures end { IfOk result (λ outcome. outcome.end ≡ end (state_of outcome.book)) }
    ensures unended { IfOk result (λ outcome. outcome.end ≡ None → outcome.memory ≡ true) }
    ensures counts { IfOk result (λ outcome. outcome.counts.items ≡ counts_of limits.workers outcome.book.journal) }
{
    let counts = zeros(alloc, limits.workers)?;
    let mut book = begin(alloc, system, limits.units)?;
    let memory = search(&mut book, limits.nodes).is_err();
    Ok(left_by(book, limits.workers, counts, memory))
}

/// The book that these clauses open, as several workers leave it who share it: with an end, unless
/// memory was wanted.
fn solve_together<W: Threads + Wait + Sync, G: Gate>(
    rt: &W,
    alloc: Global,
    system: System,
    limits: Limits,
    gate: &G,
) -> Result<Outcome, Memory>
    requires can_run { CanRun system }
    requires allowed { AreAllowed limits }
    ensures system { IfOk result (λ outcome. outcome.book.system ≡ system) }
    ensures given { IfOk result (λ outcome. outcome.book.given ≡ limits.units) }
    ensures entries { IfOk result (λ outcome. AllOf (IsEntry limits.workers limits.nodes) outcome.book.journal) }
    ensures thin { IfOk result (λ outcome. IsThin (standing_of outcome.book)) }
    ensures end { IfOk result (λ outcome. outcome.end ≡ end (state_of outcome.book)) }
    ensures unended { IfOk result (λ outcome. outcome.end ≡ None → outcome.memory ≡ true) }
    ensures counts { IfOk result (λ outcome. outcome.counts.items ≡ counts_of limits.workers outcome.book.journal) }
{
    let book = begin(alloc, system, limits.units)?;
    let blank = Blank::new(u64::from(limits.workers));
    run::<Brand, W, G>(rt, alloc, blank, book, limits, gate)
}

/// The book that these clauses open, as the workers leave it once it has ended or memory was wanted, and
/// how many of its entries each of them wrote. One worker searches it alone.
pub fn solve<W: Threads + Wait + Sync, G: Gate>(
    rt: &W,
    alloc: Global,
    system: System,
    limits: Limits,
    gate: &G,
) -> Result<Outcome, Memory>
    requires can_run { CanRun system }
    requires allowed { AreAllowed limits }
    ensures system { IfOk result (λ outcome. outcome.book.system ≡ system) }
    ensures given { IfOk result (λ outcome. outcome.book.given ≡ limits.units) }
    ensures entries { IfOk result (λ outcome. AllOf (IsEntry limits.workers limits.nodes) outcome.book.journal) }
    ensures thin { IfOk result (λ outcome. IsThin (standing_of outcome.book)) }
    ensures end { IfOk result (λ outcome. outcome.end ≡ end (state_of outcome.book)) }
    ensures unended { IfOk result (λ outcome. outcome.end ≡ None → outcome.memory ≡ true) }
    ensures by { IfOk result (λ outcome. outcome.counts.items ≡ counts_of limits.workers outcome.book.journal) }
    ensures each { IfOk result (λ outcome. vec_len outcome.counts ≡ limits.workers) }
    ensures counts { IfOk result (λ outcome. sum outcome.counts.items ≡ length outcome.book.journal) }
{
    if limits.workers == 1 {
        let alone = solve_alone(alloc, system, limits)?;
        return Ok(alone);
    }
    let together = solve_together(rt, alloc, system, limits, gate)?;
    Ok(together)
}
