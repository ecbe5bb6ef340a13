ghost use Rattle.std.specs.Prelude.{◌≡◌, ◌+◌, ◌<◌, ◌≤◌, [], length, map, replicate, sum, true, false, vec_len, IfOk, IfSome, OnOk, OnErr, IsErrOf};
ghost use Rattle.std.specs.List.{range_with_len};
ghost use Rattle.book_rules.specs.declared.end.End.{End as BookEnd};
ghost use Rattle.book_rules.specs.Places.{has_places};
ghost use Rattle.book_rules.specs.Walks.{AllOf};
ghost use Rattle.chc_core.specs.Views.{standing_of};
ghost use Rattle.clause_queries.specs.Answers.{AreFew};
ghost use Rattle.obligation_tree.specs.Claims.{most_workers};
ghost use Rattle.obligation_turn.specs.Counts.{StepCounts};
ghost use Rattle.obligation_turn.specs.Turns.{IsThin, StepIsThin};
ghost use Rattle.step_rules.specs.Taken.{IsMadeFor, step_of};
ghost use Rattle.search_strategy.specs.Jobs.{IsFirst};
ghost use Rattle.shared_book.specs.Jobs.{IsFree};
ghost use Rattle.shared_book.specs.Runs.{IsEntry, IsOlderInRun};

use crate::job::Job;
use crate::locked::Locked;
use crate::over::Over;
use crate::run::Run;
use crate::share::Share;
use crate::tally::gather;
use base::Memory;
use chc_core::{Book, Refused};
use std::alloc::Global;
use std::sync::ledger::Blank;
use std::sync::{Condvar, Mutex, Wait, ledger};
use step_rules::{LemmaPart, Step};

/// A book that several workers read and write, one at a time. A worker for which there is no job waits,
/// without turning, until another changes something.
#[derive(Drop)]
pub struct SharedBook<R: Run> {
    lock: Mutex<Locked<R>>,
    changed: Condvar,
}

/// A share for each worker.
fn shares_of<R: Run>(
    alloc: Global,
    rest: ledger::Share<R>,
    workers: u32,
) -> Result<Vec<Share<R>>, Memory>
    requires workers { workers ≡ R.workers }
    requires most { workers ≤ most_workers }
    requires parts { rest.parts ≡ workers }
    requires amount { rest.amount ≡ 0 }
    ensures workers { IfOk result (λ shares. map (λ share. share.worker) shares.items ≡ range_with_len 1 workers) }
    ensures counts { IfOk result (λ shares. map (λ share. share.count) shares.items ≡ replicate workers 0) }
{
    let mut rest = rest;
    let mut shares = Vec::new(alloc);
    for worker in 0..workers {
        let token = rest.split_off(1, 0);
        shares.push(Share::new(worker + 1, token))?;
    }
    Ok(shares)
}

impl<R: Run> SharedBook<R> {
    /// The book behind a lock, with all claims on it released, and a share for each worker, numbered from
    /// 1. There are from 1 to 64 workers. The book is the run's and has no entries, the bodies of its
    /// clauses have few atoms, and its cubes are thin.
    pub fn new(
        alloc: Global,
        blank: Blank,
        book: Book,
        workers: u32,
    ) -> Result<(SharedBook<R>, Vec<Share<R>>), Memory>
        requires name { blank.name ≡ R.name }
        requires parts { blank.parts ≡ R.parts }
        requires each { R.parts ≡ R.workers }
        requires workers { workers ≡ R.workers }
        requires some { 0 < workers }
        requires most { workers ≤ most_workers }
        requires system { book.system ≡ R.system }
        requires given { book.given ≡ R.units }
        requires new { book.journal ≡ [] }
        requires few { AreFew book.system }
        requires thin { IsThin (standing_of book) }
        ensures workers { IfOk result (λ made. map (λ share. share.worker) made.1.items ≡ range_with_len 1 workers) }
        ensures counts { IfOk result (λ made. map (λ share. share.count) made.1.items ≡ replicate workers 0) }
    {
        let (written, rest) = blank.open::<R>();
        let shares = shares_of(alloc, rest, workers)?;
        let lock = Mutex::new(Locked::new(book, written));
        let changed = Condvar::new();
        Ok((SharedBook { lock, changed }, shares))
    }

    /// Takes a step under the lock, as `Locked::commit` does. It may wait for the lock.
    pub fn commit(&self, rt: &impl Wait, share: &mut Share<R>, step: Step) -> Result<u64, Refused>
        requires made { IsMadeFor R.system step }
        requires places { has_places R.system (step_of step) ≡ true }
        requires counts { StepCounts R.nodes step }
        requires thin { StepIsThin step }
        ensures counted { OnOk result (share.new.count ≡ share.old.count + 1) }
        ensures uncounted { OnErr result (share.new.count ≡ share.old.count) }
        ensures worker { share.new.worker ≡ share.old.worker }
        ensures offered { share.new.has_offered ≡ true }
    {
        let mut locked = self.lock.lock(rt);
        let answer = locked.commit(share, step);
        self.changed.notify_all();
        answer
    }

    /// What the worker does next, as `Locked::next_job` answers it: of the live leaves that aren't stalled
    /// and that no other worker holds, the oldest of the lowest level. It may wait while others hold all
    /// of them. Where the run is over the worker may leave, and the share says so.
    pub fn take_job(&self, rt: &impl Wait, share: &mut Share<R>) -> Result<Job<R>, Over>
        ensures first { IfOk result (λ job. IsFirst job.snapshot.tree.nodes (IsFree job.snapshot share.old.worker) job.obligation) }
        ensures length { IfOk result (λ job. share.old.count ≤ length job.snapshot.journal) }
        ensures count { share.new.count ≡ share.old.count }
        ensures worker { share.new.worker ≡ share.old.worker }
        ensures unoffered { OnOk result (share.new.has_offered ≡ false) }
        ensures ended { (e : BookEnd) → IsErrOf result (Over.Ended e) → share.new.may_leave ≡ true }
        ensures noted { IsErrOf result Over.WorkerMemory → share.new.may_leave ≡ true }
    {
        let mut locked = self.lock.lock(rt);
        for _ in rt.forever() {
            if let Some(job) = locked.next_job(share)? {
                return Ok(job);
            }
            locked = self.changed.wait(rt, locked);
        }
        unreachable!()
    }

    /// Notes that the worker wanted memory, and releases its claim, as `Locked::note` does: no worker gets a
    /// job any more, and this one may leave.
    pub fn note_memory(&self, rt: &impl Wait, share: &mut Share<R>)
        ensures left { share.new.may_leave ≡ true }
        ensures count { share.new.count ≡ share.old.count }
        ensures worker { share.new.worker ≡ share.old.worker }
    {
        let mut locked = self.lock.lock(rt);
        locked.note(share);
        self.changed.notify_all();
    }

    /// The number and the level that a lemma with the part's cube had under the lock, as `Locked::older`
    /// answers it: a lemma of a book of the run.
    pub fn older(&self, rt: &impl Wait, part: &LemmaPart) -> Option<(u32, u32)>
        ensures { IfSome result (λ found. IsOlderInRun R.system R.units R.nodes R.workers part.now found.0 found.1) }
    {
        let locked = self.lock.lock(rt);
        locked.older(part)
    }

    /// The book, once all workers are done. The shares' counts sum to the length of the journal.
    pub fn into_book(self, shares: Vec<Share<R>>) -> Book
        requires all { vec_len shares ≡ R.workers }
        requires each { R.parts ≡ R.workers }
        requires some { 0 < vec_len shares }
        ensures sum { sum (map (λ share. share.count) shares.items) ≡ length result.journal }
        ensures system { result.system ≡ R.system }
        ensures given { result.given ≡ R.units }
        ensures entries { AllOf (IsEntry R.workers R.nodes) result.journal }
        ensures thin { IsThin (standing_of result) }
    {
        let SharedBook { lock, .. } = self;
        let all = gather(shares);
        lock.into_inner().into_book(all)
    }
}
