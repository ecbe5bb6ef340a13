ghost use Rattle.std.specs.Prelude.{◌≡◌, ◌≤◌, ◌+◌, ℕ, [], ◌∷◌, ◌++◌, length, true, false, None, Some, IfOk, IfSome, IsSomeAnd, OnOk, OnErr, IsErrOf};
ghost use Rattle.book_rules.specs.declared.by.By.{By as BrokenBy};
ghost use Rattle.book_rules.specs.declared.end.End.{End as BookEnd};
ghost use Rattle.book_rules.specs.declared.end.End.TheVariants.{Spent as UnitsSpent};
ghost use Rattle.book_rules.specs.Effects.{after};
ghost use Rattle.book_rules.specs.Frames.{AreGood};
ghost use Rattle.book_rules.specs.Instances.{instances};
ghost use Rattle.book_rules.specs.Legal.{AreLegal, IsLegal, end, replay};
ghost use Rattle.book_rules.specs.Places.{has_places};
ghost use Rattle.book_rules.specs.Rules.{broken};
ghost use Rattle.book_rules.specs.State.{opening};
ghost use Rattle.book_rules.specs.Walks.{AllOf};
ghost use Rattle.chc_core.specs.Views.{standing_of, state_of, steps_of};
ghost use Rattle.obligation_turn.specs.Counts.{StepCounts};
ghost use Rattle.obligation_turn.specs.Turns.{IsThin, StepIsThin};
ghost use Rattle.step_rules.specs.Taken.{IsMadeFor, step_of};
ghost use Rattle.shared_book.specs.Jobs.{AreHeld, IsFree, is_over};
ghost use Rattle.search_strategy.specs.Jobs.{IsFirst};
ghost use Rattle.search_strategy.specs.Older.{IsOlder};
ghost use Rattle.shared_book.specs.Locks.{AreReleased, claimed_by, released_by, with_claims};
ghost use Rattle.shared_book.specs.Runs.{IsEntry, IsRunBook};

use crate::claiming::job_of;
use crate::job::Job;
use crate::over::Over;
use crate::run::Run;
use crate::share::Share;
use crate::taking::{commit_released, release_all};
use chc_core::{Book, Refused};
use search_strategy::older;
use std::marker::Model;
use std::sync::ledger;
use step_rules::{LemmaPart, Step};

/// What lies behind the lock: the book with its claims, whether a worker has noted want of memory, and
/// the ledger of what the workers have written. The book is the run's, and the counts of all shares
/// sum to the length of its journal.
#[derive(Drop)]
pub struct Locked<R: Run> {
    book: Book,
    noted: bool,
    written: ledger::Book<R>,
}

impl<R: Run> Model for Locked<R> {
    ghost use Rattle.std.specs.Prelude.{◌≡◌, length};
    ghost use Rattle.std.specs.Coded.{codes};
    ghost use Rattle.lin_atoms.specs.contracts.form.Form as form;
    ghost use Rattle.chc_core.specs.contracts.entry.Entry as entry;
    ghost use Rattle.shared_book.specs.Locks.{Behind};
    ghost use Rattle.shared_book.specs.Runs.{IsRunBook};

    ghost Value = { Behind };

    ghost coded = { Prim.hlevel (codes, form.the_row.coded, entry.the_row.coded) };

    ghost view = { λ l. record { book = l.book; noted = l.noted; total = l.written.total } };

    ghost invariant = { λ l. IsRunBook R.system R.units R.nodes R.workers l.book × (l.written.total ≡ length l.book.journal) };
}

/// Whether no worker gets a job any more: the book has an end, or want of memory was noted.
fn is_over(book: &Book, noted: bool) -> bool
    ensures { result ≡ is_over book.now noted }
{
    book.end().is_some() || noted
}

/// Whether jobs are given: not where the book has an end, nor where want of memory was noted.
fn may_ask(book: &Book, noted: bool) -> Result<(), Over>
    ensures ok { OnOk result ((end (state_of book.now) ≡ None) × (noted ≡ false)) }
    ensures ended { (e : BookEnd) → IsErrOf result (Over.Ended e) → end (state_of book.now) ≡ Some e }
    ensures noted { IsErrOf result Over.WorkerMemory → (end (state_of book.now) ≡ None) × (noted ≡ true) }
    ensures memory { IsErrOf result Over.Memory → ⊥ }
{
    match book.end() {
        Some(end) => return Err(Over::Ended(end)),
        None => {}
    }
    if noted {
        return Err(Over::WorkerMemory);
    }
    Ok(())
}

impl<R: Run> Locked<R> {
    /// A book without entries, with all claims on it released.
    pub(crate) fn new(book: Book, written: ledger::Book<R>) -> Locked<R>
        requires run { IsRunBook R.system R.units R.nodes R.workers book }
        requires new { book.journal ≡ [] }
        requires total { written.total ≡ 0 }
        ensures book { result.book ≡ with_claims result.book.tree.claims book }
        ensures free { AreReleased result.book.tree.claims }
        ensures noted { result.noted ≡ false }
    {
        let mut book = book;
        release_all(&mut book);
        Locked {
            book,
            noted: false,
            written,
        }
    }

    /// The book: of the run's clauses and units, the replay of its journal, in which each entry is legal
    /// where it is written. Its lemmas are good, each entry is of a worker of the run and of the run's
    /// nodes, its cubes are thin, and the shares' counts sum to the length of its journal.
    pub fn book(&self) -> &Book
        ensures is { result.now ≡ self.now.book }
        ensures system { result.now.system ≡ R.system }
        ensures given { result.now.given ≡ R.units }
        ensures replayed { replay R.system (opening R.units) (steps_of result.now.journal) ≡ state_of result.now }
        ensures legal { AreLegal R.system (opening R.units) (steps_of result.now.journal) }
        ensures good { AreGood (instances R.system) (state_of result.now).lemmas }
        ensures entries { AllOf (IsEntry R.workers R.nodes) result.now.journal }
        ensures thin { IsThin (standing_of result.now) }
        ensures counted { self.now.total ≡ length result.now.journal }
    {
        self.book.replay_law();
        let _frames = self.book.frames();
        &self.book
    }

    /// Whether a worker has noted want of memory.
    pub fn noted(&self) -> bool
        ensures { result ≡ self.now.noted }
    {
        self.noted
    }

    /// Takes a step of the share's worker, and answers the number of its entry, from 1. The answer and
    /// the book afterwards are those of the book's own `commit`: `Ok` exactly where the book has no end
    /// and the step breaks no rule. The share's count grows by one exactly at `Ok`. The worker's claim
    /// is released in every case, and a refusal changes nothing besides. The share says that a step was offered.
    pub fn commit(&mut self, share: &mut Share<R>, step: Step) -> Result<u64, Refused>
        requires made { IsMadeFor R.system step }
        requires places { has_places R.system (step_of step) ≡ true }
        requires counts { StepCounts R.nodes step }
        requires thin { StepIsThin step }
        ensures number { IfOk result (λ number. number ≡ length self.old.book.journal + 1) }
        ensures legal { OnOk result (IsLegal R.system (state_of self.old.book) (step_of step)) }
        ensures state { OnOk result (state_of self.new.book ≡ after R.system (state_of self.old.book) (step_of step)) }
        ensures journal { OnOk result (self.new.book.journal ≡ self.old.book.journal ++ (record { worker = share.old.worker; step = step }) ∷ []) }
        ensures claims { OnOk result (self.new.book.tree.claims ≡ (released_by share.old.worker self.old.book).tree.claims) }
        ensures mark { OnOk result (self.new.noted ≡ self.old.noted) }
        ensures counted { OnOk result (share.new.count ≡ share.old.count + 1) }
        ensures ended { (e : BookEnd) → IsErrOf result (Refused.Ended e) → (end (state_of self.old.book) ≡ Some e) × ((units : ℕ) → e ≡ UnitsSpent units → ⊥) }
        ensures spent { (units : ℕ) → IsErrOf result (Refused.Spent units) → end (state_of self.old.book) ≡ Some (UnitsSpent units) }
        ensures goes_on { (n : ℕ) (by : BrokenBy) → IsErrOf result (Refused.Rule n by) → end (state_of self.old.book) ≡ None }
        ensures rule { (n : ℕ) (by : BrokenBy) → IsErrOf result (Refused.Rule n by) → broken R.system (state_of self.old.book) (step_of step) ≡ Some (n, by) }
        ensures err { OnErr result (self.new ≡ record self.old { book = released_by share.old.worker self.old.book }) }
        ensures uncounted { OnErr result (share.new.count ≡ share.old.count) }
        ensures worker { share.new.worker ≡ share.old.worker }
        ensures offered { share.new.has_offered ≡ true }
    {
        let Share {
            worker,
            count,
            has_offered,
            token,
            ..
        } = share;
        *has_offered = true;
        let number = commit_released(&mut self.book, *worker, step)?;
        self.written.audit(token);
        self.written.add(token, 1);
        *count += 1;
        Ok(number)
    }

    /// What the worker does next: `Ended` exactly where the book has that end, `WorkerMemory` exactly
    /// where it has none and want of memory was noted. Else `None` exactly where another worker holds
    /// every live leaf that isn't stalled, and otherwise a job, claimed for this worker: of the others the
    /// oldest of the lowest level. The claim is all that changes, and only with a job. The job's book is
    /// no older than the worker's own entries, and the share says that nothing was offered for it. It says
    /// that the worker may leave exactly where no worker gets a job any more.
    pub fn next_job(&mut self, share: &mut Share<R>) -> Result<Option<Job<R>>, Over>
        ensures ended { (e : BookEnd) → IsErrOf result (Over.Ended e) → end (state_of self.old.book) ≡ Some e }
        ensures noted { IsErrOf result Over.WorkerMemory → (end (state_of self.old.book) ≡ None) × (self.old.noted ≡ true) }
        ensures memory { IsErrOf result Over.Memory → (end (state_of self.old.book) ≡ None) × (self.old.noted ≡ false) }
        ensures asked { OnOk result ((end (state_of self.old.book) ≡ None) × (self.old.noted ≡ false)) }
        ensures none { IfOk result (λ answer. answer ≡ None → AreHeld self.old.book share.old.worker) }
        ensures unclaimed { IfOk result (λ answer. answer ≡ None → self.new ≡ self.old) }
        ensures first { IfOk result (λ answer. IfSome answer (λ job. IsFirst self.old.book.tree.nodes (IsFree self.old.book share.old.worker) job.obligation)) }
        ensures snapshot { IfOk result (λ answer. IfSome answer (λ job. job.snapshot ≡ self.old.book)) }
        ensures claimed { IfOk result (λ answer. IfSome answer (λ job. self.new ≡ record self.old { book = claimed_by job.obligation share.old.worker self.old.book })) }
        ensures length { IfOk result (λ answer. IfSome answer (λ job. share.old.count ≤ length job.snapshot.journal)) }
        ensures err { OnErr result (self.new ≡ self.old) }
        ensures share { (share.new.worker ≡ share.old.worker) × (share.new.count ≡ share.old.count) }
        ensures unoffered { OnOk result (share.new.has_offered ≡ false) }
        ensures left { share.new.may_leave ≡ is_over self.old.book self.old.noted }
    {
        share.may_leave = is_over(&self.book, self.noted);
        may_ask(&self.book, self.noted)?;
        let Share {
            worker,
            has_offered,
            token,
            ..
        } = share;
        *has_offered = false;
        self.written.audit(token);
        let answer = job_of(&mut self.book, *worker)?;
        Ok(answer)
    }

    /// Notes that the worker wanted memory, and releases its claim. The share says that the worker may leave.
    pub fn note(&mut self, share: &mut Share<R>)
        ensures noted { self.new ≡ record self.old { book = released_by share.old.worker self.old.book; noted = true } }
        ensures left { share.new.may_leave ≡ true }
        ensures share { (share.new.worker ≡ share.old.worker) × (share.new.count ≡ share.old.count) }
    {
        self.book.release(share.worker);
        self.noted = true;
        share.may_leave = true;
    }

    /// The number and the level of the last lemma that has the part's cube, on its predicate and at a
    /// lower level: to be lifted in place of a copy. None exactly where there is no such lemma.
    pub fn older(&self, part: &LemmaPart) -> Option<(u32, u32)>
        ensures older { IfSome result (λ found. IsOlder self.now.book.frames.lemmas part.now found.0 found.1) }
        ensures last { (id level : ℕ) → IsOlder self.now.book.frames.lemmas part.now id level → IsSomeAnd result (λ found. id ≤ found.0) }
        ensures run { IsRunBook R.system R.units R.nodes R.workers self.now.book }
    {
        older(self.book.frames(), part)
    }

    /// The book, once all parts of the ledger are back.
    pub(crate) fn into_book(self, all: ledger::Share<R>) -> Book
        requires { all.parts ≡ R.parts }
        ensures is { result ≡ self.book }
        ensures run { IsRunBook R.system R.units R.nodes R.workers result }
        ensures counted { all.amount ≡ length result.journal }
    {
        let Locked {
            book,
            mut written,
            ..
        } = self;
        let mut all = all;
        written.audit(&mut all);
        book
    }
}
