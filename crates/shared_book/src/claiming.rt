//! Which obligation a worker claims.

ghost use Rattle.std.specs.Prelude.{◌≡◌, ◌<◌, ◌≤◌, None, Some, if◌then◌else◌, length, IfOk, IfSome, OnErr, OnOk};
ghost use Rattle.book_rules.specs.Legal.{end};
ghost use Rattle.obligation_tree.specs.Claims.{is_held_by_another, most_workers};
ghost use Rattle.obligation_tree.specs.Nodes.{is_stalled_in, leaf_numbers, node_at, IsLiveLeaf};
ghost use Rattle.chc_core.specs.Views.{standing_of, state_of};
ghost use Rattle.clause_queries.specs.Answers.{AreFew};
ghost use Rattle.obligation_turn.specs.Turns.{IsOpenLeaf, IsThin};
ghost use Rattle.search_strategy.specs.Jobs.{IsFirst};
ghost use Rattle.search_strategy.specs.machinery.Choosing.{first_of, next_first};
ghost use Rattle.shared_book.specs.Jobs.{AreHeld, IsFree};
ghost use Rattle.shared_book.specs.Locks.{claimed_by, with_claims};
ghost use Rattle.shared_book.specs.machinery.Choices.{IsChosen, is_out};

use crate::job::Job;
use crate::run::Run;
use base::Memory;
use chc_core::{Book, Snapshot};
use search_strategy::is_before;

/// The live obligations without live children, in order of number.
fn leaves_of(snapshot: &Snapshot) -> &[u32]
    ensures { result.now ≡ leaf_numbers snapshot.now.tree.nodes }
{
    snapshot.tree().live_leaves()
}

/// Whether the obligation is stalled.
fn is_stalled(snapshot: &Snapshot, id: u32) -> bool
    requires { id < length snapshot.now.tree.nodes }
    ensures { result ≡ is_stalled_in (node_at snapshot.now.tree.nodes id) }
{
    snapshot.tree().is_stalled(id)
}

/// Whether the obligation is asked before the first so far, if there is one.
fn comes_before(snapshot: &Snapshot, best: Option<u32>, id: u32) -> bool
    requires best { IfSome best (λ n. n < length snapshot.now.tree.nodes) }
    requires id { id < length snapshot.now.tree.nodes }
    ensures { first_of snapshot.now.tree.nodes best id ≡ (if result then Some id else best) }
{
    match best {
        None => true,
        Some(first) => is_before(snapshot.tree(), id, first),
    }
}

/// Claims one more, which isn't stalled, where no other worker holds it.
fn claim_open(
    book: &mut Book,
    snapshot: &Snapshot,
    best: Option<u32>,
    id: u32,
    worker: u32,
) -> Option<u32>
    requires first { 0 < worker }
    requires last { worker ≤ most_workers }
    requires chosen { IsChosen snapshot.now worker best book.old }
    requires leaf { IsOpenLeaf (standing_of snapshot.now) id }
    ensures chosen { IsChosen snapshot.now worker result book.new }
    ensures is { result ≡ (if is_held_by_another id worker snapshot.now.tree.claims then best else Some id) }
{
    let is_free = book.claim(id, worker);
    if is_free { Some(id) } else { best }
}

/// Claims an obligation that isn't stalled, where it is asked before the first so far and no other
/// worker holds it; the first that is claimed then.
fn with_open(
    book: &mut Book,
    snapshot: &Snapshot,
    best: Option<u32>,
    id: u32,
    worker: u32,
) -> Option<u32>
    requires first { 0 < worker }
    requires last { worker ≤ most_workers }
    requires chosen { IsChosen snapshot.now worker best book.old }
    requires leaf { IsOpenLeaf (standing_of snapshot.now) id }
    ensures chosen { IsChosen snapshot.now worker result book.new }
    ensures is { result ≡ (if is_held_by_another id worker snapshot.now.tree.claims then best else first_of snapshot.now.tree.nodes best id) }
{
    if comes_before(snapshot, best, id) {
        claim_open(book, snapshot, best, id, worker)
    } else {
        best
    }
}

/// Claims an obligation that may be stalled, where it isn't, is asked before the first so far, and no
/// other worker holds it; the first that is claimed then.
fn with_leaf(
    book: &mut Book,
    snapshot: &Snapshot,
    best: Option<u32>,
    id: u32,
    worker: u32,
) -> Option<u32>
    requires first { 0 < worker }
    requires last { worker ≤ most_workers }
    requires chosen { IsChosen snapshot.now worker best book.old }
    requires leaf { IsLiveLeaf snapshot.now.tree.nodes id }
    ensures chosen { IsChosen snapshot.now worker result book.new }
    ensures is { result ≡ next_first snapshot.now.tree.nodes (is_out snapshot.now worker) best id }
{
    if is_stalled(snapshot, id) {
        best
    } else {
        with_open(book, snapshot, best, id, worker)
    }
}

/// Claims for the worker the oldest of the lowest level among the live leaves that aren't stalled and
/// that no other worker holds, if there is one.
fn claim_best(book: &mut Book, snapshot: &Snapshot, worker: u32) -> Option<u32>
    requires first { 0 < worker }
    requires last { worker ≤ most_workers }
    requires same { book.old ≡ snapshot.now }
    ensures chosen { IsChosen snapshot.now worker result book.new }
    ensures first { IfSome result (IsFirst snapshot.now.tree.nodes (IsFree snapshot.now worker)) }
    ensures none { result ≡ None → AreHeld snapshot.now worker }
{
    let mut best = None;
    for id in leaves_of(snapshot) {
        best = with_leaf(book, snapshot, best, *id, worker);
    }
    best
}

/// A job for the worker: a snapshot of the book, and the obligation that is then claimed. `None` where
/// other workers hold all that may be asked.
pub(crate) fn job_of<R: Run>(book: &mut Book, worker: u32) -> Result<Option<Job<R>>, Memory>
    requires first { 0 < worker }
    requires last { worker ≤ most_workers }
    requires system { book.old.system ≡ R.system }
    requires few { AreFew R.system }
    requires goes_on { end (state_of book.old) ≡ None }
    requires thin { IsThin (standing_of book.old) }
    ensures none { IfOk result (λ answer. answer ≡ None → AreHeld book.old worker) }
    ensures unclaimed { IfOk result (λ answer. answer ≡ None → book.new ≡ book.old) }
    ensures first { IfOk result (λ answer. IfSome answer (λ job. IsFirst book.old.tree.nodes (IsFree book.old worker) job.obligation)) }
    ensures snapshot { IfOk result (λ answer. IfSome answer (λ job. job.snapshot ≡ book.old)) }
    ensures claimed { IfOk result (λ answer. IfSome answer (λ job. book.new ≡ claimed_by job.obligation worker book.old)) }
    ensures kept { OnOk result (book.new ≡ with_claims book.new.tree.claims book.old) }
    ensures err { OnErr result (book.new ≡ book.old) }
{
    let snapshot = book.snapshot()?;
    match claim_best(book, &snapshot, worker) {
        Some(obligation) => Ok(Some(Job::new(obligation, snapshot))),
        None => Ok(None),
    }
}
