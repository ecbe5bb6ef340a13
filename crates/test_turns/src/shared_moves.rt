//! Calls of a shared book by hand, and what is told of them.

ghost use Rattle.std.specs.Prelude.{◌≡◌, length};

use chc_core::{Book, End, Step};
use obligation_turn::turn;
use shared_book::{Job, Over, Run, Share, SharedBook};
use std::process::Abort;
use std::sync::Wait;

/// At how many inner nodes queries are given up.
const NODES: u32 = 100;

/// What a worker does. There is one job at a time.
#[derive(Clone, Copy, Debug)]
pub(crate) enum Move {
    /// Takes a job.
    Take,
    /// Commits the step for the job.
    Commit,
    /// Notes want of memory.
    Note,
}

/// What is answered.
#[derive(Clone, Copy, Debug, PartialEq, Eq)]
pub(crate) enum Told {
    Job(u32),
    Number(u64),
    Unsat,
    Spent,
    Memory,
    Nothing,
}

/// The kind of a step, and its numbers.
pub(crate) fn numbers(step: &Step) -> (u32, u64, u64) {
    match step {
        Step::OpenStep(part) => (1, u64::from(part.parent), u64::from(part.atom)),
        Step::LemmaStep(part) => (2, u64::from(part.target), u64::from(part.level)),
        Step::FactStep(part) => (3, part.premises.len() as u64, u64::from(part.seen.clause())),
        Step::LiftStep(part) => (4, u64::from(part.lemma), u64::from(part.from)),
        Step::RaiseStep(part) => (5, part.closed.len() as u64, part.kept.len() as u64),
        Step::StallStep(part) => (6, u64::from(part.target), u64::from(part.clause)),
        Step::DeriveStep(part) => (7, part.premises.len() as u64, u64::from(part.seen.clause())),
        Step::StrengthenStep(part) => (8, u64::from(part.pred), u64::from(part.level)),
    }
}

/// An entry as it was handed in: the worker, and the step's numbers.
pub(crate) type Made = (u32, (u32, u64, u64));

/// Asks for a job.
fn taken<R: Run, W: Wait + Abort>(
    rt: &W,
    shared: &SharedBook<R>,
    share: &mut Share<R>,
    held: &mut Option<Job<R>>,
) -> Told
    ensures { share.new.worker ≡ share.old.worker }
{
    match shared.take_job(rt, share) {
        Ok(job) => {
            let told = Told::Job(job.obligation());
            *held = Some(job);
            told
        }
        Err(Over::Ended(End::Unsat { .. })) => Told::Unsat,
        Err(Over::Ended(End::Spent { .. })) => Told::Spent,
        Err(Over::WorkerMemory) => Told::Memory,
        Err(_) => Told::Nothing,
    }
}

/// Commits the step for the job, and keeps what it was.
fn committed<R: Run, W: Wait + Abort>(
    rt: &W,
    shared: &SharedBook<R>,
    share: &mut Share<R>,
    job: &Job<R>,
    made: &mut Vec<Made>,
) -> Told
    requires { R.nodes ≡ 100 }
{
    let lent = job.lend();
    let step = turn(&lent, job.obligation(), NODES).expect(rt, "memory");
    made.push((share.worker(), numbers(&step)))
        .expect(rt, "memory");
    match shared.commit(rt, share, step) {
        Ok(number) => Told::Number(number),
        Err(_) => Told::Nothing,
    }
}

/// Makes a worker's move.
pub(crate) fn moved<R: Run, W: Wait + Abort>(
    rt: &W,
    shared: &SharedBook<R>,
    share: &mut Share<R>,
    what: Move,
    held: &mut Option<Job<R>>,
    made: &mut Vec<Made>,
) -> Told
    requires { R.nodes ≡ 100 }
{
    match what {
        Move::Take => taken(rt, shared, share, held),
        Move::Commit => match held {
            Some(job) => committed(rt, shared, share, job, made),
            None => Told::Nothing,
        },
        Move::Note => {
            shared.note_memory(rt, share);
            Told::Nothing
        }
    }
}

/// Asserts that the journal has what was handed in, each at its number.
pub(crate) fn is_written(rt: &impl Abort, book: &Book, made: &[Made]) {
    assert!(rt;
        book.length() == made.len() as u64,
        "an entry for each commit"
    );
    for at in 0..made.len() {
        let entry = book.entry(at as u64 + 1);
        assert!(rt; entry.worker == made[at].0, "the worker");
        assert!(rt; numbers(&entry.step) == made[at].1, "the step");
    }
}
