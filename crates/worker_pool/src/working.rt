//! A worker's turns, one after another.

ghost use Rattle.std.specs.Prelude.{◌≡◌, ◌<◌, true, false, IfOk, OnOk};
ghost use Rattle.obligation_turn.specs.Turns.{GoesOn, IsOpenLeaf};
ghost use Rattle.search_mind.specs.Minds.{IsMindFor};

use crate::gate::Gate;
use crate::limits::Limits;
use crate::offering::{offer, offer_turn};
use base::Memory;
use search_mind::Mind;
use search_strategy::pass_of;
use shared_book::{Job, Over, Run, Share, SharedBook};
use std::alloc::Global;
use std::sync::Wait;
use std::sync::atomic::{AtomicBool, Ordering};
use step_rules::Lent;

/// How many further body atoms of an instance a worker asks at the most. They give other workers
/// something to do.
const SIBLINGS: u32 = 3;

/// The work of a turn on the obligation of its job, and the steps that come of it.
fn serve<R: Run>(
    rt: &impl Wait,
    lent: &Lent,
    shared: &SharedBook<R>,
    share: &mut Share<R>,
    job: u32,
    nodes: u32,
    mind: &mut Mind,
) -> Result<(), Memory>
    requires goes_on { GoesOn lent.now }
    requires system { lent.now.system ≡ R.system }
    requires leaf { IsOpenLeaf lent.now job }
    requires some { 0 < nodes }
    requires nodes { nodes ≡ R.nodes }
    requires mind { IsMindFor R.system mind.old }
    ensures mind { OnOk result (IsMindFor R.system mind.new) }
    ensures offered { OnOk result (share.new.has_offered ≡ true) }
{
    let step = mind.serve(lent, job, nodes)?;
    let pass = pass_of(lent.level, &step);
    if offer_turn(rt, lent, shared, share, step, SIBLINGS)? {
        mind.begin(pass);
    }
    Ok(())
}

/// The work of a turn: a small step, or where there is none, the work on its job.
fn turn<R: Run>(
    rt: &impl Wait,
    shared: &SharedBook<R>,
    share: &mut Share<R>,
    job: Job<R>,
    nodes: u32,
    mind: &mut Mind,
) -> Result<(), Memory>
    requires some { 0 < nodes }
    requires nodes { nodes ≡ R.nodes }
    requires mind { IsMindFor R.system mind.old }
    ensures mind { OnOk result (IsMindFor R.system mind.new) }
    ensures offered { OnOk result (share.new.has_offered ≡ true) }
{
    let lent = job.lend();
    match mind.small_step(&lent, nodes)? {
        Some(step) => {
            let _taken = offer(rt, shared, share, step)?;
            Ok(())
        }
        None => serve(rt, &lent, shared, share, job.obligation(), nodes, mind),
    }
}

/// One turn; whether there was a job for it.
fn advance<R: Run>(
    rt: &impl Wait,
    shared: &SharedBook<R>,
    share: &mut Share<R>,
    nodes: u32,
    mind: &mut Mind,
) -> Result<bool, Memory>
    requires some { 0 < nodes }
    requires nodes { nodes ≡ R.nodes }
    requires mind { IsMindFor R.system mind.old }
    ensures mind { OnOk result (IsMindFor R.system mind.new) }
    ensures offered { IfOk result (λ had_job. had_job ≡ true → share.new.has_offered ≡ true) }
    ensures left { IfOk result (λ had_job. had_job ≡ false → share.new.may_leave ≡ true) }
{
    match shared.take_job(rt, share) {
        Ok(job) => {
            turn(rt, shared, share, job, nodes, mind)?;
            Ok(true)
        }
        Err(Over::Memory) => Err(Memory),
        Err(Over::Ended(_)) => Ok(false),
        Err(Over::WorkerMemory) => Ok(false),
    }
}

/// Works turn after turn, until the book has ended or a worker wanted memory. A worker that leaves was told
/// so, or has noted that it wanted memory.
pub(crate) fn work<R: Run, W: Wait, G: Gate>(
    rt: &W,
    alloc: Global,
    shared: &SharedBook<R>,
    share: &mut Share<R>,
    limits: Limits,
    gate: &G,
    wanted: &AtomicBool,
)
    requires some { 0 < limits.nodes }
    requires nodes { limits.nodes ≡ R.nodes }
    ensures { share.new.may_leave ≡ true }
{
    let mut mind = Mind::new(alloc, share.worker());
    let mut turn_number: u64 = 0;
    for _ in rt.forever() {
        turn_number = turn_number.saturating_add(1);
        gate.pass(share.worker(), turn_number);
        match advance(rt, shared, share, limits.nodes, &mut mind) {
            Ok(true) => {}
            Ok(false) => return,
            Err(Memory) => {
                wanted.store(true, Ordering::SeqCst);
                shared.note_memory(rt, share);
                return;
            }
        }
    }
    unreachable!()
}
