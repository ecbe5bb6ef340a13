//! The queries of all clauses with a head.

ghost use Rattle.std.specs.Prelude.{◌≡◌, ◌<◌, true, IfOk};
ghost use Rattle.std.specs.List.{list_all};
ghost use Rattle.clause_queries.specs.Answers.{IsFound, MayAskAll};
ghost use Rattle.clause_queries.specs.Kept.{lemma_is_kept};
ghost use Rattle.clause_queries.specs.Uses.{IsAskedAt};
ghost use Rattle.clause_queries.specs.machinery.Choices.{AreAsked};
ghost use Rattle.clause_queries.specs.machinery.Asking.{IsAnswerAt, IsNoted, first_lost, found_of};

use crate::asked::asked_clauses;
use crate::asking::{Asked, ask_by};
use crate::carrying::{Carried, all_carried, taken, trees_for};
use crate::keeping::{frames_are_kept, goal_is_kept};
use crate::lost::Lost;
use crate::using::frame_used;
use base::{Copied, Items, Memory};
use chc_tokens::{Goal, Seen, Shown};
use clause_index::IndexedSystem;
use lemma_frames::Frames;
use refutation_trees::Refutation;
use std::alloc::Global;

/// What was found of the queries.
#[derive(Drop)]
pub enum Found {
    /// An instance of one clause, which meets the goal.
    Instance(Seen),
    /// None of any: a refutation through each clause.
    Refuted(Items<Shown>),
    /// None was found, and the search of a query was given up.
    GivenUp(Lost),
}

/// What was found so far.
#[derive(Drop)]
pub(crate) struct Gathered {
    pub(crate) proofs: Items<Shown>,
    /// The first query that was given up.
    pub(crate) lost: Option<Lost>,
}

/// Asks the goal of one clause that is asked, under lemmas of level k or more. A tree that may refute the
/// query is looked at first.
fn ask_clause(
    alloc: Global,
    sys: &IndexedSystem,
    frames: &Frames,
    number: u32,
    pred: Option<u32>,
    goal: &Goal,
    k: u32,
    nodes: u32,
    tree: Option<Refutation>,
) -> Result<Asked, Memory>
    requires asks { MayAskAll sys.now frames.now.lemmas pred goal.now }
    requires asked { IsAskedAt sys.now pred k number }
    requires kept { list_all lemma_is_kept frames.now.lemmas ≡ true }
    requires some { 0 < nodes }
    ensures { IfOk result (IsAnswerAt sys.now frames.now.lemmas pred goal.now k nodes number) }
{
    goal_is_kept(goal);
    let clause = sys.clause(number as usize);
    let used = frame_used(alloc, frames, k, clause.atoms.as_slice())?;
    let goal = goal.copy(alloc)?;
    let asked = ask_by(alloc, sys.plain(), number, goal, used, nodes, tree)?;
    Ok(asked)
}

/// Keeps what was given up, if it is the first.
fn keep_lost(gathered: &mut Gathered, lost: Lost)
    ensures proofs { gathered.new.proofs ≡ gathered.old.proofs }
    ensures lost { gathered.new.lost ≡ first_lost gathered.old.lost lost }
{
    if gathered.lost.is_none() {
        gathered.lost = Some(lost);
    }
}

/// Notes the answer of a query; an instance ends the search.
fn note(gathered: &mut Gathered, asked: Asked) -> Result<Option<Seen>, Memory>
    ensures { IfOk result (IsNoted asked gathered.old gathered.new) }
{
    match asked {
        Asked::Instance(seen) => Ok(Some(seen)),
        Asked::Refuted(shown) => {
            gathered.proofs.push(shown)?;
            Ok(None)
        }
        Asked::GivenUp(lost) => {
            keep_lost(gathered, lost);
            Ok(None)
        }
    }
}

/// What is answered once all are asked.
fn answered(gathered: Gathered) -> Found
    ensures { result ≡ found_of gathered }
{
    let Gathered { proofs, lost } = gathered;
    match lost {
        Some(lost) => Found::GivenUp(lost),
        None => Found::Refuted(proofs),
    }
}

/// The clauses that are asked, those last for whose query there is a tree.
fn in_order(
    alloc: Global,
    sys: &IndexedSystem,
    pred: Option<u32>,
    k: u32,
    trees: &[Carried],
) -> Result<Vec<u32>, Memory>
    ensures { IfOk result (λ numbers. AreAsked sys.now pred k numbers.items) }
{
    let mut numbers = asked_clauses(alloc, sys, pred, k)?;
    if trees.len() == 0 {
        return Ok(numbers);
    }
    numbers.sort_by_key(|number| trees_for(trees, *number))?;
    Ok(numbers)
}

/// Asks the goal of each clause whose head is of the predicate, or false for none, as `ask_all` does,
/// with proofs of another goal on the same predicate under the same lemmas: a clause whose proof is one
/// of this goal, too, but for the numbers of its literals, needs no search. The other clauses are asked
/// first.
pub fn ask_all_by(
    alloc: Global,
    sys: &IndexedSystem,
    frames: &Frames,
    pred: Option<u32>,
    goal: &Goal,
    k: u32,
    nodes: u32,
    old: &[Shown],
) -> Result<Found, Memory>
    requires asks { MayAskAll sys.now frames.now.lemmas pred goal.now }
    requires some { 0 < nodes }
    ensures { IfOk result (IsFound sys.now frames.now.lemmas pred goal.now k nodes) }
{
    frames_are_kept(frames);
    let mut trees = all_carried(alloc, sys, goal, old)?;
    let numbers = in_order(alloc, sys, pred, k, trees.as_slice())?;
    let mut gathered = Gathered {
        proofs: Items::new(alloc),
        lost: None,
    };
    for number in numbers.as_slice() {
        let tree = taken(&mut trees, *number);
        let asked = ask_clause(alloc, sys, frames, *number, pred, goal, k, nodes, tree)?;
        if let Some(seen) = note(&mut gathered, asked)? {
            return Ok(Found::Instance(seen));
        }
    }
    Ok(answered(gathered))
}

/// Asks the goal of each clause whose head is of the predicate, or false for none, under lemmas of
/// level k or more; at level 0 of those without a body. A search has at most `nodes` inner nodes. An
/// instance comes first; else the first query that was given up.
pub fn ask_all(
    alloc: Global,
    sys: &IndexedSystem,
    frames: &Frames,
    pred: Option<u32>,
    goal: &Goal,
    k: u32,
    nodes: u32,
) -> Result<Found, Memory>
    requires asks { MayAskAll sys.now frames.now.lemmas pred goal.now }
    requires some { 0 < nodes }
    ensures { IfOk result (IsFound sys.now frames.now.lemmas pred goal.now k nodes) }
{
    ask_all_by(alloc, sys, frames, pred, goal, k, nodes, &[])
}
