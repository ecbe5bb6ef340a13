//! A book that is led on: the oldest live obligation without live children is asked, a lemma is made
//! more general and raised, and the book takes the step.

ghost use Rattle.std.specs.Prelude.{◌≡◌, ◌<◌, None, IfOk, IfSome, IsTrue, length};
ghost use Rattle.std.specs.Bool.{OnTrue};
ghost use Rattle.book_rules.specs.Legal.{end};
ghost use Rattle.chc_core.specs.Views.{standing_of, state_of};
ghost use Rattle.search_strategy.specs.Runs.{CanRun};
ghost use Rattle.lemma_general.specs.Generals.{IsLearnt};
ghost use Rattle.test_turns.specs.Led.{AreThin, HaveThin, IsFree, IsGiven, IsOn};

use base::Memory;
use chc_core::{Book, Step};
use cube_forms::Lemma;
use cube_rules::is_wide;
use lemma_frames::Frames;
use lemma_general::{generalise, lift, raise, strengthen};
use obligation_tree::Tree;
use obligation_turn::turn;
use step_rules::LemmaPart;

/// How many inner nodes a query may have.
const NODES: u32 = 1000;

/// Whether the obligation may be asked.
fn is_job(tree: &Tree, id: u32) -> bool
    requires { id < length tree.now.nodes }
    ensures { IsTrue result → IsFree tree.now.nodes id }
{
    tree.is_live(id) && !tree.has_live_child(id) && !tree.is_stalled(id)
}

/// The oldest one that may be asked.
fn job_of(tree: &Tree) -> Option<u32>
    ensures { IfSome result (IsFree tree.now.nodes) }
{
    for id in 0..tree.count() {
        if is_job(tree, id) {
            return Some(id);
        }
    }
    None
}

/// Whether the cubes of all lemmas are thin.
fn are_thin(frames: &Frames) -> bool
    ensures { OnTrue result (AreThin frames.now.lemmas) }
{
    for id in 0..frames.count() {
        if is_wide(frames.lemma(id).cube().lits()) {
            return false;
        }
    }
    true
}

/// Whether those of all obligations are.
fn have_thin(tree: &Tree) -> bool
    ensures { OnTrue result (HaveThin tree.now.nodes) }
{
    for id in 0..tree.count() {
        if is_wide(tree.obligation(id).cube.lits()) {
            return false;
        }
    }
    true
}

/// Whether the book has no end.
pub(crate) fn goes_on(book: &Book) -> bool
    ensures { OnTrue result (end (state_of book.now) ≡ None) }
{
    book.end().is_none()
}

/// Whether the book can be led on: its cubes are thin, as they always are.
fn is_on(book: &Book) -> bool
    requires { CanRun book.now.system }
    ensures { OnTrue result (IsOn book.now) }
{
    goes_on(book) && are_thin(book.frames()) && have_thin(book.tree())
}

/// A more general lemma, as high as it goes.
fn better(book: &Book, part: LemmaPart) -> Result<LemmaPart, Memory>
    requires on { IsOn book.now }
    requires learnt { IsLearnt (standing_of book.now) part }
    ensures { IfOk result (IsLearnt (standing_of book.now)) }
{
    let _facts = book.facts();
    let lent = book.lend();
    let general = generalise(&lent, part, NODES)?;
    let raised = raise(&lent, general, NODES)?;
    Ok(raised)
}

/// The step, where it is a Lemma with a better one.
fn improved(book: &Book, step: Step) -> Result<Step, Memory>
    requires on { IsOn book.now }
    requires given { IsGiven (standing_of book.now) step }
    ensures { IfOk result (IsGiven (standing_of book.now)) }
{
    match step {
        Step::LemmaStep(part) => {
            let learnt = better(book, part)?;
            Ok(Step::LemmaStep(learnt))
        }
        other => Ok(other),
    }
}

/// The step of the next turn.
fn next_step(book: &Book) -> Result<Option<Step>, Memory>
    requires on { IsOn book.now }
    ensures { IfOk result (λ found. IfSome found (IsGiven (standing_of book.now))) }
{
    let Some(job) = job_of(book.tree()) else {
        return Ok(None);
    };
    let _facts = book.facts();
    let lent = book.lend();
    let step = turn(&lent, job, NODES)?;
    let taken = improved(book, step)?;
    Ok(Some(taken))
}

/// The book takes the step. Whether it did.
fn take(book: &mut Book, step: Step) -> bool
    requires can_run { CanRun book.old.system }
    requires given { IsGiven (standing_of book.old) step }
    ensures { CanRun book.new.system }
{
    match book.commit(1, step) {
        Ok(_) => true,
        Err(_) => false,
    }
}

/// One turn. Whether the book took a step.
fn lead(book: &mut Book) -> Result<bool, Memory>
    requires { CanRun book.old.system }
    ensures { CanRun book.new.system }
{
    if !is_on(book) {
        return Ok(false);
    }
    let step = next_step(book)?;
    match step {
        Some(step) => Ok(take(book, step)),
        None => Ok(false),
    }
}

/// Leads the book on by the given number of turns, or by fewer where it ends before.
pub(crate) fn lead_on(book: &mut Book, turns: u32) -> Result<(), Memory>
    requires { CanRun book.old.system }
    ensures { CanRun book.new.system }
{
    for _ in 0..turns {
        if !lead(book)? {
            return Ok(());
        }
    }
    Ok(())
}

/// Whether the lemma of that number is one below the book's level that can't be lifted.
pub(crate) fn stays(book: &Book, id: u32) -> Result<bool, Memory>
    requires { CanRun book.now.system }
{
    if !is_on(book) || id >= book.frames().count() || book.frames().level_of(id) >= book.level() {
        return Ok(false);
    }
    let _facts = book.facts();
    let lent = book.lend();
    let found = lift(&lent, id, NODES)?;
    Ok(found.is_none())
}

/// The step that adds the lemma at the level, if there is one.
fn entry_of(book: &Book, pred: u32, lemma: &Lemma, level: u32) -> Result<Option<Step>, Memory>
    requires { IsOn book.now }
    ensures { IfOk result (λ found. IfSome found (IsGiven (standing_of book.now))) }
{
    let _facts = book.facts();
    let lent = book.lend();
    match strengthen(&lent, pred, lemma, level, NODES)? {
        Some(part) => Ok(Some(Step::StrengthenStep(part))),
        None => Ok(None),
    }
}

/// Adds the lemma at the level, for no obligation: whether the book took the step, where there is one.
pub(crate) fn enter(
    book: &mut Book,
    pred: u32,
    lemma: &Lemma,
    level: u32,
) -> Result<Option<bool>, Memory>
    requires { CanRun book.old.system }
    ensures { CanRun book.new.system }
{
    if !is_on(book) {
        return Ok(None);
    }
    let step = entry_of(book, pred, lemma, level)?;
    match step {
        Some(step) => Ok(Some(take(book, step))),
        None => Ok(None),
    }
}
