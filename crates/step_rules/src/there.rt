ghost use Rattle.std.specs.Prelude.{◌≡◌, Some};
ghost use Rattle.std.specs.List.{list_all};
ghost use Rattle.book_rules.specs.Places.{goal_has_places, has_places, head_of, is_over, is_over_atom, is_within, no_lift_has_places, places_of, shown_has_places, used_has_places, why_has_places};
ghost use Rattle.step_rules.specs.Taken.{step_of};
ghost use Rattle.step_rules.specs.Tokens.{all_no_lifts, all_shown, all_used, goal_of, why_of};

use crate::raise_step::rules::clause_of;
use crate::step::Step;
use chc_tokens::{Goal, NoLift, Shown, Used, Why};
use clause_form::{Atom, System};
use cube_forms::Cube;

/// Whether the predicate is there, and has each place of the cube.
pub(crate) fn is_over(sys: &System, pred: u32, cube: &Cube) -> bool
    ensures { result ≡ is_over sys.now.preds pred cube.now }
{
    match sys.preds().get(pred as usize) {
        Some(sorts) => cube.is_below(sorts.len()),
        None => false,
    }
}

/// Whether the cube names only places of the predicate; so too where that isn't there.
fn is_within(sys: &System, pred: u32, cube: &Cube) -> bool
    ensures { result ≡ is_within (places_of sys.now.preds (Some pred)) cube.now }
{
    match sys.preds().get(pred as usize) {
        Some(sorts) => cube.is_below(sorts.len()),
        None => true,
    }
}

/// Whether the cube is over the predicate of the body atom of that number; so too where it isn't
/// there.
fn is_over_body(sys: &System, clause: u32, number: u32, cube: &Cube) -> bool
    ensures { result ≡ used_has_places sys.now clause (record { atom = number; cube = cube.now }) }
{
    match sys.clauses().get(clause as usize) {
        Some(clause) => match clause.atoms.as_slice().get(number as usize) {
            Some(atom) => is_over(sys, atom.pred, cube),
            None => true,
        },
        None => true,
    }
}

/// Whether the cube is over the predicate of a head; so too where the head is false.
fn is_over_atom(sys: &System, atom: &Option<Atom>, cube: &Cube) -> bool
    ensures { result ≡ is_over_atom sys.now.preds atom.now cube.now }
{
    match atom {
        Some(atom) => is_over(sys, atom.pred, cube),
        None => true,
    }
}

/// Whether the cube is over the predicate of the head of the clause of that number; so too where the
/// head is false, or the clause isn't there.
fn is_over_head(sys: &System, clause: u32, cube: &Cube) -> bool
    ensures { result ≡ is_over_atom sys.now.preds (head_of sys.now clause) cube.now }
{
    match sys.clauses().get(clause as usize) {
        Some(clause) => is_over_atom(sys, &clause.head, cube),
        None => true,
    }
}

/// Whether each used lemma has its places on its atom.
fn all_used_fit(sys: &System, clause: u32, used: &[Used]) -> bool
    ensures { result ≡ list_all (used_has_places sys.now clause) (all_used used.now) }
{
    for one in used {
        if !is_over_body(sys, clause, one.atom, one.lemma.cube()) {
            return false;
        }
    }
    true
}

fn goal_fits(sys: &System, clause: u32, goal: &Goal) -> bool
    ensures { result ≡ goal_has_places sys.now clause (goal_of goal.now) }
{
    match goal {
        Goal::Query => true,
        Goal::Holds(lemma) => is_over_head(sys, clause, lemma.cube()),
    }
}

/// Whether the goal and the used lemmas of each proof do.
fn all_shown_fit(sys: &System, proofs: &[Shown]) -> bool
    ensures { result ≡ list_all (shown_has_places sys.now) (all_shown proofs.now) }
{
    for proof in proofs {
        if !goal_fits(sys, proof.clause(), proof.goal())
            || !all_used_fit(sys, proof.clause(), proof.used())
        {
            return false;
        }
    }
    true
}

fn why_fits(sys: &System, why: &Why) -> bool
    ensures { result ≡ why_has_places sys.now (why_of why.now) }
{
    match why {
        Why::Broken(_) => true,
        Why::Unknown { clause, used, .. } => all_used_fit(sys, *clause, used.as_slice()),
    }
}

fn all_kept_fit(sys: &System, kept: &[NoLift]) -> bool
    ensures { result ≡ list_all (no_lift_has_places sys.now) (all_no_lifts kept.now) }
{
    for one in kept {
        if !is_over_head(sys, clause_of(one.why()), one.lemma().cube())
            || !why_fits(sys, one.why())
        {
            return false;
        }
    }
    true
}

/// Whether the step's cubes and lemmas name only places that their predicates have, which are there:
/// what `Book::commit` asks. That the lemma of a Strengthen does, rule 80 asks.
pub fn has_places(sys: &System, step: &Step) -> bool
    ensures { result ≡ has_places sys.now (step_of step.now) }
{
    match step {
        Step::OpenStep(open) => is_over_body(sys, open.seen.clause(), open.atom, &open.cube),
        Step::LemmaStep(learn) => {
            is_within(sys, learn.pred, learn.lemma.cube())
                && all_shown_fit(sys, learn.proofs.as_slice())
        }
        Step::FactStep(_) => true,
        Step::LiftStep(lift) => all_shown_fit(sys, lift.proofs.as_slice()),
        Step::RaiseStep(raise) => {
            all_shown_fit(sys, raise.closed.as_slice()) && all_kept_fit(sys, raise.kept.as_slice())
        }
        Step::StallStep(stall) => all_used_fit(sys, stall.clause, stall.used.as_slice()),
        Step::DeriveStep(_) => true,
        Step::StrengthenStep(strengthen) => all_shown_fit(sys, strengthen.proofs.as_slice()),
    }
}
