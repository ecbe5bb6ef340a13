//! The rules of Raise. Each answers what breaks it, if anything.

ghost use Rattle.std.specs.Prelude.{◌≡◌, ◌+◌, ◌<◌, ◌≤◌, ◌^◌, length, slice_get, IfOk};
ghost use Rattle.book_rules.specs.RaiseRules.{is_no_lift_of, rule_40, rule_41, rule_42, rule_43, rule_44, seen_outside, evidence_outside, why_clause};
ghost use Rattle.step_rules.specs.Taken.{raise_of};
ghost use Rattle.step_rules.specs.Tokens.{no_lift_of, why_of};
ghost use Rattle.cube_rules.specs.Views.{framed_at};
ghost use Rattle.step_rules.specs.Standing.{standing_state};
ghost use Rattle.step_rules.specs.machinery.Places.{kept_told, pair_told, place_after, told_below};

use crate::claim::Claim;
use crate::lent::Lent;
use crate::proving::{all_may_use, misused, unshown};
use crate::raise_step::part::RaisePart;
use base::Memory;
use book_rules::By;
use chc_tokens::{NoLift, Why};
use cube_rules::{body_shut_out, is_head, same_lemma};

/// 40: each clause with head false has a proof of the query.
pub(crate) fn raise_rule_40_each_query_has_proof(parts: &Lent, step: &RaisePart) -> Option<By>
    requires { length parts.now.system.clauses < 2 ^ 32 }
    ensures { result ≡ rule_40 parts.now.system (standing_state parts.now) (raise_of step.now) }
{
    unshown(
        parts.system.plain(),
        parts.level,
        &Claim::False,
        step.closed.as_slice(),
    )
}

/// 41: each used lemma is in the frame of the book's level.
pub(crate) fn raise_rule_41_used_lemmas_are_in_frame(parts: &Lent, step: &RaisePart) -> Option<By>
    ensures { result ≡ rule_41 parts.now.system (standing_state parts.now) (raise_of step.now) }
{
    let (sys, proofs) = (parts.system.plain(), step.closed.as_slice());
    misused(sys, parts.frames, parts.level, &Claim::False, proofs)
}

/// The clause of an instance or of evidence.
pub(crate) fn clause_of(why: &Why) -> u32
    ensures { result ≡ why_clause (why_of why.now) }
{
    match why {
        Why::Broken(seen) => seen.clause(),
        Why::Unknown { clause, .. } => *clause,
    }
}

/// Whether it is of the lemma of that number, through a clause of its head.
fn is_no_lift_of(parts: &Lent, id: u32, kept: &NoLift) -> bool
    requires { id < length parts.now.frames.lemmas }
    ensures { result ≡ is_no_lift_of parts.now.system (framed_at parts.now.frames.lemmas id).lemma (no_lift_of kept.now) }
{
    if !same_lemma(kept.lemma(), parts.frames.lemma(id)) {
        return false;
    }
    match parts.system.clauses().get(clause_of(kept.why()) as usize) {
        Some(clause) => is_head(Some(parts.frames.pred_of(id)), &clause.head),
        None => false,
    }
}

/// The place of the next NoLift, behind the lemma of that number.
fn next_place(parts: &Lent, id: u32, place: usize) -> usize
    requires there { id < length parts.now.frames.lemmas }
    requires room { place ≤ id }
    ensures is { result ≡ place_after parts.now.level (framed_at parts.now.frames.lemmas id) place }
    ensures room { result ≤ id + 1 }
{
    if parts.frames.level_of(id) < parts.level {
        return place + 1;
    }
    place
}

/// What is told of the lemma of that number by rule 42, where its NoLift has that place.
fn unkept_at(parts: &Lent, id: u32, kept: &[NoLift], place: usize) -> Option<By>
    requires { id < length parts.now.frames.lemmas }
    ensures { result ≡ told_below parts.now.level (framed_at parts.now.frames.lemmas id) (kept_told parts.now.system (id, framed_at parts.now.frames.lemmas id) (slice_get kept.now place)) }
{
    if parts.frames.level_of(id) >= parts.level {
        return None;
    }
    match kept.get(place) {
        Some(one) => {
            if is_no_lift_of(parts, id, one) {
                None
            } else {
                Some(By::Lemma(id))
            }
        }
        None => Some(By::Lemma(id)),
    }
}

/// 42: each lemma of a level below the book's has its NoLift in its place, and none is left over.
pub(crate) fn raise_rule_42_each_lower_lemma_has_no_lift(
    parts: &Lent,
    step: &RaisePart,
) -> Option<By>
    ensures { result ≡ rule_42 parts.now.system (standing_state parts.now) (raise_of step.now) }
{
    let kept = step.kept.as_slice();
    let mut place = 0;
    for id in 0..parts.frames.count() {
        match unkept_at(parts, id, kept, place) {
            Some(by) => return Some(by),
            None => {}
        }
        place = next_place(parts, id, place);
    }
    if place < kept.len() {
        return Some(By::Step);
    }
    None
}

/// What is told of the lemma of that number and its NoLift by rule 43.
fn outside(parts: &Lent, id: u32, why: &Why) -> Result<Option<By>, Memory>
    requires { id < length parts.now.frames.lemmas }
    ensures { IfOk result (λ by. by ≡ seen_outside parts.now.system (standing_state parts.now) (id, framed_at parts.now.frames.lemmas id) (why_of why.now)) }
{
    let k = parts.frames.level_of(id);
    match why {
        Why::Broken(seen) => {
            match parts.system.clauses().get(seen.clause() as usize) {
                Some(clause) => body_shut_out(parts.alloc, parts.frames, k, seen.point(), clause),
                None => Ok(None),
            }
        }
        Why::Unknown { .. } => Ok(None),
    }
}

/// What is told by rule 43 of the lemma of that number and the NoLift at that place; nothing where the
/// lemma isn't below the book's level, or no NoLift is there.
fn outside_at(parts: &Lent, id: u32, kept: &[NoLift], place: usize) -> Result<Option<By>, Memory>
    requires { id < length parts.now.frames.lemmas }
    ensures { IfOk result (λ by. by ≡ told_below parts.now.level (framed_at parts.now.frames.lemmas id)
        (pair_told (seen_outside parts.now.system (standing_state parts.now)) (id, framed_at parts.now.frames.lemmas id) (slice_get kept.now place))) }
{
    if parts.frames.level_of(id) >= parts.level {
        return Ok(None);
    }
    match kept.get(place) {
        Some(one) => outside(parts, id, one.why()),
        None => Ok(None),
    }
}

/// 43: no lemma of the frame of the lemma's level shuts out a body tuple of a NoLift's instance.
pub(crate) fn raise_rule_43_no_lemma_shuts_instance_out(
    parts: &Lent,
    step: &RaisePart,
) -> Result<Option<By>, Memory>
    ensures { IfOk result (λ by. by ≡ rule_43 parts.now.system (standing_state parts.now) (raise_of step.now)) }
{
    let kept = step.kept.as_slice();
    let mut place = 0;
    for id in 0..parts.frames.count() {
        match outside_at(parts, id, kept, place)? {
            Some(by) => return Ok(Some(by)),
            None => {}
        }
        place = next_place(parts, id, place);
    }
    Ok(None)
}

/// What is told of the lemma of that number and its NoLift by rule 44.
fn misuses(parts: &Lent, id: u32, why: &Why) -> Option<By>
    requires { id < length parts.now.frames.lemmas }
    ensures { result ≡ evidence_outside parts.now.system (standing_state parts.now) (id, framed_at parts.now.frames.lemmas id) (why_of why.now) }
{
    match why {
        Why::Broken(_) => None,
        Why::Unknown { clause, used, .. } => {
            let (sys, k) = (parts.system.plain(), parts.frames.level_of(id));
            let own = Claim::False;
            if all_may_use(sys, parts.frames, k, &own, *clause, used.as_slice()) {
                return None;
            }
            Some(By::Lemma(id))
        }
    }
}

/// What is told by rule 44 of the lemma of that number and the NoLift at that place; nothing where the
/// lemma isn't below the book's level, or no NoLift is there.
fn misuses_at(parts: &Lent, id: u32, kept: &[NoLift], place: usize) -> Option<By>
    requires { id < length parts.now.frames.lemmas }
    ensures { result ≡ told_below parts.now.level (framed_at parts.now.frames.lemmas id)
        (pair_told (evidence_outside parts.now.system (standing_state parts.now)) (id, framed_at parts.now.frames.lemmas id) (slice_get kept.now place)) }
{
    if parts.frames.level_of(id) >= parts.level {
        return None;
    }
    match kept.get(place) {
        Some(one) => misuses(parts, id, one.why()),
        None => None,
    }
}

/// 44: the evidence of a NoLift uses lemmas of the frame of the lemma's level alone.
pub(crate) fn raise_rule_44_evidence_uses_frame(parts: &Lent, step: &RaisePart) -> Option<By>
    ensures { result ≡ rule_44 parts.now.system (standing_state parts.now) (raise_of step.now) }
{
    let kept = step.kept.as_slice();
    let mut place = 0;
    for id in 0..parts.frames.count() {
        match misuses_at(parts, id, kept, place) {
            Some(by) => return Some(by),
            None => {}
        }
        place = next_place(parts, id, place);
    }
    None
}
