//! The rules of Lift. Each answers what breaks it, if anything.

ghost use Rattle.std.specs.Prelude.{◌≡◌, ◌==◌, ◌<◌, ◌^◌, length, if◌then◌else◌, Some, None, IfOk};
ghost use Rattle.book_rules.specs.declared.by.By.TheVariants.{Lemma as ByLemma};
ghost use Rattle.book_rules.specs.Proofs.{unshown};
ghost use Rattle.step_rules.specs.Tokens.{all_shown};
ghost use Rattle.book_rules.specs.LemmaRules.{rule_30, rule_31, rule_32, rule_33};
ghost use Rattle.step_rules.specs.Taken.{lift_of};
ghost use Rattle.step_rules.specs.Standing.{standing_state};

use crate::claim::Claim;
use crate::lent::Lent;
use crate::lift_step::part::LiftPart;
use crate::proving::{misused, unshown};
use base::{Copied, Memory};
use book_rules::By;
use cube_forms::Lemma;

/// What is told of a lemma of a number by the level that it is lifted from.
fn told_of_level(id: u32, from: u32, level: u32) -> Option<By>
    ensures { result ≡ (if level == from then None else Some (ByLemma id)) }
{
    if level == from {
        return None;
    }
    Some(By::Lemma(id))
}

/// 30: the lemma is there, and of the level that it is lifted from.
pub(crate) fn lift_rule_30_lemma_has_level(parts: &Lent, step: &LiftPart) -> Option<By>
    ensures { result ≡ rule_30 (standing_state parts.now) (lift_of step.now) }
{
    if step.lemma >= parts.frames.count() {
        return Some(By::Step);
    }
    told_of_level(step.lemma, step.from, parts.frames.level_of(step.lemma))
}

/// 31: the level above is at most the book's.
pub(crate) fn lift_rule_31_level_above_is_in_book(parts: &Lent, step: &LiftPart) -> Option<By>
    ensures { result ≡ rule_31 (standing_state parts.now) (lift_of step.now) }
{
    if parts.level <= step.from {
        return Some(By::Level(parts.level));
    }
    None
}

/// What is told of a lemma on a predicate by rule 32.
fn unlifted(parts: &Lent, step: &LiftPart, pred: u32, lemma: &Lemma) -> Result<Option<By>, Memory>
    requires { length parts.now.system.clauses < 2 ^ 32 }
    ensures { IfOk result (λ by. by ≡ unshown parts.now.system step.now.from (Some (record { pred = pred; cube = lemma.now })) (all_shown step.now.proofs)) }
{
    let claim = Claim::Holds(pred, lemma.copy(parts.alloc)?);
    Ok(unshown(
        parts.system.plain(),
        step.from,
        &claim,
        step.proofs.as_slice(),
    ))
}

/// 32: each clause of that head has a proof of this lemma.
pub(crate) fn lift_rule_32_each_clause_has_proof(
    parts: &Lent,
    step: &LiftPart,
) -> Result<Option<By>, Memory>
    requires { length parts.now.system.clauses < 2 ^ 32 }
    ensures { IfOk result (λ by. by ≡ rule_32 parts.now.system (standing_state parts.now) (lift_of step.now)) }
{
    if step.lemma >= parts.frames.count() {
        return Ok(None);
    }
    let pred = parts.frames.pred_of(step.lemma);
    let by = unlifted(parts, step, pred, parts.frames.lemma(step.lemma))?;
    Ok(by)
}

/// 33: each used lemma is in the frame of the level that it is lifted from.
pub(crate) fn lift_rule_33_used_lemmas_are_in_frame(parts: &Lent, step: &LiftPart) -> Option<By>
    ensures { result ≡ rule_33 parts.now.system (standing_state parts.now) (lift_of step.now) }
{
    let (sys, proofs) = (parts.system.plain(), step.proofs.as_slice());
    misused(sys, parts.frames, step.from, &Claim::False, proofs)
}
