//! The rules of Lemma. Each answers what breaks it, if anything.

ghost use Rattle.std.specs.Prelude.{◌≡◌, ◌<◌, ◌^◌, length, IfOk};
ghost use Rattle.book_rules.specs.LemmaRules.{closes, rule_10, rule_11, rule_12, rule_13, rule_14};
ghost use Rattle.step_rules.specs.Taken.{learn_of, learnt_of};
ghost use Rattle.step_rules.specs.Views.{fresh_of};
ghost use Rattle.step_rules.specs.Standing.{standing_state};

use crate::learning::{unfounded, unless_level, unproved};
use crate::lemma_step::part::LemmaPart;
use crate::lent::Lent;
use crate::levels::unless_live;
use base::Memory;
use book_rules::By;
use obligation_tree::Obligation;

/// 10: the level is from 1 to the book's.
pub(crate) fn lemma_rule_10_level_is_in_book(parts: &Lent, step: &LemmaPart) -> Option<By>
    ensures { result ≡ rule_10 (standing_state parts.now) (learn_of step.now) }
{
    unless_level(parts, step.level)
}

/// 11: each clause of that head has a proof of this lemma.
pub(crate) fn lemma_rule_11_each_clause_has_proof(
    parts: &Lent,
    step: &LemmaPart,
) -> Result<Option<By>, Memory>
    requires { length parts.now.system.clauses < 2 ^ 32 }
    ensures { IfOk result (λ by. by ≡ rule_11 parts.now.system (learn_of step.now)) }
{
    let proofs = step.proofs.as_slice();
    unproved(parts, step.pred, &step.lemma, step.level, proofs)
}

/// 12: each used lemma is in the frame of the level below, or this lemma on its own predicate.
pub(crate) fn lemma_rule_12_used_lemmas_are_below(
    parts: &Lent,
    step: &LemmaPart,
) -> Result<Option<By>, Memory>
    ensures { IfOk result (λ by. by ≡ rule_12 parts.now.system (standing_state parts.now) (learn_of step.now)) }
{
    let proofs = step.proofs.as_slice();
    unfounded(parts, step.pred, &step.lemma, step.level, proofs)
}

/// 13: the target is live.
pub(crate) fn lemma_rule_13_target_is_live(parts: &Lent, step: &LemmaPart) -> Option<By>
    ensures { result ≡ rule_13 (standing_state parts.now) (learn_of step.now) }
{
    unless_live(parts.tree, step.target)
}

/// Whether the lemma shuts the obligation's point out: it is of its predicate, and not of a lower
/// level.
fn closes(step: &LemmaPart, obligation: &Obligation) -> bool
    ensures { result ≡ closes (learnt_of step.now) step.now.level (fresh_of obligation.now) }
{
    match obligation.pred {
        Some(pred) => {
            pred == step.pred
                && obligation.level <= step.level
                && step.lemma.excludes(obligation.point.as_slice())
        }
        None => false,
    }
}

/// 14: the target is of the lemma's predicate and of no higher level, and its point is excluded.
pub(crate) fn lemma_rule_14_target_point_is_excluded(parts: &Lent, step: &LemmaPart) -> Option<By>
    ensures { result ≡ rule_14 (standing_state parts.now) (learn_of step.now) }
{
    if step.target >= parts.tree.count() {
        return None;
    }
    if closes(step, parts.tree.obligation(step.target)) {
        return None;
    }
    Some(By::Obligation(step.target))
}
