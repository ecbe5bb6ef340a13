//! The rules of Strengthen. Each answers what breaks it, if anything.

ghost use Rattle.std.specs.Prelude.{◌≡◌, ◌<◌, ◌^◌, length, IfOk};
ghost use Rattle.book_rules.specs.StrengthenRules.{rule_80, rule_81, rule_82, rule_83};
ghost use Rattle.step_rules.specs.Taken.{strengthen_of};
ghost use Rattle.step_rules.specs.Standing.{standing_state};

use crate::learning::{unfounded, unless_level, unproved};
use crate::lent::Lent;
use crate::strengthen_step::part::StrengthenPart;
use crate::there::is_over;
use base::Memory;
use book_rules::By;

/// 80: the predicate is there, and has each place of the lemma.
pub(crate) fn strengthen_rule_80_lemma_is_over_predicate(
    parts: &Lent,
    step: &StrengthenPart,
) -> Option<By>
    ensures { result ≡ rule_80 parts.now.system (strengthen_of step.now) }
{
    if is_over(parts.system.plain(), step.pred, step.lemma.cube()) {
        return None;
    }
    Some(By::Step)
}

/// 81: the level is from 1 to the book's.
pub(crate) fn strengthen_rule_81_level_is_in_book(parts: &Lent, step: &StrengthenPart) -> Option<By>
    ensures { result ≡ rule_81 (standing_state parts.now) (strengthen_of step.now) }
{
    unless_level(parts, step.level)
}

/// 82: each clause of that head has a proof of this lemma.
pub(crate) fn strengthen_rule_82_each_clause_has_proof(
    parts: &Lent,
    step: &StrengthenPart,
) -> Result<Option<By>, Memory>
    requires { length parts.now.system.clauses < 2 ^ 32 }
    ensures { IfOk result (λ by. by ≡ rule_82 parts.now.system (strengthen_of step.now)) }
{
    let proofs = step.proofs.as_slice();
    unproved(parts, step.pred, &step.lemma, step.level, proofs)
}

/// 83: each used lemma is in the frame of the level below, or this lemma on its own predicate.
pub(crate) fn strengthen_rule_83_used_lemmas_are_below(
    parts: &Lent,
    step: &StrengthenPart,
) -> Result<Option<By>, Memory>
    ensures { IfOk result (λ by. by ≡ rule_83 parts.now.system (standing_state parts.now) (strengthen_of step.now)) }
{
    let proofs = step.proofs.as_slice();
    unfounded(parts, step.pred, &step.lemma, step.level, proofs)
}
