//! The rules of Fact. Each answers what breaks it, if anything.

ghost use Rattle.std.specs.Prelude.{◌≡◌, slice_get, IfOk};
ghost use Rattle.book_rules.specs.FactRules.{rule_20, rule_21, rule_22, rule_23};
ghost use Rattle.book_rules.specs.Walks.{on};
ghost use Rattle.step_rules.specs.machinery.Told.{unholding_told};
ghost use Rattle.step_rules.specs.Taken.{record_of};
ghost use Rattle.step_rules.specs.Views.{fresh_of, obligations_of};
ghost use Rattle.step_rules.specs.Standing.{standing_state};
ghost use Rattle.step_rules.specs.Falsity.{IsLastFalse};

use crate::conclusions::holds;
use crate::fact_step::part::FactPart;
use crate::lent::Lent;
use crate::levels::unless_live;
use crate::recording::{concluded, if_recorded, unless_body};
use base::Memory;
use book_rules::By;
use obligation_tree::Obligation;

/// 20: the premises are as many as the body atoms, each is there, and each is its body atom's tuple.
pub(crate) fn fact_rule_20_premises_are_body(
    parts: &Lent,
    step: &FactPart,
) -> Result<Option<By>, Memory>
    ensures { IfOk result (λ by. by ≡ rule_20 parts.now.system (standing_state parts.now) (record_of step.now)) }
{
    unless_body(parts, &step.seen, step.premises.as_slice())
}

/// 21: the conclusion isn't recorded.
pub(crate) fn fact_rule_21_conclusion_is_new(
    parts: &Lent,
    step: &FactPart,
) -> Result<Option<By>, Memory>
    requires { IsLastFalse parts.now.facts }
    ensures { IfOk result (λ by. by ≡ rule_21 parts.now.system (standing_state parts.now) (record_of step.now)) }
{
    if_recorded(parts, &step.seen)
}

/// 22: the target is live; it may be missing for false.
pub(crate) fn fact_rule_22_target_is_live(
    parts: &Lent,
    step: &FactPart,
) -> Result<Option<By>, Memory>
    ensures { IfOk result (λ by. by ≡ rule_22 parts.now.system (standing_state parts.now) (record_of step.now)) }
{
    match step.target {
        Some(target) => Ok(unless_live(parts.tree, target)),
        None => match concluded(parts, &step.seen)? {
            Some(_) => Ok(Some(By::Step)),
            None => Ok(None),
        },
    }
}

/// What is told of a target by rule 23.
fn told_of_target(
    parts: &Lent,
    step: &FactPart,
    id: u32,
    target: &Obligation,
) -> Result<Option<By>, Memory>
    ensures { IfOk result (λ by. by ≡ unholding_told parts.now.system (record_of step.now) id (fresh_of target.now)) }
{
    let conclusion = concluded(parts, &step.seen)?;
    if holds(target, &conclusion) {
        return Ok(None);
    }
    Ok(Some(By::Obligation(id)))
}

/// What is told by rule 23 of the target of that number; nothing where there is no such obligation.
fn told_at(parts: &Lent, step: &FactPart, id: u32) -> Result<Option<By>, Memory>
    ensures { IfOk result (λ by. by ≡ on (slice_get (obligations_of parts.now.tree.nodes) id) (unholding_told parts.now.system (record_of step.now) id)) }
{
    if id >= parts.tree.count() {
        return Ok(None);
    }
    let by = told_of_target(parts, step, id, parts.tree.obligation(id))?;
    Ok(by)
}

/// 23: a target that is given holds the conclusion.
pub(crate) fn fact_rule_23_target_holds_conclusion(
    parts: &Lent,
    step: &FactPart,
) -> Result<Option<By>, Memory>
    ensures { IfOk result (λ by. by ≡ rule_23 parts.now.system (standing_state parts.now) (record_of step.now)) }
{
    match step.target {
        Some(id) => told_at(parts, step, id),
        None => Ok(None),
    }
}
