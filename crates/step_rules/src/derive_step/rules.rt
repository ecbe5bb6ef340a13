//! The rules of Derive. Each answers what breaks it, if anything.

ghost use Rattle.std.specs.Prelude.{◌≡◌, IfOk};
ghost use Rattle.book_rules.specs.FactRules.{rule_70, rule_71};
ghost use Rattle.step_rules.specs.Taken.{derive_of};
ghost use Rattle.step_rules.specs.Standing.{standing_state};
ghost use Rattle.step_rules.specs.Falsity.{IsLastFalse};

use crate::derive_step::part::DerivePart;
use crate::lent::Lent;
use crate::recording::{if_recorded, unless_body};
use base::Memory;
use book_rules::By;

/// 70: the premises are as many as the body atoms, each is there, and each is its body atom's tuple.
pub(crate) fn derive_rule_70_premises_are_body(
    parts: &Lent,
    step: &DerivePart,
) -> Result<Option<By>, Memory>
    ensures { IfOk result (λ by. by ≡ rule_70 parts.now.system (standing_state parts.now) (derive_of step.now)) }
{
    unless_body(parts, &step.seen, step.premises.as_slice())
}

/// 71: the conclusion isn't recorded.
pub(crate) fn derive_rule_71_conclusion_is_new(
    parts: &Lent,
    step: &DerivePart,
) -> Result<Option<By>, Memory>
    requires { IsLastFalse parts.now.facts }
    ensures { IfOk result (λ by. by ≡ rule_71 parts.now.system (standing_state parts.now) (derive_of step.now)) }
{
    if_recorded(parts, &step.seen)
}
