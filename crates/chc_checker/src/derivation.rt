//! Answers that a script is unsatisfiable.

ghost use Rattle.std.specs.Prelude.{ℕ, List, IfOk};
ghost use Rattle.horn_shape.specs.Clause.{IsLegalScript};
ghost use Rattle.answer_text.specs.declared.answer.Answer.TheVariants.{Unsat};
ghost use Rattle.check_derivation.specs.Findings.{Finds};
ghost use Rattle.chc_checker.specs.Verdicts.{IsNormalScript, Says};

use crate::verdict::{Hidden, Place, Unshown, Verdict};
use answer_text::Line;
use base::Memory;
use check_derivation::{Finding, check_derivation};
use std::alloc::Global;
use term_tree::Script;

/// The verdict by what is found of the steps.
fn verdict_of(finding: Finding) -> Verdict
    ensures { (nodes : ℕ) (script : Script) (lines : List Line) → Finds script lines finding → Says nodes script (Unsat lines) result }
{
    match finding {
        Finding::Derives => Verdict::Valid,
        Finding::WrongAt(number) => Verdict::Wrong {
            place: Place::Step(number),
        },
        Finding::WideAt { step, term } => Verdict::NotShown {
            place: Hidden::Step(step),
            evidence: Unshown::Value(term),
        },
    }
}

/// Whether the steps derive false by the assertions of the script.
pub(crate) fn check_steps(alloc: Global, script: &Script, lines: &[Line]) -> Result<Verdict, Memory>
    requires legal { IsLegalScript script.now }
    requires normal { IsNormalScript script.now }
    ensures { (nodes : ℕ) → IfOk result (Says nodes script.now (Unsat lines.now)) }
{
    let finding = check_derivation(alloc, script, lines)?;
    Ok(verdict_of(finding))
}
