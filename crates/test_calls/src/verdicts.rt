//! The verdict on the text of an answer.

ghost use Rattle.std.specs.Prelude.{◌<◌, ◌^◌, length, IfOk};
ghost use Rattle.horn_shape.specs.Clause.{IsLegalScript};

use base::Memory;
use chc_checker::{Verdict, check_text as check_answer_text, systems_can_be_checked};
use clause_normal::{ClauseStop, read_clauses};
use sort_check::{assertions_are_legal, check_text, scripts_are_within_limits};
use std::alloc::Global;
use term_tree::Checked;

/// The script of a text, up to the first command that is illegal by itself.
fn checked(alloc: Global, text: &[u8]) -> Result<Checked, Memory>
    requires { length text.now < 2 ^ 32 }
    ensures { IfOk result (λ checked. IsLegalScript checked.script) }
{
    let checked = check_text(alloc, text)?;
    checked.script.terms.arena_law();
    assertions_are_legal();
    scripts_are_within_limits();
    Ok(checked)
}

/// The verdict on a text as an answer to the script of another; none where there is no such script.
pub(crate) fn verdict(
    alloc: Global,
    text: &[u8],
    answer: &[u8],
    nodes: u32,
) -> Result<Option<Verdict>, Memory>
    requires text { length text.now < 2 ^ 32 }
    requires answer { length answer.now < 2 ^ 32 }
    requires some { 0 < nodes }
{
    let checked = checked(alloc, text)?;
    systems_can_be_checked();
    match read_clauses(alloc, &checked) {
        Ok(_) => {
            let verdict = check_answer_text(alloc, &checked.script, answer, nodes)?;
            Ok(Some(verdict))
        }
        Err(ClauseStop::Refused(_)) => Ok(None),
        Err(ClauseStop::Memory) => Err(Memory),
    }
}
