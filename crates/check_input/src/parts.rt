//! The parts of an input.

ghost use Rattle.std.specs.Prelude.{◌≤◌, length};
ghost use Rattle.check_input.specs.Inputs.{IsParted};

use crate::cut::{Cut, cut_at_marker};

/// Where the script ends and the answer begins. Without a marker both is at the input's end.
pub(crate) fn parts_of(input: &[u8]) -> Cut
    ensures parted { IsParted input.now result.script result.answer }
    ensures script_within { result.script ≤ length input.now }
    ensures answer_within { result.answer ≤ length input.now }
{
    match cut_at_marker(input) {
        Some(cut) => cut,
        None => Cut {
            script: input.len(),
            answer: input.len(),
        },
    }
}
