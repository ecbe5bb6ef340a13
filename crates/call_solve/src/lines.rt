//! The line of a refusal.

ghost use Rattle.std.specs.Prelude.{◌≡◌, IfOk};
ghost use Rattle.answer_text.specs.Lines.{error_text};

use answer_text::error_line;
use base::Memory;
use std::alloc::Global;
use term_tree::Refusal;

/// The line of a refusal, in memory of its own.
pub(crate) fn refusal_line(alloc: Global, refusal: &Refusal) -> Result<Vec<u8>, Memory>
    ensures { IfOk result (λ line. line.items ≡ error_text refusal.now) }
{
    let mut front = [0; 128];
    let length = error_line(refusal, &mut front);
    let line = Vec::from_slice(alloc, &front[..length])?;
    Ok(line)
}
