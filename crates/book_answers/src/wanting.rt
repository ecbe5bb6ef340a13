//! What is told of a book for whose answer memory was wanted.

ghost use Rattle.std.specs.Prelude.{◌≡◌, ◌≤◌, ◌++◌, codes, take};
ghost use Rattle.answer_text.specs.Lines.{level_text};
ghost use Rattle.answer_text.specs.declared.answer.UnknownCause.TheVariants.{NoMemory};

use answer_text::{UnknownCause, level_line};

/// Writes `unknown` and the closed level to the front of `into`, where memory is wanted, and answers
/// their length. It takes no memory.
pub fn unfinished_lines(level: u32, into: &mut [u8; 72]) -> usize
    ensures within { result ≤ 72 }
    ensures text { take result into.new ≡ codes "unknown\n" ++ level_text level NoMemory }
{
    let mut line = [0; 64];
    let length = level_line(level, UnknownCause::NoMemory, &mut line);
    into[..8].copy_from_slice(b"unknown\n");
    into[8..8 + length].copy_from_slice(&line[..length]);
    8 + length
}
