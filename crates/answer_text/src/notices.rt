ghost use Rattle.std.specs.Prelude.{◌≡◌, ◌+◌, ◌≤◌, ◌++◌, length, take, decimal};
ghost use Rattle.term_tree.specs.Kind.{kind_word};
ghost use Rattle.answer_text.specs.Lines.{usage_text, memory_text, error_text, level_text};

use crate::answer::UnknownCause;
use itoa::Buffer;
use term_tree::{Kind, Refusal};

/// The line for words that are no command.
pub fn usage_line() -> &'static [u8]
    ensures { result.now ≡ usage_text }
{
    b"usage: chc solve [--workers N] [--units N] [--nodes N] | check [--nodes N] | gen --depth N --seed N\n"
}

/// The line for want of memory.
pub fn memory_line() -> &'static [u8]
    ensures { result.now ≡ memory_text }
{
    b"(error \"out of memory\")\n"
}

/// Writes the line of an unknown answer to the front of `into`, and answers its length.
pub fn level_line(level: u32, cause: UnknownCause, into: &mut [u8; 64]) -> usize
    ensures within { result ≤ 64 }
    ensures text { take result into.new ≡ level_text level cause }
{
    let at = put(into, 0, b"; level ");
    let at = put_number(into, at, u64::from(level));
    match cause {
        UnknownCause::Units(units) => {
            let at = put(into, at, b" units ");
            let at = put_number(into, at, u64::from(units));
            put(into, at, b"\n")
        }
        UnknownCause::Stalled => put(into, at, b" stalled\n"),
        UnknownCause::NoMemory => put(into, at, b" memory\n"),
    }
}

/// Writes the line of a refusal to the front of `into`, and answers its length.
pub fn error_line(refusal: &Refusal, into: &mut [u8; 128]) -> usize
    ensures within { result ≤ 128 }
    ensures text { take result into.new ≡ error_text refusal.now }
{
    let at = put(into, 0, b"(error \"kind ");
    let at = put_number(into, at, u64::from(refusal.kind.number()));
    let at = put(into, at, b" ");
    let at = put(into, at, word(refusal.kind));
    let at = put(into, at, b" at byte ");
    let at = put_number(into, at, refusal.offset);
    let at = put(into, at, b" after ");
    let at = put_number(into, at, u64::from(refusal.command));
    put(into, at, b" commands\")\n")
}

fn word(kind: Kind) -> &'static [u8]
    ensures is { result.now ≡ kind_word kind }
    ensures short { length result.now ≤ 13 }
{
    kind.word()
}

/// Writes the bytes behind the first `at`, and answers where they end.
fn put(into: &mut [u8], at: usize, bytes: &[u8]) -> usize
    requires { at + length bytes.now ≤ length into.old }
    ensures end { result ≡ at + length bytes.now }
    ensures written { take result into.new ≡ take at into.old ++ bytes.now }
{
    let end = at + bytes.len();
    into[at..end].copy_from_slice(bytes);
    end
}

/// Writes the number behind the first `at` bytes, and answers where it ends.
fn put_number(into: &mut [u8], at: usize, number: u64) -> usize
    requires { at + 20 ≤ length into.old }
    ensures end { result ≤ at + 20 }
    ensures written { take result into.new ≡ take at into.old ++ decimal number }
{
    let mut buffer = Buffer::new();
    put(into, at, buffer.format(number).as_bytes())
}
