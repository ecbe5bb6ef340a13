//! The command that the words call.

ghost use Rattle.std.specs.Prelude.{Some, map};
ghost use Rattle.std.specs.String.{string_bytes};
ghost use Rattle.call_words.specs.Properties.{AreWordsOf, IsWithin};
ghost use Rattle.chc_cli.specs.Words.{IsCommandOf};

use call_words::{Limits, Words, words_of};
use std::alloc::Global;

/// What the words call.
pub enum Command {
    Solve(Limits),
    /// A form is given up at this number of inner nodes.
    Check(u32),
    Gen { depth: u32, seed: u32 },
    /// The words are no command.
    Usage,
    /// Memory was wanted before they were read.
    Wanting,
}

/// The command that the words call.
pub fn command_of(alloc: Global, words: &[String]) -> Command
    ensures { IsCommandOf (map string_bytes words.now) result }
{
    match words_of(alloc, words) {
        Ok(Some(said)) => called(words, said),
        Ok(None) => Command::Usage,
        Err(_) => Command::Wanting,
    }
}

/// The command that is said by the words.
fn called(words: &[String], said: Words) -> Command
    requires read { AreWordsOf (map string_bytes words.now) (Some said) }
    requires within { IsWithin said }
    ensures { IsCommandOf (map string_bytes words.now) result }
{
    let _words = words;
    match said {
        Words::Solve(limits) => Command::Solve(limits),
        Words::Check { nodes } => Command::Check(nodes),
        Words::Gen { depth, seed } => Command::Gen { depth, seed },
    }
}
