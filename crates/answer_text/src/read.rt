//! Reading of whole answers.

ghost use Rattle.std.specs.Prelude.{◌≡◌, ◌<◌, ◌^◌, ℕ, length, IfOk, IsErrOf};
ghost use Rattle.term_check.specs.Weight.{weight, weights};
ghost use Rattle.answer_text.specs.Reading.{claim, evidence, end_of, behind, answer_behind, reply};
ghost use Rattle.answer_text.specs.Read.{TellsReply, Spells, IsBad};

use crate::answer::Answer;
use crate::declared::Declared;
use crate::definitions::model;
use crate::steps::derivation;
use crate::stop::{AnswerStop, bad_at};
use keyed_hash::KeyedState;
use sexp_read::{TextStop, Tree, Trees, read_commands};
use std::alloc::Global;
use term_check::{is_symbol, start_of};
use term_tree::Script;

/// Reads a sat or unsat answer to the script, which may be laid out at will. An unknown answer
/// claims nothing that can be checked, and is refused at its start.
pub fn read_answer(alloc: Global, script: &Script, text: &[u8]) -> Result<Answer, AnswerStop>
    requires short { length text.now < 2 ^ 32 }
    requires preds { length script.now.preds < 2 ^ 32 }
    ensures answer { IfOk result (λ answer. Spells script.now.preds text.now answer) }
    ensures bad { (offset : ℕ) → IsErrOf result (AnswerStop.BadAnswer offset) → IsBad script.now.preds text.now offset }
{
    let read = read_commands(alloc, text)?;
    let declared = Declared::new(alloc, KeyedState::of_text(text), script.preds.as_slice())?;
    reply(alloc, text, &declared, &read)
}

/// Whether the tree claims that the script is satisfiable.
fn claim(text: &[u8], tree: &Tree) -> Option<bool>
    ensures { result ≡ claim text.now tree.now }
{
    if is_symbol(text, tree, b"sat") {
        Some(true)
    } else if is_symbol(text, tree, b"unsat") {
        Some(false)
    } else {
        None
    }
}

/// Where the text has no more trees: its fault, or its end.
fn end_of(text: &[u8], stop: Option<TextStop>) -> u32
    requires { length text.now < 2 ^ 32 }
    ensures { result ≡ end_of text.now stop }
{
    match stop {
        None => text.len() as u32,
        Some(TextStop::BadByte { offset }) => offset,
        Some(TextStop::Unclosed { offset }) => offset,
        Some(TextStop::Deep { offset }) => offset,
    }
}

fn evidence(
    alloc: Global,
    text: &[u8],
    declared: &Declared,
    sat: bool,
    tree: &Tree,
) -> Result<Answer, AnswerStop>
    requires { weight tree.now < 2 ^ 32 }
    ensures { TellsReply (evidence text.now declared.now sat tree.now) result }
{
    if sat {
        model(alloc, text, declared, tree)
    } else {
        let lines = derivation(alloc, text, declared, tree)?;
        Ok(Answer::Unsat(lines))
    }
}

/// Where something stands behind the answer.
fn behind(text: &[u8], stop: Option<TextStop>, trees: &[Tree]) -> Option<u32>
    requires { length text.now < 2 ^ 32 }
    ensures { result ≡ behind text.now stop trees.now }
{
    match trees {
        [tree, ..] => Some(start_of(tree)),
        [] => match stop {
            Some(stop) => Some(end_of(text, Some(stop))),
            None => None,
        },
    }
}

fn answer_behind(
    alloc: Global,
    text: &[u8],
    stop: Option<TextStop>,
    declared: &Declared,
    sat: bool,
    trees: &[Tree],
) -> Result<Answer, AnswerStop>
    requires short { length text.now < 2 ^ 32 }
    requires weight { weights trees.now < 2 ^ 32 }
    ensures { TellsReply (answer_behind text.now stop declared.now sat trees.now) result }
{
    match trees {
        [] => Err(bad_at(end_of(text, stop))),
        [tree, rest @ ..] => {
            let answer = evidence(alloc, text, declared, sat, tree)?;
            match behind(text, stop, rest) {
                Some(offset) => Err(bad_at(offset)),
                None => Ok(answer),
            }
        }
    }
}

fn reply(
    alloc: Global,
    text: &[u8],
    declared: &Declared,
    read: &Trees,
) -> Result<Answer, AnswerStop>
    requires short { length text.now < 2 ^ 32 }
    requires weight { weights read.now.trees < 2 ^ 32 }
    ensures { TellsReply (reply text.now read.now.stop declared.now read.now.trees) result }
{
    match read.trees.as_slice() {
        [] => Err(bad_at(end_of(text, read.stop))),
        [tree, rest @ ..] => match claim(text, tree) {
            Some(sat) => answer_behind(alloc, text, read.stop, declared, sat, rest),
            None => Err(bad_at(start_of(tree))),
        },
    }
}
