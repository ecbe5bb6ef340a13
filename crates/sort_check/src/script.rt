//! The check of a whole text.

ghost use Rattle.std.specs.Prelude.{◌≡◌, ◌<◌, ◌^◌, List, length, IfOk};
ghost use Rattle.sexp_read.specs.Trees.{IsReading};
ghost use Rattle.sort_check.specs.Commands.{Command};
ghost use Rattle.sort_check.specs.Checked.{IsChecked, IsCheckedText};
ghost use Rattle.sort_check.specs.Scripts.{stop_fault};
ghost use Rattle.sort_check.specs.State.{IsState};

use crate::state::State;
use base::Memory;
use keyed_hash::KeyedState;
use sexp_read::{Next, Reader, TextStop, Trees};
use std::alloc::Global;
use term_check::{Fault, fault};
use term_tree::{Checked, Kind};

/// Why the commands are over where the text's trees are.
fn stop_fault(state: &State, text: &[u8], stop: Option<TextStop>) -> Option<Fault>
    requires { length text.now < 2 ^ 32 }
    ensures { (before : List Command) → IsState before state.now → result ≡ stop_fault text.now stop before }
{
    match stop {
        None => state.end_fault(text),
        Some(TextStop::BadByte { offset }) => Some(fault(Kind::BadByte, offset)),
        Some(TextStop::Unclosed { offset }) => Some(fault(Kind::Unclosed, offset)),
        Some(TextStop::Deep { offset }) => Some(fault(Kind::Deep, offset)),
    }
}

/// The script that the trees of a text spell, or its legal commands before the first that is illegal.
pub fn check_script(alloc: Global, text: &[u8], trees: &Trees) -> Result<Checked, Memory>
    requires short { length text.now < 2 ^ 32 }
    requires reading { IsReading text.now trees.now.trees trees.now.stop }
    ensures { IfOk result (IsChecked text.now trees.now.trees trees.now.stop) }
{
    let mut state = State::new(alloc, KeyedState::of_text(text));
    for tree in trees.trees.as_slice() {
        if let Some(fault) = state.step(alloc, text, tree)? {
            return Ok(state.into_checked(Some(fault)));
        }
        if state.is_over {
            let fault = state.end_fault(text);
            return Ok(state.into_checked(fault));
        }
    }
    let fault = stop_fault(&state, text, trees.stop);
    Ok(state.into_checked(fault))
}

/// The script that a text spells, or its legal commands before the first that is illegal. It reads one
/// command at a time, so that it holds no more than one command's trees at once.
pub fn check_text(alloc: Global, text: &[u8]) -> Result<Checked, Memory>
    requires { length text.now < 2 ^ 32 }
    ensures { IfOk result (IsCheckedText text.now) }
{
    let mut state = State::new(alloc, KeyedState::of_text(text));
    let mut reader = Reader::new(alloc);
    let mut at = 0;
    loop {
        match reader.read(text, at)? {
            Next::Tree { tree, end } => {
                if let Some(fault) = state.step(alloc, text, &tree)? {
                    return Ok(state.into_checked(Some(fault)));
                }
                if state.is_over {
                    let fault = state.end_fault(text);
                    return Ok(state.into_checked(fault));
                }
                at = end;
            }
            Next::Stop(stop) => {
                let fault = stop_fault(&state, text, stop);
                return Ok(state.into_checked(fault));
            }
        }
    }
}
