//! What is found of the bytes of an input.

ghost use Rattle.std.specs.Prelude.{◌≤◌, ◌<◌, length, IfOk};
ghost use Rattle.base.specs.Limits.{most_bytes};
ghost use Rattle.call_check.specs.machinery.Plans.{IsFound, IsTold};
ghost use Rattle.check_input.specs.Inputs.{JudgesInput};

use crate::lines::refusal_line;
use base::Memory;
use chc_checker::Verdict;
use check_input::{Outcome, check_whole_input};
use std::alloc::Global;
use term_tree::Refusal;

/// What is to be written for an input that isn't too long.
#[derive(Drop)]
pub(crate) enum Found {
    /// The line of its script's refusal.
    Refused { refusal: Refusal, line: Vec<u8> },
    /// The text of a verdict of each kind.
    Valid { text: Vec<u8> },
    Wrong { text: Vec<u8> },
    NotShown { text: Vec<u8> },
}

/// What is to be written for a verdict.
fn told(nodes: u32, read: &[u8], verdict: Verdict, text: Vec<u8>) -> Found
    requires { JudgesInput nodes read.now verdict text.items }
    ensures { IsTold nodes read.now result }
{
    let _nodes = nodes;
    let _read = read;
    match verdict {
        Verdict::Valid => Found::Valid { text },
        Verdict::Wrong { place } => {
            let _place = place;
            Found::Wrong { text }
        }
        Verdict::NotShown { place, evidence } => {
            let _place = place;
            let _evidence = evidence;
            Found::NotShown { text }
        }
    }
}

/// What is to be written for an input that isn't too long.
pub(crate) fn found_of(alloc: Global, read: &[u8], nodes: u32) -> Result<Found, Memory>
    requires short { length read.now ≤ most_bytes }
    requires some { 0 < nodes }
    ensures { IfOk result (IsFound nodes read.now) }
{
    match check_whole_input(alloc, read, nodes)? {
        Outcome::Refused(refusal) => {
            let line = refusal_line(alloc, &refusal)?;
            Ok(Found::Refused { refusal, line })
        }
        Outcome::Judged { verdict, text } => {
            let found = told(nodes, read, verdict, text);
            Ok(found)
        }
    }
}
