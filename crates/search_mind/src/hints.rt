//! What is guessed of the system's predicates, as far as it is tried.

use base::Memory;
use guess_all::{Hints, hints_of};
use search_entry::Entries;
use search_strategy::{TRIES_BOUNDS, TRIES_HULLS};
use std::alloc::Global;
use step_rules::Lent;

/// The hints of earlier turns. They are first asked for in the first turn that serves an obligation.
fn hints_kept(lent: &Lent, kept: &mut Option<Hints>) -> Result<Hints, Memory> {
    match kept.take() {
        Some(hints) => Ok(hints),
        None => hints_of(lent.alloc, lent.system),
    }
}

/// The hints of earlier turns, as this level and these units renew them, where bounds are tried.
fn hints_now(lent: &Lent, kept: &mut Option<Hints>) -> Result<Hints, Memory> {
    let mut hints = hints_kept(lent, kept)?;
    if TRIES_BOUNDS {
        hints.renew(lent.alloc, lent.system, lent.level, lent.spent)?;
    }
    Ok(hints)
}

/// The hints, where any are tried.
pub(crate) fn hints_for(lent: &Lent, kept: &mut Option<Hints>) -> Result<Option<Hints>, Memory> {
    if TRIES_HULLS || TRIES_BOUNDS {
        let hints = hints_now(lent, kept)?;
        Ok(Some(hints))
    } else {
        Ok(None)
    }
}

/// Lets the needed bounds enter, once they refute each query.
pub(crate) fn note_bounds(
    alloc: Global,
    hints: Option<&Hints>,
    entries: &mut Entries,
) -> Result<(), Memory> {
    match hints {
        Some(hints) => entries.take(alloc, hints.bounds()),
        None => Ok(()),
    }
}
