//! A formula is decided in stages, one of which goes back over cases that a contradiction doesn't need. What that one
//! finds is only a guess: a point counts where the form is true there, and a tree after a check. Where it finds nothing
//! the documented search decides.
#![tactic(auto)]

mod deciding;
mod formula;

pub use deciding::decide_back;
pub use formula::decide_form;
