//! The integer solver on a formula with lemmas, most of which are taken in only where a point breaks them.
#![tactic(auto)]

mod asking;
mod counting;
mod formula;

pub use asking::{are_below, have_short_multiples};
pub use formula::{decide, decide_owned};
pub use lia_search::Decision;
