//! The integer solver on a conjunction of literals.
#![tactic(auto)]

mod asking;
mod conjunction;

pub use asking::{are_below, have_short_constants};
pub use conjunction::decide_all;
pub use lia_search::Decision;
