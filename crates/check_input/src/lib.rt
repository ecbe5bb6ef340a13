//! The input of a check: a script, a line that is the marker, and an answer.
#![tactic(auto)]

mod cut;
mod laws;
mod outcome;
mod parts;
mod pieces;
mod text;
mod whole;

pub use cut::{Cut, cut_at_marker};
pub use laws::inputs_are_parted_once;
pub use outcome::Outcome;
pub use whole::check_whole_input;
