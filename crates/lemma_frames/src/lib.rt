//! Frames: the lemmas by number, each with a predicate and a level, and for each predicate its
//! lemmas by level.
#![tactic(auto)]

mod bare;
mod framed;
mod frames;
mod laws;
mod listed;
mod rank;
mod rows;

pub use framed::Framed;
pub use frames::Frames;
pub use laws::{frames_only_fall, one_list_is_upper, upper_lists_are_prefixes};
