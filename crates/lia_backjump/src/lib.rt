//! What a search that goes back over cases keeps of its nodes: numbers of literals and disjunctions that don't depend
//! on the place, what is split above a node, which trees closed others, and how a tree is written in the end. All of it
//! is only a guess: what it leads to is checked.
#![tactic(auto)]

mod back;
mod frames;
mod joining;
mod names;
mod near;
mod nodes;
mod nogoods;
mod numbering;
mod ranges;
mod telling;
mod tree;
mod used;
mod writing;

pub use back::{End, search_back};
pub use frames::{BRANCHES, Closed, Frame, Way};
pub use names::{in_order, name_in_order};
pub use nodes::Node;
pub use nogoods::{Nogoods, Seen};
pub use numbering::{Case, Flat, Numbered, PER_LITERAL, flat_of, size};
pub use ranges::{Range, Ranges};
pub use tree::{Step, Tree};
pub use used::DERIVED;
pub use writing::written;
