//! What closes a node of a search: a tree that refutes its literals where it stands; and how the tree
//! of a whole search is put together from what was written while it went on.
#![tactic(auto)]

mod conflict;
mod content;
mod falsehood;
mod leaf;
mod legal;
mod names;
mod numbers;
mod side;
mod taking;
mod tightest;
mod written;

pub use conflict::close;
pub use falsehood::close_falsehood;
pub use names::named_by;
pub use numbers::numbered;
pub use written::{Step, tree_of};
