//! The obligations of the book: a tree in which each asks something for its parent, what closes them,
//! and which worker has claimed which.
#![tactic(auto)]

mod cause;
mod closing;
mod index;
mod laws;
mod node;
mod obligation;
mod tree;

pub use cause::Cause;
pub use laws::{
    a_raise_leaves_the_root, closing_only_closes, numbers_ascend,
    what_is_told_of_falls_with_all_that_hangs_under_it, what_stays_live_is_not_told_of,
};
pub use node::Node;
pub use obligation::Obligation;
pub use tree::Tree;
