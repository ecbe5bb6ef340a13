//! What the search for an integer point of a formula keeps of its nodes: those that are open, as a stack,
//! with the tree that is written beside it; and the steps that close a node, split it or let a literal
//! join it.
#![tactic(auto)]

mod beginning;
mod broken;
mod closing;
mod cutting;
mod flat;
mod lent;
mod names;
mod parts;
mod short;
mod state;
mod waiting;

pub use beginning::begun;
pub use broken::any_holds;
pub use cutting::cut;
pub use flat::falsehood;
pub use lent::Lent;
pub use short::has_short_multiples;
pub use state::{End, Search, Turn};
pub use waiting::{LeftOut, Open};
