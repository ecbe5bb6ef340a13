//! What is told of every term of a script once, from each term's parts: its sort, and its value where
//! it is a constant.
#![tactic(auto)]

mod constant_table;
mod constants;
mod kept;
mod laws;
mod sort_table;
mod sorts;

pub use constant_table::ConstantTable;
pub use laws::short_constants_are_constants;
pub use sort_table::SortTable;
