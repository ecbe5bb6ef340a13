//! The script that a depth and a number give: the numbers from one on are nodes of depth 0, a node stands
//! over its two children, and one number isn't a node of the depth.
#![tactic(auto)]

mod arena;
mod laws;
mod piece;
mod pieces;
mod script;
#[cfg(test)]
mod tests;

pub use laws::generated_terms_are_legal;
pub use script::script_of;
