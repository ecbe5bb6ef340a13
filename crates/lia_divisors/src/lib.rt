//! Nodes of a search without an integer point, at a vertex with a fraction: a tree of parts that common
//! divisors of rows and bounds close, where one is found.
#![tactic(auto)]

mod chain;
mod closing;
mod filled;
mod said;
mod written;

pub use closing::close_by_parts;
