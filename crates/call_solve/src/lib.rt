//! A call of `solve`: from the source's bytes to the answer's text in the sink, and a status.
#![tactic(auto)]

mod answer;
mod call;
mod lines;
mod plan;

pub use call::{Report, solve_call};
