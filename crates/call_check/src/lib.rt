//! A call of `check`: from the source's bytes to the verdict's text in the sink, and a status.
#![tactic(auto)]

mod call;
mod found;
mod lines;
mod plan;

pub use call::{Checked, check_call};
