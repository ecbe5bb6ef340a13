//! The script that a depth and a seed give, solved: its summary, the book that it rests on, and the call
//! of `gen`.
#![tactic(auto)]

mod answer;
mod call;
mod laws;
mod script;
mod summary;

pub use answer::{Generated, answer_for};
pub use call::{Summarised, gen_call};
pub use laws::generated_scripts_have_clauses;
