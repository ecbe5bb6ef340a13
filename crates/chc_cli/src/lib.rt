//! The program's top call: from words and bytes in to bytes and a status out.
#![tactic(auto)]

mod command;
mod program;
mod run;
mod words;

pub use call_solve::Report;
pub use program::{chc_main, exit_number};
pub use run::chc_run;
