//! The words that the program is called with, read by `clap`: what is to be done, and within which
//! limits; and the statuses that a call may end with.
#![tactic(auto)]

mod calls;
mod command;
mod laws;
mod limits;
mod numerals;
mod options;
mod status;

pub use calls::words_of;
pub use laws::{calls_exclude_each_other, calls_have_one_reading};
pub use limits::{Limits, Words};
pub use status::Status;
