//! The search of one worker over a book (Hoder and Bjorner, "Generalized property directed
//! reachability"): turn after turn offers a small step or serves an obligation, until the book has ended.
#![tactic(auto)]

mod carrying;
mod jobs;
mod running;
mod taking;

pub use running::search;
