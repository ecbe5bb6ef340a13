//! One turn of the search: for an obligation that is asked, a legal step of the book that serves it
//! (Hoder and Bjorner, "Generalized property directed reachability"; Komuravelli, Gurfinkel and
//! Chaki, "SMT-based model checking for recursive programs").
#![tactic(auto)]

mod finding;
mod hitting;
mod opening;
mod premises;
mod root_steps;
mod turning;
mod workspace;

pub use finding::found_of_lemma;
pub use hitting::is_hit;
pub use turning::{turn, turn_in};
pub use workspace::Workspace;
