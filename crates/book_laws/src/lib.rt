//! Laws of books that are read while others write: a step that was made on a book as it stood earlier.
#![tactic(auto)]

mod laws;

pub use laws::stale_steps_are_refused;
