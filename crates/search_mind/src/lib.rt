//! What a worker of the search keeps between its turns, and which step it makes next.
#![tactic(auto)]

mod forward;
mod hints;
mod mind;

pub use mind::Mind;
