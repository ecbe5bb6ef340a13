//! Hashes under a key that is made of a text, so that the names in a text can't be chosen to collide.
#![tactic(auto)]

mod name;
mod state;

pub use name::NameKey;
pub use state::KeyedState;
