//! What a search reads of a system's clauses again and again, made once, when the system is read: each
//! guard as the integer solver starts from it, and the clauses with a head.
#![tactic(auto)]

mod flat;
mod heads;
mod indexed;
mod places;

pub use flat::FlatGuard;
pub use indexed::IndexedSystem;
