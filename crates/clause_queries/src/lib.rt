//! The queries of all clauses with a head, under the lemmas of a frame: an instance, a refutation
//! through each clause, or the first query whose search was given up (Hoder and Bjorner, "Generalized
//! property directed reachability", section 3).
#![tactic(auto)]

mod asked;
mod asking;
mod carrying;
mod finding;
mod keeping;
mod lost;
mod needing;
mod using;

pub use finding::{Found, ask_all, ask_all_by};
pub use keeping::{frames_are_kept, is_kept};
pub use lost::Lost;
