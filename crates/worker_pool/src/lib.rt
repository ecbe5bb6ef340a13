//! A run of 1 to 64 workers over one book (Hoder and Bjorner, "Generalized property directed
//! reachability", for the search). One alone searches the book itself; several share it, and each takes a
//! job, works on a snapshot outside the lock, and offers the steps that come of it.
#![tactic(auto)]

mod counting;
mod gate;
mod limits;
mod offering;
mod pool;
mod siblings;
mod working;

pub use gate::{FreeGate, Gate};
pub use limits::Limits;
pub use offering::offer_turn;
pub use pool::{Outcome, solve, solve_alone};
