//! Whether the lines of an `unsat` answer derive false by the assertions of a script. Each step is
//! evaluated at its own values; no solver is asked.
#![tactic(auto)]

mod clauses;
mod finding;
mod laws;
mod lines;
mod parts;
mod step;
mod values;

pub use clauses::clauses_of;
pub use finding::Finding;
pub use laws::{right_derivations_are_not_wrong, wrong_at_one_step};
pub use lines::check_derivation;
