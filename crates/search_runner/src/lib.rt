//! A search that runs clauses forward: it keeps tuples that clauses give from tuples, and where a query has an
//! instance over them hands out the instances on which false rests. Nothing of it has to be believed: the book
//! judges each of these instances.
#![tactic(auto)]

mod constants;
mod distances;
mod facts;
mod frontier;
mod patterns;
mod placing;
mod rules;
mod runner;
mod shares;
mod tracing;

pub use runner::Runner;
pub use tracing::Instance;
