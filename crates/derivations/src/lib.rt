//! The facts of a book: derived tuples by number, each with the instance and the earlier facts from
//! which it follows.
#![tactic(auto)]

mod fact;
mod facts;
mod key;
mod laws;
mod marks;
mod notes;
mod part;
mod parts;
mod row;
mod rows;
mod search;

pub use fact::Fact;
pub use facts::Facts;
pub use laws::{
    a_height_is_one_more, false_is_recorded_once, no_fact_stands_twice, steps_end_in_the_fact,
    steps_have_their_premises,
};
