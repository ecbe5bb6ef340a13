//! What is known of the clauses of a system, as values that only legal calls make: queries without a
//! point, instances, and what keeps lemmas from being lifted.
#![tactic(auto)]

mod asking;
mod atoms;
mod forms;
mod goal;
mod judging;
mod keeping;
mod laws;
mod making;
mod refuting;
mod seeing;
mod stop;
mod there;
mod used;
mod why;

pub use asking::{
    base_of, checked_base_of, checked_forms_of, checked_query_of, forms_of, query_of,
};
pub use goal::Goal;
pub use judging::{no_lift, no_lift_by};
pub use keeping::NoLift;
pub use laws::{
    a_query_asks_for_an_instance, a_query_joins_its_base_and_lemmas, a_refuted_query_shows_its_goal,
};
pub use making::{seen, shown, shown_by};
pub use refuting::Shown;
pub use seeing::Seen;
pub use stop::TokenStop;
pub use there::{are_short, fits_head, has_values};
pub use used::Used;
pub use why::Why;
