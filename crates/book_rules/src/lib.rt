//! The rules of the book: which steps are legal, what each makes of the book, when it has ended, and
//! what holds after every journal of legal steps. Definitions and laws alone, over plain lists.
#![tactic(auto)]

mod bounds;
mod by;
mod cases;
mod end;
mod examples;
mod laws;
mod openings;

pub use bounds::{
    cubes_are_over_their_predicates, the_root_stands_above, units_bound_what_comes,
    values_stay_short,
};
pub use by::By;
pub use cases::{
    a_point_is_no_area, lemmas_and_facts_break_rules, more_effects_and_ends,
    more_legal_steps_are_there, opens_break_rules, raises_and_stalls_break_rules,
    steps_for_no_obligation,
};
pub use end::End;
pub use examples::{legal_steps_are_there, other_steps_break_a_rule, steps_have_their_effects};
pub use laws::{
    ends_are_certified, equality_is_tested, facts_are_a_derivation, facts_are_derivable,
    journals_grow, legal_steps_are_sound, lemmas_are_good, live_obligations_are_placed,
    opened_cubes_are_reached,
};
pub use openings::{all_that_hangs_under_it_falls, later_books_open};
