//! Laws of derivations: those over the system of a script are those by the script's own clauses.
#![tactic(auto)]

mod examples;
mod laws;
mod line_examples;
mod line_laws;
mod of_facts;
mod values;

pub use examples::{premises_come_first, steps_are_made_of_facts};
pub use laws::{
    facts_are_derivations_by_the_script, heights_are_those_of_facts, numbers_stand_for_values,
    script_and_system_derive_the_same, steps_are_those_of_facts,
};
pub use line_examples::lines_are_made_of_facts;
pub use line_laws::{
    derivations_leave_no_solution, facts_derive_false, lines_of_facts_are_read_back,
    steps_end_in_false, what_lines_say,
};
pub use of_facts::lines;
