//! What the printed answers to a script are: a text that spells definitions under which every
//! assertion is true, or a derivation of false by the assertions, and reads back as no other.
#![tactic(auto)]

mod laws;

pub use laws::{
    one_model, printed_models_are_solutions, sat_answers_are_read_back, scripts_have_names,
    texts_of_solutions_spell_solutions, unsat_answers_are_read_back,
};
