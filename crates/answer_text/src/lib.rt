//! Answers as text: a model as definitions, a refutation as a derivation, an unknown answer and its
//! cause, and refusals. Each has one spelling.
#![tactic(auto)]

mod answer;
mod declared;
mod definitions;
mod derivation;
mod found;
mod laws;
mod names;
mod notices;
mod parameters;
mod pieces;
mod printed_model;
mod read;
mod steps;
mod stop;
mod term;
mod trees;
mod values;
mod write;

pub use answer::{Answer, Line, UnknownCause};
pub use laws::{
    every_text_claims_or_is_bad, no_answer_is_bad, one_derivation, one_fault,
    printed_derivations_are_read_back, printed_models_are_read_back,
};
pub use notices::{error_line, level_line, memory_line, usage_line};
pub use read::read_answer;
pub use stop::AnswerStop;
pub use term::push_parameter_name;
pub use write::write_answer;
