//! From trees to scripts: which texts are scripts, which script each spells, and the refusal of every
//! other text.
#![tactic(auto)]

mod declaration;
mod laws;
mod rules;
mod script;
mod state;

pub use laws::{
    assertions_are_legal, few_predicates, no_script_is_refused, one_refusal, one_script,
    script_or_refused, scripts_are_within_limits,
};
pub use script::{check_script, check_text};
pub use term_check::{FormulaStop, check_formula};
