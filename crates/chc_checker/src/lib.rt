//! The checker of answers: definitions under which every assertion of a script is true, or a derivation
//! of false by its assertions.
#![tactic(auto)]

mod bounds;
mod counting;
mod deciding;
mod derivation;
mod laws;
mod linking;
mod links;
mod model;
mod parting;
mod reading;
mod verdict;
mod whole;

pub use laws::{
    systems_can_be_checked, valid_answers_are_not_wrong, valid_answers_exclude_each_other,
    verdicts_on_derivations_are_exact,
};
pub use reading::is_checkable;
pub use verdict::{Hidden, Place, Unshown, Verdict};
pub use whole::{check_answer, check_text};
