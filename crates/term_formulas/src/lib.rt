//! Bool terms written as linear formulas over integer variables, and what determines the auxiliary
//! ones. Nothing is expanded: a name that a `let` binds stands in a formula as one variable.
#![tactic(auto)]

mod bits;
mod kinds;
mod literals;
mod place;
mod relations;
mod sides;
mod truths;
mod writing;

pub use literals::joined;
pub use place::{place_form, place_forms};
pub use writing::formula;
