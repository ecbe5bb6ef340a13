//! Exact numbers, linear forms over integer variables, and their truth. Contracts speak of numbers
//! without a bound.
#![tactic(auto)]

mod accumulator;
mod algebra;
mod denial;
mod divisor;
mod dot;
mod floor;
mod form;
mod greatest;
mod laws;
mod lin;
mod lit;
mod ratio;
mod stop;
mod terms;
mod truth;
mod value;
mod wide;
mod wide_terms;
mod words;

pub use accumulator::Accumulator;
pub use denial::denied;
pub use divisor::Divisor;
pub use dot::sign_of_dot;
pub use floor::floor_div;
pub use form::Form;
pub use greatest::gcd;
pub use laws::{
    denial_is_complement, truth_depends_on_variables, value_follows_names, value_is_linear,
};
pub use lin::{Lin, LinStop};
pub use lit::Lit;
pub use ratio::Ratio;
pub use stop::WideStop;
pub use truth::holds;
pub use wide_terms::{collected, narrowed};
