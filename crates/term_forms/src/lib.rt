//! Terms read as linear forms over integer variables, each subterm once.
#![tactic(auto)]

mod found;
mod laws;
mod leaves;
mod names;
mod node_form;
mod reading;
mod stop;

pub use found::{linear_form, nothing_read};
pub use laws::kept_constants_give_linear_forms;
pub use leaves::{auxiliary_of, is_leaf, name_of, text_parts, variable_form};
pub use names::Names;
pub use stop::FormStop;
