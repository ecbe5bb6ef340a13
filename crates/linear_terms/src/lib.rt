//! Terms as linear forms and linear formulas over integer variables.
#![tactic(auto)]

mod judge;
mod laws;
mod minus;
mod product;
mod standing;
mod sum;

pub use judge::{is_narrow, judged};
pub use laws::{
    auxiliary_variables_have_values, formulas_hold_where_terms_are_true, linear_forms_have_values,
    samples_have_forms, seven_by_two_is_rounded_down,
};
pub use product::product_form;
pub use standing::{Spot, Standing};
pub use sum::{difference_form, less, sum_form};
