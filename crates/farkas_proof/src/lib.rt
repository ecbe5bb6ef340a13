//! The checker of refutations over the integers, whose yes is a theorem: a form that it lets through
//! has no integer point.
#![tactic(auto)]

mod checker;
mod division;
mod flatten;
mod known;
mod laws;
mod narrow;
mod nodes;
mod quotient;
mod refuted;
mod rounding;
mod rules;
mod stop;
mod sum;
mod walk;

pub use checker::{check, check_owned};
pub use laws::{
    a_half_is_split, a_large_multiple_has_a_wide_floor, a_quotient_is_split, all_literals_may_join,
    large_equations_have_a_wide_row, many_rows_are_given_up, nothing_is_not_given_up,
    one_literal_has_no_wide_row, points_go_on_below, quotients_keep_their_numbers,
    refuted_forms_have_no_point, trees_stand_side_by_side,
};
pub use refutation_trees::{Evidence, GaveUp, Refutation};
pub use refuted::Refuted;
pub use rules::{derived, is_leaf};
pub use stop::CheckStop;
