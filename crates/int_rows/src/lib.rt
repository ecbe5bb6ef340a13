//! Rows of integers as equations, literals made ready for them, and the tableau that pivots.
#![tactic(auto)]

mod bounds;
mod combine;
mod content;
mod copies;
mod eliminate;
mod equation;
mod laws;
mod making;
mod pivoting;
mod pushing;
mod row;
mod stop;
mod tableau;

pub use bounds::{Bounded, Ready};
pub use laws::{
    elimination_keeps_solutions, elimination_keeps_what_follows, following_is_a_preorder,
    freed_rows_are_basic, pivot_keeps_the_row_space, pivots_without_room_are_wide_rows,
    pushes_make_first_tables, ready_keeps_points, rows_that_follow_are_solved,
    same_space_is_an_equivalence, same_space_keeps_solutions_and_bases, tableau_rows_are_basic,
    tableaux_have_bases,
};
pub use making::ready;
pub use row::Row;
pub use stop::{PushStop, ReadyStop, RowStop, RowWide};
pub use tableau::Tableau;
