//! Rational simplex over a tableau with bounds: a vertex, multipliers of bounds that have none, or
//! kept evidence that a number has no room.
#![tactic(auto)]

mod answer;
mod bland;
mod coordinate;
mod ends;
mod following;
mod laws;
mod place;
mod refresh;
mod standing;
mod stepping;
mod turn;

pub use answer::{Feasible, WideEvidence};
pub use following::feasible;
pub use laws::{
    conflicts_are_of_the_forms, coordinates_without_room_are_evidence,
    crossed_bounds_are_a_conflict, moments_are_basic_points, moments_come_once,
    stuck_rows_are_a_conflict, vertices_meet_all_bounds,
};
