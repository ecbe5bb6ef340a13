//! Cubes that are guessed: by what all tuples of a predicate have in common, as sums of two bounds of a
//! cube, and with literals in their simplest form. Nothing is promised of them.
#![tactic(auto)]

mod cubes;
mod hull;
mod hull_queries;
mod reducing;
mod settling;
mod shutting;
mod simplifying;
mod sums;
mod values;

pub use cubes::cube_of;
pub use settling::{Hulls, hulls_of};
pub use simplifying::simplest;
pub use sums::pair_sums;
