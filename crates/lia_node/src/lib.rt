//! One node of a search by simplex and branch and bound: what its literals' tableau tells.
#![tactic(auto)]

mod asking;
mod branch;
mod columns;
mod constants;
mod examined;
mod examining;
mod gathering;
mod laws;
mod legal;
mod tableau;
mod tableau_laws;
mod tightest;
mod vertex;
mod wide;

pub use asking::{are_known, have_short_constants};
pub use branch::{above, at_most};
pub use examined::Examined;
pub use examining::examine;
pub use laws::{
    conflicts_have_no_point, conflicts_have_no_solution, fractions_split, sides_cover_and_are_known,
};
pub use legal::are_legal;
pub use tableau::node_tableau;
pub use tableau_laws::{points_are_whole_solutions, whole_solutions_are_points};
