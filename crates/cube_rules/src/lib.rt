//! What the rules of steps ask of literals, cubes, areas and frames: equality, covering, cubes over
//! places, lemmas that shut tuples out, and instances of clauses. Each call answers exactly what the
//! rule's definition says.
#![tactic(auto)]

mod areas;
mod framed;
mod instances;
mod literals;
mod places;
mod same;

pub use areas::{is_area, knows};
pub use framed::{body_shut_out, frame_has};
pub use instances::{atom_at, body_at, head_at, is_head};
pub use literals::{cover, form_has_room, have_room, is_among, same_cube};
pub use places::{is_wide, point_cube, projected_cube};
pub use same::{same_form, same_lemma, same_lit, same_tuple};
