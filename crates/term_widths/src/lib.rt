//! The first term of a text that has no room: whose linear form is wide, or a comparison of which a
//! difference of two sides is.
#![tactic(auto)]

mod apart;
mod bounds;
mod first;
mod kept;
mod laws;
mod narrow;
mod relation;
mod room_table;
mod seek;
mod sides;

pub use apart::apart_names;
pub use first::first_wide;
pub use laws::{alike_names_judge_alike, kept_constants_judge};
pub use narrow::{narrow_form, narrow_forms};
pub use relation::is_relation;
pub use room_table::RoomTable;
pub use sides::has_wide_difference;
