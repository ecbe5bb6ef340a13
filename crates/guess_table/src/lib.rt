//! Bounds of linear parts of a predicate's places, plain or under conditions, of which a system's clauses are
//! asked: what they may be bounds of, how they rise by tuples, and of what queries about them are made.
#![tactic(auto)]

mod arms;
mod bound;
mod candidates;
mod conditions;
mod forms;
mod goals;
mod increments;
mod memos;
mod met;
mod needs;
mod parts;
mod places;
mod queries;
mod raising;
mod successors;
mod table;
mod tightening;
mod wanted;

pub use arms::{Arm, arms_of};
pub use bound::{Bound, Limit, Memo, Use, first_of, stands};
pub use candidates::cubes_at;
pub use forms::{has_lit, push_new, value_at, variable_at};
pub use goals::{denied_at, denied_by, unmoved};
pub use memos::{forgotten, is_kept, push_first, remember};
pub use met::{MOST_MET, Met, Walk, meet};
pub use needs::{Needs, is_marked, mark, mark_memos, mark_uses, ranks_of};
pub use queries::{push_broken, push_parts, without};
pub use raising::{MOST_RISES, are_reached, raise_at, raise_by};
pub use successors::{push_least, successor_goal};
pub use table::{Size, Table, table_of};
pub use tightening::{content, divided, tightened};
pub use wanted::{Wanted, wanted_of};
