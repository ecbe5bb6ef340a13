//! What the searches over a book share: the book that they begin with, which obligation is asked first,
//! what is tried in a lemma's place and the strategy of each worker, cubes of a lemma's own literals, the
//! older lemmas beside it, and the lifts after a step for the root.
#![tactic(auto)]

mod cores;
mod cubes;
mod jobs;
mod laws;
mod lifts;
mod older_lemmas;
mod starting;
mod strategy;

pub use cubes::{with_core, with_turned};
pub use jobs::is_before;
pub use laws::systems_of_scripts_can_be_run;
pub use lifts::{Pass, few, next_lift, pass_of};
pub use older_lemmas::{excluding, lift_by, older};
pub use starting::begin;
pub use strategy::{
    LIFTS_OLDER, RAISES_LEMMAS, Strategy, TRIES_BOUNDS, TRIES_HULLS, TRIES_OLD, TRIES_SUMS,
    WIDENS_BOUNDS, strategy_of,
};
