//! Lemmas made more general: literals of a cube are dropped and its level is raised as long as the frame
//! below and the lemma itself still imply it, and lemmas are lifted (Bradley, "SAT-based model checking without
//! unrolling", section 4; Hoder and Bjorner, "Generalized property directed reachability").
#![tactic(auto)]

mod bounds;
mod breaking;
mod cubes;
mod dropping;
mod lemma_lift;
mod own;
mod raising;
mod showing;
mod strengthening;
mod trying;

pub use dropping::generalise;
pub use lemma_lift::{lift, lift_in};
pub use raising::raise;
pub use strengthening::strengthen;
pub use trying::Tries;
