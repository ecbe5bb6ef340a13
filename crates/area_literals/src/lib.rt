//! Literals that are true at a point and imply, of a clause, its guard, a cube on its head and a frame
//! on its body: the areas on which obligations are opened (Komuravelli, Gurfinkel and Chaki, "SMT-based
//! model checking for recursive programs", section 4).
#![tactic(auto)]

mod areas;
mod framing;
mod gathering;

pub use areas::area;
