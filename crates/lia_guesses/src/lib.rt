//! Integer points of a node whose vertex has a fraction: equations of integers, brought into Hermite
//! form, and what is left free of them, rounded near the vertex.
#![tactic(auto)]

mod chain;
mod column;
mod columns;
mod conflicts;
mod cuts;
mod entries;
mod equation;
mod equations;
mod forms;
mod guesses;
mod joining;
mod judging;
mod limits;
mod moves;
mod multipliers;
mod near;
mod parts;
mod residues;
mod rows;
mod said;
mod short;
mod sides;
mod solving;
mod splits;
mod unknowns;
mod values;

pub use chain::{Chain, Rounding};
pub use entries::{set, zeros};
pub use equation::Equation;
pub use forms::has_column;
pub use judging::{added, point_near, quotients};
pub use multipliers::Unsolvable;
pub use parts::guessed;
pub use residues::{Residue, Told, equations_tell};
pub use said::{Move, Said};
