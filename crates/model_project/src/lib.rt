//! Projection of conjunctions of literals over the integers at a model: a cube over the variables
//! that are kept, that has the model's point, and of which every point extends.
#![tactic(auto)]

mod bounds;
mod crossing;
mod elimination;
mod equation;
mod laws;
mod period;
mod projected;
mod projecting;
mod reading;
mod rules;
mod substitution;
mod terms;

pub use laws::elimination_projects;
pub use projected::Projected;
pub use projecting::project;
