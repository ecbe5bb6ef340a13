//! Systems of Horn clauses in normal form: guards are linear formulas over integer variables, and
//! the arguments of predicates are variables.
#![tactic(auto)]

mod atom;
mod clause;
mod legal;
mod short;
mod system;

pub use atom::Atom;
pub use clause::Clause;
pub use system::System;
