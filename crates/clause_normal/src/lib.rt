//! Assertions as Horn clauses in normal form, and the systems of scripts.
#![tactic(auto)]

mod arguments;
mod guard;
mod making;
mod naming;
mod reading;
mod stop;
mod tables;

pub use guard::conjunction;
pub use making::{assertion_of, auxiliaries, has_number, judged, made_own, names_of, normal};
pub use naming::names_over;
pub use reading::read_clauses;
pub use stop::{ClauseStop, NormalStop};
pub use tables::{Tables, tables_of};
