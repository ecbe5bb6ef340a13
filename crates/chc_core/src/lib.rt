//! The book: a system of clauses with lemmas, facts and obligations, which only legal steps change,
//! and the journal of those steps. From the rules of the steps follows what answers rest on: lemmas
//! of level k hold of all that is derivable within k, facts are derivable, and no derivation of false
//! is as low as the closed level.
#![tactic(auto)]

mod book;
mod ending;
mod entry;
mod laws;
mod made;
mod making;
mod parts;
mod refused;
mod snapshot;

pub use book::Book;
pub use book_rules::{By, End};
pub use entry::Entry;
pub use laws::{heights_agree, steps_are_a_derivation, tokens_carry_their_facts};
pub use refused::Refused;
pub use snapshot::Snapshot;
pub use step_rules::{
    DerivePart, FactPart, LemmaPart, LiftPart, OpenPart, RaisePart, StallPart, Step,
    StrengthenPart, has_places,
};
