//! The steps of a book, and what each of their rules says of a book that is lent: the first rule that
//! a step breaks, with what breaks it.
#![tactic(auto)]

mod breaking;
mod children;
mod claim;
mod conclusions;
mod derive_step;
mod fact_step;
mod learning;
mod lemma_step;
mod lent;
mod levels;
mod lift_step;
mod lookups;
mod open_step;
mod pinning;
mod proving;
mod raise_step;
mod recording;
mod stall_step;
mod step;
mod strengthen_step;
mod there;

pub use book_rules::By;
pub use breaking::broken_step;
pub use derive_step::part::DerivePart;
pub use fact_step::part::FactPart;
pub use lemma_step::part::LemmaPart;
pub use lent::Lent;
pub use lift_step::part::LiftPart;
pub use lookups::has_fact_in;
pub use open_step::part::OpenPart;
pub use raise_step::part::RaisePart;
pub use recording::false_of;
pub use stall_step::part::StallPart;
pub use step::Step;
pub use strengthen_step::part::StrengthenPart;
pub use there::has_places;
