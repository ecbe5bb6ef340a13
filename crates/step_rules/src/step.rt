use crate::derive_step::part::DerivePart;
use crate::fact_step::part::FactPart;
use crate::lemma_step::part::LemmaPart;
use crate::lift_step::part::LiftPart;
use crate::open_step::part::OpenPart;
use crate::raise_step::part::RaisePart;
use crate::stall_step::part::StallPart;
use crate::strengthen_step::part::StrengthenPart;

/// One step of a book. The rules of the book say which steps are legal.
#[derive(Drop)]
pub enum Step {
    /// Adds an obligation.
    OpenStep(OpenPart),
    /// Adds a lemma.
    LemmaStep(LemmaPart),
    /// Records a fact.
    FactStep(FactPart),
    /// Raises a lemma by one level.
    LiftStep(LiftPart),
    /// Raises the book by one level.
    RaiseStep(RaisePart),
    /// Marks an obligation as stalled. It alone is no unit.
    StallStep(StallPart),
    /// Records a fact for no obligation.
    DeriveStep(DerivePart),
    /// Adds a lemma for no obligation.
    StrengthenStep(StrengthenPart),
}
