use farkas_proof::Refuted;
use refutation_trees::GaveUp;

/// What is decided of a formula with lemmas.
#[derive(Drop)]
pub enum Outcome {
    /// Integers for the variables, in order of number, each below 2^63 in magnitude, at which the formula and
    /// all lemmas are true.
    Model(Vec<i64>),
    /// No integer point makes the formula and the lemmas of these numbers true. The numbers rise, from 0.
    Refuted { proof: Refuted, used: Vec<u32> },
    /// The search was given up.
    GaveUp(GaveUp),
}
