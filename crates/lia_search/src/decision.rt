use farkas_proof::Refuted;
use refutation_trees::GaveUp;

/// What is decided of a formula.
#[derive(Drop)]
pub enum Decision {
    /// Integers for the variables, in order of number, each below 2^63 in magnitude, at which the
    /// formula is true.
    Model(Vec<i64>),
    /// No integer point makes the formula true.
    Refuted(Refuted),
    /// The search was given up.
    GaveUp(GaveUp),
}
