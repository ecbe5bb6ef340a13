/// What a term stands as in a text.
#[derive(Clone, Copy, Debug, PartialEq, Eq)]
pub enum Standing {
    /// As a part whose truth or linear form is asked for.
    Plain,
    /// As a part whose bit is asked for, if it is a Bool term.
    Bit,
    /// As an argument of a predicate.
    Argument,
}

/// A term by number, and what it stands as.
#[derive(Clone, Copy, Debug, PartialEq, Eq)]
pub struct Spot {
    pub id: u32,
    pub standing: Standing,
}
