use lin_atoms::Lin;

/// A form without a constant, and what bounds it.
#[derive(Drop)]
pub struct Bounded {
    pub form: Lin,
    pub lower: Option<i128>,
    pub upper: Option<i128>,
}

/// A literal made ready for a tableau.
#[derive(Drop)]
pub enum Ready {
    /// A literal without a variable is true or false.
    Truth(bool),
    /// What the literal says of a form.
    Bounds(Bounded),
}
