use lin_atoms::Ratio;

/// What `feasible` answers.
#[derive(Drop)]
pub enum Feasible {
    /// The value of each variable, in order of number: they meet all rows and bounds.
    Vertex(Vec<Ratio>),
    /// Two multipliers for each variable v, at 2v for its lower bound l and at 2v + 1 for its upper
    /// bound u. The sum of the multiples of l - v and v - u, where slacks are replaced by their
    /// forms, is a number above 0.
    Conflict(Vec<i64>),
    /// A number has no room.
    Wide(WideEvidence),
}

/// Which number has no room.
#[derive(Drop)]
pub enum WideEvidence {
    /// A row of the basis has this entry, of 2^63 or more in magnitude.
    Row {
        basis: Vec<u32>,
        entry: i128,
    },
    /// At the basic point with these values of the variables outside the basis, in order of number,
    /// the variable's numerator in lowest terms is 2^127 or more in magnitude; or the point is a
    /// vertex, and its value rounded down is 2^63 or more.
    Coordinate {
        basis: Vec<u32>,
        outside: Vec<i128>,
        variable: u32,
    },
}
