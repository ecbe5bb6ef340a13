use refutation_trees::Evidence;

/// What a node tells.
#[derive(Drop)]
pub enum Examined {
    /// The literal of this number has no variable and is false.
    False(usize),
    /// Multipliers of bounds of the node's tableau that contradict, two for each column: at 2v for its
    /// lower bound, at 2v + 1 for its upper bound.
    Conflict(Vec<i64>),
    /// Values of the variables and quotients at which all literals are true,
    /// each below 2^63 in magnitude.
    Model(Vec<i64>),
    /// At a vertex the variable or quotient lies strictly between `floor` and `floor` + 1.
    Fraction { variable: u32, floor: i64 },
    /// A number has no room, or there are more than 1,024 rows: evidence of giving up.
    Wide(Evidence),
}
