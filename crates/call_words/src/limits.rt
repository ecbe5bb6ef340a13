//! What a call is to do.

/// What a call of `solve` may spend.
#[derive(Clone, Copy, Debug, PartialEq, Eq)]
pub struct Limits {
    /// Workers, 1 to 64, who share one book.
    pub workers: u32,
    /// Units, at most 1,000,000: each entry of a book's journal is one, but where an obligation is
    /// stalled.
    pub units: u32,
    /// The number of inner nodes, 1 to 10,000, at which the search of a query is given up.
    pub nodes: u32,
}

/// What a call is to do.
#[derive(Clone, Copy, Debug, PartialEq, Eq)]
pub enum Words {
    /// Solve a script within these limits.
    Solve(Limits),
    /// Check an answer to a script, and give a form up at `nodes` inner nodes.
    Check { nodes: u32 },
    /// Solve the script that is made from a depth and a seed.
    Gen { depth: u32, seed: u32 },
}
