/// How far a run may go.
#[derive(Clone, Copy)]
pub struct Limits {
    /// How many workers there are, from 1 to 64.
    pub workers: u32,
    /// The units of the book, at most 1,000,000: each entry is one, but where an obligation is stalled.
    pub units: u32,
    /// Inner nodes of a query's search, at least 1: at so many it is given up.
    pub nodes: u32,
}
