/// How a book has ended.
#[derive(Clone, Copy, Debug, PartialEq, Eq)]
pub enum End {
    /// False is recorded, as the fact of this number.
    Unsat { fact: u32 },
    /// No lemma has exactly this level, which is below the closed one and the least such: the
    /// lemmas of this level or more are a solution.
    Sat { level: u32 },
    /// The units that were given are spent.
    Spent { units: u32 },
    /// Every live obligation without live children is stalled.
    Stalled,
}
