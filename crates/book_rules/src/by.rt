/// What breaks a rule of the book, by its number; or the step itself is ill-formed: it names a
/// number that was never given out, is of a wrong predicate, or has a part that doesn't fit.
#[derive(Clone, Copy, Debug, PartialEq, Eq)]
pub enum By {
    Lemma(u32),
    Fact(u32),
    Obligation(u32),
    /// The book's closed level.
    Level(u32),
    Clause(u32),
    /// The journal's entry that closed an obligation, from 1.
    Entry(u64),
    Step,
}
