use base::Items;
use refutation_trees::GaveUp;
use term_tree::TermId;

/// Where an answer is wrong. Assertions and steps are numbered from 1, as they are printed.
#[derive(Drop)]
pub enum Place {
    /// The text has its first fault there; or the term of a definition that starts there has no room for
    /// its numbers at the arguments of an assertion.
    Byte(u64),
    /// The first step that is wrong; the number of steps where each is right and the last doesn't
    /// conclude false.
    Step(u64),
    /// The first assertion that isn't true, and integers of its variables, in order, at which it is
    /// false; 1 stands for true and 0 for false.
    Instance { assertion: u32, values: Items<i64> },
}

/// What isn't shown: the first assertion or step of which nothing is known.
#[derive(Drop)]
pub enum Hidden {
    Assertion(u32),
    Step(u64),
}

/// Why it isn't shown.
#[derive(Drop)]
pub enum Unshown {
    /// The formula of the instances that make the assertion false was given up.
    Query(GaveUp),
    /// The formula of the instances that make the assertion false has more than 2,048 variables.
    Variables,
    /// The exact value of this term, or of a prefix of its sum, product or difference, doesn't fit 128
    /// bits.
    Value(TermId),
}

/// What is found of an answer to a script.
#[derive(Drop)]
pub enum Verdict {
    /// The definitions are a solution, or the steps derive false.
    Valid,
    Wrong { place: Place },
    NotShown { place: Hidden, evidence: Unshown },
}
