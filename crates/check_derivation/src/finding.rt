use term_tree::TermId;

/// What is found of lines that claim to derive false. Steps are numbered from 1.
#[derive(Clone, Copy)]
pub enum Finding {
    /// Each step is right, and the last concludes false.
    Derives,
    /// The first step that isn't right; where each is and the last doesn't conclude false, the number
    /// of steps.
    WrongAt(u64),
    /// The steps before this one are right. At its values the exact value of this term, or of a prefix
    /// of its sum, product or difference, doesn't fit 128 bits.
    WideAt { step: u64, term: TermId },
}
