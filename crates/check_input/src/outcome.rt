use chc_checker::Verdict;
use term_tree::Refusal;

/// What is found of an input.
#[derive(Drop)]
pub enum Outcome {
    /// The script is refused.
    Refused(Refusal),
    /// The verdict on the answer, and its text.
    Judged { verdict: Verdict, text: Vec<u8> },
}
