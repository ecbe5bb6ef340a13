//! What a call of `solve` prints under status 0 says by itself: definitions that are a solution of the
//! script, a derivation of false, or a level below which there is none. What a call of `check` tells of
//! a derivation is exact, what it tells to be valid is, and a solution is told to be wrong at no instance.
//! They hold however the script and the answer are read: of each that the bytes spell.
#![tactic(auto)]

mod laws;

pub use laws::{
    derivations_are_judged_exactly, one_reading_is_enough, printed_answers_hold,
    solutions_are_not_judged_wrong, valid_verdicts_hold,
};
