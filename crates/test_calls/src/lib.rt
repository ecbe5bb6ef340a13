//! Words that are a call and words that are none, the texts and summaries of generated scripts, and the
//! verdicts on answers, right ones and one with each fault. It has nothing but tests.
#![tactic(auto)]

#[cfg(test)]
mod added_flags;
#[cfg(test)]
mod definitions;
#[cfg(test)]
mod derivation_verdicts;
#[cfg(test)]
mod generated_texts;
#[cfg(test)]
mod no_answers;
#[cfg(test)]
mod summaries;
#[cfg(test)]
mod told;
#[cfg(test)]
mod verdicts;
#[cfg(test)]
mod words;
