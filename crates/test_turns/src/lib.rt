//! Turns over small scripts: what is read and asked of their clauses, and guessed of them; the step of a
//! first turn, and the journal of a whole search; lemmas that are made more general and raised,
//! and lemmas that enter for no obligation; what the
//! calls of a shared book answer; and runs of one and of several workers. It has nothing but tests.
#![tactic(auto)]

#[cfg(test)]
mod asking;
#[cfg(test)]
mod entered_lemmas;
#[cfg(test)]
mod first_steps;
#[cfg(test)]
mod guesses;
#[cfg(test)]
mod indexes;
#[cfg(test)]
mod journals;
#[cfg(test)]
mod learnt_lemmas;
#[cfg(test)]
mod led_books;
#[cfg(test)]
mod scripts;
#[cfg(test)]
mod shared_calls;
#[cfg(test)]
mod shared_moves;
#[cfg(test)]
mod shown_lemmas;
#[cfg(test)]
mod worker_gates;
#[cfg(test)]
mod worker_runs;
#[cfg(test)]
mod worker_strategies;
