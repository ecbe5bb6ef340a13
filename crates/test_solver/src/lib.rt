//! Decisions of small boxed formulas against a search of all points, and conjunctions and formulas with
//! lemmas that were worked out by hand. It has nothing but tests.
#![tactic(auto)]

#[cfg(test)]
mod boxes;
#[cfg(test)]
mod conjunctions;
#[cfg(test)]
mod divisors;
#[cfg(test)]
mod jump_means;
#[cfg(test)]
mod jumps;
#[cfg(test)]
mod lemmas;
#[cfg(test)]
mod literals;
#[cfg(test)]
mod made;
#[cfg(test)]
mod parts;
#[cfg(test)]
mod rows;
#[cfg(test)]
mod used_lemmas;
