//! Cubes, tables, lemmas, facts and obligations, queries about clauses with the tokens that they give, and
//! runs of a book by hand: each step is handed in, and its answer is known. It has nothing but tests.
#![tactic(auto)]

#[cfg(test)]
mod by_hand;
#[cfg(test)]
mod choices;
#[cfg(test)]
mod clauses;
#[cfg(test)]
mod copies;
#[cfg(test)]
mod counted;
#[cfg(test)]
mod counters;
#[cfg(test)]
mod cubes;
#[cfg(test)]
mod facts;
#[cfg(test)]
mod finds;
#[cfg(test)]
mod frames;
#[cfg(test)]
mod lits;
#[cfg(test)]
mod long_runs;
#[cfg(test)]
mod lookups;
#[cfg(test)]
mod obligations;
#[cfg(test)]
mod queries;
#[cfg(test)]
mod replays;
#[cfg(test)]
mod rules;
#[cfg(test)]
mod tables;
#[cfg(test)]
mod tokens;
#[cfg(test)]
mod turns;
