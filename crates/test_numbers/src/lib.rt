//! Exact numbers, linear forms, rows and pivots, runs of the simplex, what the literals of a node tell,
//! refutations and evidence, and projections, against values that were worked out by hand or found by a
//! search. It has nothing but tests.
#![tactic(auto)]

#[cfg(test)]
mod chains;
#[cfg(test)]
mod coordinates;
#[cfg(test)]
mod disjunctions;
#[cfg(test)]
mod elimination;
#[cfg(test)]
mod examined;
#[cfg(test)]
mod forms;
#[cfg(test)]
mod gave_up;
#[cfg(test)]
mod made;
#[cfg(test)]
mod nodes;
#[cfg(test)]
mod projected;
#[cfg(test)]
mod promises;
#[cfg(test)]
mod pushes;
#[cfg(test)]
mod room;
#[cfg(test)]
mod runs;
#[cfg(test)]
mod solving;
#[cfg(test)]
mod steps;
#[cfg(test)]
mod tableaux;
#[cfg(test)]
mod trees;
#[cfg(test)]
mod truths;
#[cfg(test)]
mod words;
