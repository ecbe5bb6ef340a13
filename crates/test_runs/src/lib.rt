//! Whole runs of the program's top call that a table of texts doesn't give: ends that fail, texts at the
//! limits, searches whose answer may vary, several workers, and words as the system gives them; and whole
//! scripts whose trees are read before they are checked. Inputs with one answer are data of `chc_examples`. It
//! has nothing but tests.
#![tactic(auto)]

#[cfg(test)]
mod bytes;
#[cfg(test)]
mod cases;
#[cfg(test)]
mod cuts;
#[cfg(test)]
mod faults;
#[cfg(test)]
mod free_values;
#[cfg(test)]
mod guesses;
#[cfg(test)]
mod heights;
#[cfg(test)]
mod limits;
#[cfg(test)]
mod programs;
#[cfg(test)]
mod runs;
#[cfg(test)]
mod trees;
#[cfg(test)]
mod workers;
