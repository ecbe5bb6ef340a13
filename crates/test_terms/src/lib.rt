//! Hashes under a key, texts and their trees, terms and their values, the faults of terms, answers and their spelling, and
//! assertions with their Horn clauses or first misfit. It has nothing but tests.
#![tactic(auto)]

#[cfg(test)]
mod answer_printing;
#[cfg(test)]
mod answer_reading;
#[cfg(test)]
mod arenas;
#[cfg(test)]
mod hashes;
#[cfg(test)]
mod horn_forms;
#[cfg(test)]
mod horn_misfits;
#[cfg(test)]
mod horn_terms;
#[cfg(test)]
mod reading;
#[cfg(test)]
mod same;
#[cfg(test)]
mod spelling;
#[cfg(test)]
mod spellings;
#[cfg(test)]
mod values;
