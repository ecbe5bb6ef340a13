//! Sums and linear forms of terms, formulas, definitions, and normal clauses of whole scripts: their shapes,
//! limits with the places of refusals, guards by hand, and small clauses against the values of their terms.
//! It has nothing but tests, and stands apart so that what it tests is proved once.
#![tactic(auto)]

#[cfg(test)]
mod defined_forms;
#[cfg(test)]
mod defined_texts;
#[cfg(test)]
mod definitions;
#[cfg(test)]
mod formula_places;
#[cfg(test)]
mod formulas;
#[cfg(test)]
mod guards;
#[cfg(test)]
mod limits;
#[cfg(test)]
mod linear_forms;
#[cfg(test)]
mod made;
#[cfg(test)]
mod orders;
#[cfg(test)]
mod parts;
#[cfg(test)]
mod points;
#[cfg(test)]
mod samples;
#[cfg(test)]
mod shapes;
#[cfg(test)]
mod shown;
#[cfg(test)]
mod small;
#[cfg(test)]
mod stops;
#[cfg(test)]
mod sum_places;
#[cfg(test)]
mod sums;
#[cfg(test)]
mod systems;
#[cfg(test)]
mod tables;
#[cfg(test)]
mod texts;
#[cfg(test)]
mod values;
#[cfg(test)]
mod widths;
#[cfg(test)]
mod written;
