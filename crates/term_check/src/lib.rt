//! Terms of the theories Core and Ints as the trees of a text spell them: which term a tree spells in
//! a scope, or which rule it breaks first.
#![tactic(auto)]

mod apply;
mod atom;
mod binders;
mod bindings;
mod bytes;
mod check;
mod context;
mod found;
mod head;
mod heads;
mod laws;
mod leaves;
mod mapped;
mod names;
mod nodes;
mod operators;
mod part;
mod reading;
mod rules;
mod scope;
mod seen;
mod signature;
mod stop;
mod trees;
mod values;
mod words;

pub use check::{FormulaStop, check_formula, check_term};
pub use found::Found;
pub use laws::{
    found_terms_are_legal, items_are_lighter, spelled_formulas_are_legal, spelled_terms_are_legal,
    terms_stay, trees_are_light,
};
pub use operators::operator_named;
pub use part::{Fault, Part};
pub use rules::fault;
pub use signature::Signature;
pub use stop::TermStop;
pub use trees::{is_symbol, is_word, name_of, sort_named, start_of};
pub use words::is_reserved;
