//! Terms of SMT-LIB's theories Core and Ints over declared predicates, what they are worth, and
//! scripts of assertions about them.
#![tactic(auto)]

mod arithmetic;
mod copies;
mod definition;
mod evaluation;
mod laws;
mod logic;
mod node;
mod operators;
mod pairs;
mod pending;
mod refusal;
mod same_tree;
mod scalar;
mod script;
mod sort;
mod subterms;
mod terms;

pub use definition::Definition;
pub use evaluation::{ValueStop, value};
pub use laws::{
    at_most_one_value, constant_of_nodes, head_of_nodes, headed_terms_are_true,
    heads_are_true_under_true, meaning_of_nodes, not_all_are_positive, numbered_of_nodes,
    one_division, same_tree_of_nodes, same_tree_same_value, same_values_same_solution,
    scoped_of_nodes, sort_of_nodes, value_without_predicates, worth_of_nodes,
};
pub use node::{Node, OpKind, TermId};
pub use refusal::{Checked, Kind, Refusal};
pub use same_tree::same_terms;
pub use scalar::Value;
pub use script::{Assertion, Name, Pred, Script};
pub use sort::Sort;
pub use terms::Terms;
