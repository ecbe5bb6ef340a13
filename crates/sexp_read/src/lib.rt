//! S-expressions: which trees a text spells, with their offsets, and where its first fault stands.
#![tactic(auto)]

mod commands;
mod laws;
mod leaves;
mod lexer;
mod reader;
mod runs;
mod token;
mod tree;
mod words;

pub use commands::read_commands;
pub use laws::{every_text_has_a_reading, no_text_has_two_readings};
pub use leaves::{leaf_bytes, numeral_value, symbol_bytes};
pub use reader::{Next, Reader};
pub use tree::{LeafKind, TextStop, Tree, Trees};
