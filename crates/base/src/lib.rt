//! What every crate of the product shares: want of memory, equality and copies that contracts can
//! rely on, lists and boxes that contracts see as plain values, and the kinds of bytes.
#![tactic(auto)]

mod bytes;
mod limits;
mod memory;
mod same;

pub use bytes::{is_digit, is_symbol_byte, is_white};
pub use limits::{
    MOST_ARGUMENTS, MOST_ASSERTIONS, MOST_BYTES, MOST_DISTINCT, MOST_OPEN, MOST_PREDICATES,
    MOST_ROWS, MOST_VARIABLES, MOST_WORKERS,
};
pub use memory::Memory;
pub use same::{Copied, Same};
pub use sqlite_items::{Boxed, Items};
