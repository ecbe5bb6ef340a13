//! What a guessed tree is made of: literals that are known, and its nodes in order.

use crate::chain::Chain;
use lin_atoms::{Lin, Lit};

/// A literal that is known, and its number.
#[derive(Drop)]
pub struct Said {
    pub number: u32,
    pub lit: Lit,
}

/// A node of a guessed tree, with what is below it behind it, in order.
#[derive(Drop)]
pub enum Move {
    /// A form is at most 0, or at least 1: two nodes are below.
    Split(Lin),
    /// Nothing is below that isn't in the chain.
    Closed(Chain),
}
