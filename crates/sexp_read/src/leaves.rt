//! What leaves say, lent from the text that they were read from.

ghost use Rattle.std.specs.Prelude.{◌≡◌};
ghost use Rattle.std.specs.Option.{option_copied};
ghost use Rattle.base.specs.Numeral.{number_of};
ghost use Rattle.sexp_read.specs.Leaves.{between, inner, leaf_bytes, symbol_bytes, numeral_value, short_number};

use crate::tree::{LeafKind, Tree};

/// The bytes of a leaf of the text, without bars or quotes; a doubled quote stays doubled. A list
/// has none.
pub fn leaf_bytes<'a>(text: &'a [u8], tree: &Tree) -> Option<&'a [u8]>
    ensures { option_copied result ≡ leaf_bytes text.now tree.now }
{
    match tree {
        Tree::Leaf { kind, start, end } => Some(inner(text, *kind, *start, *end)),
        Tree::List { .. } => None,
    }
}

/// The bytes of a symbol, between bars or not. Other trees have none.
pub fn symbol_bytes<'a>(text: &'a [u8], tree: &Tree) -> Option<&'a [u8]>
    ensures { option_copied result ≡ symbol_bytes text.now tree.now }
{
    match tree {
        Tree::Leaf { kind, start, end } => match kind {
            LeafKind::Symbol | LeafKind::Quoted => Some(inner(text, *kind, *start, *end)),
            _ => None,
        },
        Tree::List { .. } => None,
    }
}

/// The number that a numeral spells, where it is below 2 ^ 63. Other trees spell none.
pub fn numeral_value(text: &[u8], tree: &Tree) -> Option<u64>
    ensures { result ≡ numeral_value text.now tree.now }
{
    match tree {
        Tree::Leaf { kind, start, end } => match kind {
            LeafKind::Numeral => short_number(inner(text, *kind, *start, *end)),
            _ => None,
        },
        Tree::List { .. } => None,
    }
}

fn inner(text: &[u8], kind: LeafKind, start: u32, end: u32) -> &[u8]
    ensures { result.now ≡ inner text.now kind start end }
{
    match kind {
        LeafKind::Quoted | LeafKind::Text => {
            between(text, start as usize + 1, (end as usize).saturating_sub(1))
        }
        _ => between(text, start as usize, end as usize),
    }
}

/// The bytes from one offset to another, as far as the text has them.
#[tactic(auto, using(crate::proofs::Between::cut))]
fn between(text: &[u8], start: usize, end: usize) -> &[u8]
    ensures { result.now ≡ between text.now start end }
{
    if end <= start || text.len() <= start {
        &[]
    } else if end <= text.len() {
        &text[start..end]
    } else {
        &text[start..]
    }
}

#[tactic(auto, using(crate::proofs::Numbers::number))]
fn short_number(digits: &[u8]) -> Option<u64>
    ensures { result ≡ short_number (number_of digits.now) }
{
    let mut value: u128 = 0;
    for digit in digits {
        value = 10 * value + u128::from(digit.saturating_sub(b'0'));
        if value >= 1 << 63 {
            return None;
        }
    }
    Some(value as u64)
}
