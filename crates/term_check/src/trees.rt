//! Words, names and sorts among trees.

ghost use Rattle.std.specs.Prelude.{◌≡◌};
ghost use Rattle.std.specs.Option.{option_copied};
ghost use Rattle.sexp_read.specs.Leaves.{word_bytes};
ghost use Rattle.term_check.specs.Spelling.{is_symbol, is_word, name_of, sort_named, start_of};

use crate::bytes::are_same;
use crate::words::is_reserved;
use sexp_read::{LeafKind, Tree, symbol_bytes};
use term_tree::Sort;

/// Where the tree starts.
pub fn start_of(tree: &Tree) -> u32
    ensures { result ≡ start_of tree.now }
{
    match tree {
        Tree::Leaf { start, .. } => *start,
        Tree::List { start, .. } => *start,
    }
}

/// Whether the tree is a symbol of these bytes, between bars or not.
pub fn is_symbol(text: &[u8], tree: &Tree, name: &[u8]) -> bool
    ensures { result ≡ is_symbol text.now tree.now name.now }
{
    match symbol_bytes(text, tree) {
        Some(bytes) => are_same(bytes, name),
        None => false,
    }
}

/// The bytes of a symbol without bars.
pub fn word_bytes<'a>(text: &'a [u8], tree: &Tree) -> Option<&'a [u8]>
    ensures { option_copied result ≡ word_bytes text.now tree.now }
{
    match tree {
        Tree::Leaf { kind, .. } => match kind {
            LeafKind::Symbol => symbol_bytes(text, tree),
            _ => None,
        },
        Tree::List { .. } => None,
    }
}

/// Whether the tree is a symbol of these bytes without bars.
pub fn is_word(text: &[u8], tree: &Tree, name: &[u8]) -> bool
    ensures { result ≡ is_word text.now tree.now name.now }
{
    match word_bytes(text, tree) {
        Some(bytes) => are_same(bytes, name),
        None => false,
    }
}

/// The name that a symbol spells; a reserved word is a name between bars alone.
pub fn name_of<'a>(text: &'a [u8], tree: &Tree) -> Option<&'a [u8]>
    ensures { option_copied result ≡ name_of text.now tree.now }
{
    match tree {
        Tree::Leaf { kind, .. } => match symbol_bytes(text, tree) {
            Some(name) => match kind {
                LeafKind::Symbol if is_reserved(name) => None,
                _ => Some(name),
            },
            None => None,
        },
        Tree::List { .. } => None,
    }
}

/// The sort that a symbol names.
pub fn sort_named(text: &[u8], tree: &Tree) -> Option<Sort>
    ensures { result ≡ sort_named text.now tree.now }
{
    match symbol_bytes(text, tree) {
        Some(name) if are_same(name, b"Int") => Some(Sort::Int),
        Some(name) if are_same(name, b"Bool") => Some(Sort::Bool),
        _ => None,
    }
}
