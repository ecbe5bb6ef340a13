//! Heads of applications, and how many arguments they take.

ghost use Rattle.std.specs.Prelude.{◌≡◌};
ghost use Rattle.term_check.specs.Spelling.{is_numeral_leaf, is_divisible, list_head, spelled_head, unapplied_fault, declared_number_fault, head_fault};

use crate::head::Head;
use crate::names::{sorts_of, symbol_head};
use crate::part::Fault;
use crate::rules::number_fault;
use crate::signature::Signature;
use crate::trees::{is_symbol, is_word};
use crate::words::is_reserved;
use sexp_read::{LeafKind, Tree, numeral_value, symbol_bytes};
use term_tree::{Kind, Pred};

fn is_numeral(tree: &Tree) -> bool
    ensures { result ≡ is_numeral_leaf tree.now }
{
    match tree {
        Tree::Leaf { kind, .. } => match kind {
            LeafKind::Numeral => true,
            _ => false,
        },
        Tree::List { .. } => false,
    }
}

fn is_divisible(text: &[u8], a: &Tree, b: &Tree, n: &Tree) -> bool
    ensures { result ≡ is_divisible text.now a.now b.now n.now }
{
    is_word(text, a, b"_") && is_symbol(text, b, b"divisible") && is_numeral(n)
}

fn list_head(text: &[u8], start: u32, items: &[Tree]) -> Result<Head, Fault>
    ensures { result ≡ list_head text.now start items.now }
{
    match items {
        [a, b, n] if is_divisible(text, a, b, n) => Ok(Head::Divisibility(numeral_value(text, n))),
        _ => Err(Fault {
            kind: Kind::CommandForm,
            offset: start,
        }),
    }
}

pub fn unapplied_fault(start: u32, number: usize) -> Fault
    ensures { result ≡ unapplied_fault start number }
{
    let kind = if number == 0 {
        Kind::CommandForm
    } else {
        Kind::Arity
    };
    Fault {
        kind,
        offset: start,
    }
}

fn declared_number_fault(start: u32, declared: usize, number: usize) -> Option<Fault>
    ensures { result ≡ declared_number_fault start declared number }
{
    if declared == 0 {
        Some(unapplied_fault(start, number))
    } else if number == declared {
        None
    } else {
        Some(Fault {
            kind: Kind::Arity,
            offset: start,
        })
    }
}

/// Whether the head takes another number of arguments.
pub fn head_fault(preds: &[Pred], head: Head, start: u32, number: usize) -> Option<Fault>
    ensures { result ≡ head_fault preds.now head start number }
{
    match head {
        Head::Operator(op) => number_fault(op, start, number),
        Head::Declared(declared) => {
            declared_number_fault(start, sorts_of(preds, declared).len(), number)
        }
        Head::Constant => Some(unapplied_fault(start, number)),
        Head::Divisibility(_) => {
            if number == 1 {
                None
            } else {
                Some(Fault {
                    kind: Kind::Arity,
                    offset: start,
                })
            }
        }
    }
}

/// What a head is, by its form and name.
pub fn head_of(text: &[u8], signature: &Signature, tree: &Tree) -> Result<Head, Fault>
    ensures { result ≡ spelled_head text.now signature.now tree.now }
{
    match tree {
        Tree::List { items, start, .. } => list_head(text, *start, items.as_slice()),
        Tree::Leaf { kind, start, .. } => match symbol_bytes(text, tree) {
            Some(name) => match kind {
                LeafKind::Symbol if is_reserved(name) => Err(Fault {
                    kind: Kind::UnknownSymbol,
                    offset: *start,
                }),
                _ => symbol_head(signature, *start, name),
            },
            None => Err(Fault {
                kind: Kind::CommandForm,
                offset: *start,
            }),
        },
    }
}
