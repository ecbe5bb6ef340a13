//! The rules of commands without names and terms.

ghost use Rattle.std.specs.Prelude.{◌≡◌};
ghost use Rattle.sort_check.specs.Commands.{order_fault, form_fault, count_fault, logic_fault, set_logic_fault, is_keyword, is_information, inform_fault, alone_fault, assert_fault, bool_fault};

use base::MOST_ASSERTIONS;
use sexp_read::{LeafKind, Tree, symbol_bytes};
use term_check::{Fault, Part, fault, is_symbol, start_of};
use term_tree::{Kind, Sort};

pub fn order_fault(start: u32, allowed: bool) -> Option<Fault>
    ensures { result ≡ order_fault start allowed }
{
    if allowed {
        None
    } else {
        Some(fault(Kind::Order, start))
    }
}

pub fn form_fault(tree: &Tree, formed: bool) -> Option<Fault>
    ensures { result ≡ form_fault tree.now formed }
{
    if formed {
        None
    } else {
        Some(fault(Kind::CommandForm, start_of(tree)))
    }
}

pub fn count_fault(start: u32, within: bool) -> Option<Fault>
    ensures { result ≡ count_fault start within }
{
    if within {
        None
    } else {
        Some(fault(Kind::Count, start))
    }
}

fn logic_fault(text: &[u8], name: &Tree) -> Option<Fault>
    ensures { result ≡ logic_fault text.now name.now }
{
    if is_symbol(text, name, b"HORN") {
        None
    } else {
        Some(fault(Kind::Logic, start_of(name)))
    }
}

/// What is wrong with a `set-logic`; fresh says that there were no other commands than `set-info`
/// and `set-option`.
pub fn set_logic_fault(text: &[u8], fresh: bool, start: u32, parts: &[Tree]) -> Option<Fault>
    ensures { result ≡ set_logic_fault text.now fresh start parts.now }
{
    match parts {
        [name] => {
            if let Some(fault) = form_fault(name, symbol_bytes(text, name).is_some()) {
                return Some(fault);
            }
            if let Some(fault) = order_fault(start, fresh) {
                return Some(fault);
            }
            logic_fault(text, name)
        }
        _ => Some(fault(Kind::CommandForm, start)),
    }
}

fn is_keyword(tree: &Tree) -> bool
    ensures { result ≡ is_keyword tree.now }
{
    match tree {
        Tree::Leaf { kind, .. } => match kind {
            LeafKind::Keyword => true,
            _ => false,
        },
        Tree::List { .. } => false,
    }
}

fn is_information(parts: &[Tree]) -> bool
    ensures { result ≡ is_information parts.now }
{
    match parts {
        [key] => is_keyword(key),
        [key, _] => is_keyword(key),
        _ => false,
    }
}

/// What is wrong with a `set-info` or `set-option`.
pub fn inform_fault(start: u32, parts: &[Tree]) -> Option<Fault>
    ensures { result ≡ inform_fault start parts.now }
{
    if is_information(parts) {
        None
    } else {
        Some(fault(Kind::CommandForm, start))
    }
}

/// What is wrong with a command that is its word alone.
pub fn alone_fault(start: u32, allowed: bool, parts: &[Tree]) -> Option<Fault>
    ensures { result ≡ alone_fault start allowed parts.now }
{
    match parts {
        [] => order_fault(start, allowed),
        _ => Some(fault(Kind::CommandForm, start)),
    }
}

/// What is wrong with an assertion behind `count` others, before its term is looked at; it is allowed
/// where there was no `check-sat`.
pub fn assert_fault(allowed: bool, count: usize, start: u32) -> Option<Fault>
    ensures { result ≡ assert_fault allowed count start }
{
    if let Some(fault) = order_fault(start, allowed) {
        return Some(fault);
    }
    count_fault(start, count < MOST_ASSERTIONS)
}

/// What is wrong with an asserted term.
pub fn bool_fault(part: Part) -> Option<Fault>
    ensures { result ≡ bool_fault part }
{
    match part.sort {
        Sort::Int => Some(fault(Kind::SortMismatch, part.start)),
        Sort::Bool => None,
    }
}
