//! The rules of declarations.

ghost use Rattle.std.specs.Prelude.{◌≡◌, take, IfOk};
ghost use Rattle.sort_check.specs.Commands.{most_arguments, is_theory_name, taken_fault, unknown_sort_fault, sorts_fault, truth_fault, result_fault, signature_fault, declaration_fault, sorts_named, predicate_named};

use crate::rules::{count_fault, form_fault, order_fault};
use base::{Items, MOST_ARGUMENTS, MOST_PREDICATES, Memory};
use sexp_read::Tree;
use std::alloc::Global;
use term_check::{Fault, Signature, fault, name_of, operator_named, sort_named, start_of};
use term_tree::{Kind, Name, Pred, Sort};

fn is_theory_name(name: &[u8]) -> bool
    ensures { result ≡ is_theory_name name.now }
{
    name == b"true".as_slice() || name == b"false".as_slice() || operator_named(name).is_some()
}

fn taken_fault(signature: &Signature, start: u32, name: &[u8]) -> Option<Fault>
    ensures { result ≡ taken_fault signature.now start name.now }
{
    if is_theory_name(name) || signature.number_of(name).is_some() {
        Some(fault(Kind::Redeclared, start))
    } else {
        None
    }
}

fn sort_fault(text: &[u8], sort: &Tree) -> Option<Fault>
    ensures { result ≡ unknown_sort_fault text.now sort.now }
{
    match sort_named(text, sort) {
        Some(_) => None,
        None => Some(fault(Kind::UnknownSort, start_of(sort))),
    }
}

fn sorts_fault(text: &[u8], sorts: &[Tree]) -> Option<Fault>
    ensures { result ≡ sorts_fault text.now sorts.now }
{
    for sort in sorts {
        if let Some(fault) = sort_fault(text, sort) {
            return Some(fault);
        }
    }
    None
}

fn truth_fault(tree: &Tree, sort: Option<Sort>) -> Option<Fault>
    ensures { result ≡ truth_fault tree.now sort }
{
    match sort {
        Some(Sort::Bool) => None,
        Some(Sort::Int) => Some(fault(Kind::SortMismatch, start_of(tree))),
        None => Some(fault(Kind::UnknownSort, start_of(tree))),
    }
}

fn result_fault(text: &[u8], tree: &Tree) -> Option<Fault>
    ensures { result ≡ result_fault text.now tree.now }
{
    truth_fault(tree, sort_named(text, tree))
}

/// The first sorts, as many as a predicate may have.
fn first_sorts(sorts: &[Tree]) -> &[Tree]
    ensures { result.now ≡ take most_arguments sorts.now }
{
    if sorts.len() > MOST_ARGUMENTS {
        &sorts[..MOST_ARGUMENTS]
    } else {
        sorts
    }
}

fn signature_fault(
    text: &[u8],
    signature: &Signature,
    start: u32,
    sorts: &[Tree],
    last: &Tree,
) -> Option<Fault>
    ensures { result ≡ signature_fault text.now signature.now start sorts.now last.now }
{
    if let Some(fault) = sorts_fault(text, first_sorts(sorts)) {
        return Some(fault);
    }
    if let Some(fault) = count_fault(start, sorts.len() <= MOST_ARGUMENTS) {
        return Some(fault);
    }
    if let Some(fault) = result_fault(text, last) {
        return Some(fault);
    }
    count_fault(start, signature.len() < MOST_PREDICATES)
}

/// What is wrong with a declaration; it is allowed where there was no `check-sat`.
pub fn declaration_fault(
    text: &[u8],
    allowed: bool,
    signature: &Signature,
    start: u32,
    name: &Tree,
    sorts: &[Tree],
    last: &Tree,
) -> Option<Fault>
    ensures { result ≡ declaration_fault text.now allowed signature.now start name.now sorts.now last.now }
{
    let word = name_of(text, name);
    if let Some(fault) = form_fault(name, word.is_some()) {
        return Some(fault);
    }
    if let Some(fault) = order_fault(start, allowed) {
        return Some(fault);
    }
    if let Some(fault) = taken_fault(signature, start_of(name), word.unwrap_or(&[])) {
        return Some(fault);
    }
    signature_fault(text, signature, start, sorts, last)
}

fn sorts_named(alloc: Global, text: &[u8], sorts: &[Tree]) -> Result<Items<Sort>, Memory>
    ensures { IfOk result (λ named. named ≡ sorts_named text.now sorts.now) }
{
    let mut named = Vec::with_capacity(alloc, sorts.len())?;
    for sort in sorts {
        named.push(sort_named(text, sort).unwrap_or(Sort::Bool))?;
    }
    Ok(Items::from_vec(named))
}

/// The predicate that a declaration without a fault declares.
pub fn predicate_named(
    alloc: Global,
    text: &[u8],
    name: &Tree,
    sorts: &[Tree],
) -> Result<Pred, Memory>
    ensures { IfOk result (λ pred. pred ≡ predicate_named text.now name.now sorts.now) }
{
    let bytes = Items::from_slice(alloc, name_of(text, name).unwrap_or(&[]))?;
    let args = sorts_named(alloc, text, sorts)?;
    Ok(Pred {
        name: Name { bytes },
        args,
    })
}
