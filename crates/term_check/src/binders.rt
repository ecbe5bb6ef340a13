//! The forms that bind names: `let`, `forall` and `exists`.

ghost use Rattle.std.specs.Prelude.{◌≡◌, ◌<◌, [], length, nat_eq, Some, None, if◌then◌else◌, IfOk};
ghost use Rattle.std.specs.List.{list_all};
ghost use Rattle.std.specs.Option.{option_copied};
ghost use Rattle.term_tree.specs.declared.refusal.Kind.TheVariants.{Redeclared};
ghost use Rattle.term_check.specs.Rules.{fault};
ghost use Rattle.term_check.specs.Words.{is_word_among};
ghost use Rattle.term_check.specs.Spelling.{items_of, first_name, name_start, sort_in, sort_start, name_or_none, sort_or_bool, names_fault, binder_fault, let_names_fault, sort_name_fault, variables_fault, sorts_bound};

use crate::part::Fault;
use crate::seen::Seen;
use crate::trees::{name_of, sort_named, start_of};
use base::{Items, Memory};
use keyed_hash::KeyedState;
use sexp_read::Tree;
use std::alloc::Global;
use term_tree::{Kind, Sort};

/// The trees of a list. A leaf has none.
pub fn items_of(tree: &Tree) -> &[Tree]
    ensures { result.now ≡ items_of tree.now }
{
    match tree {
        Tree::List { items, .. } => items.as_slice(),
        Tree::Leaf { .. } => &[],
    }
}

/// The name in an item of a binder, if it has a form that may be bound.
fn name_in<'a>(text: &'a [u8], item: &Tree) -> Option<&'a [u8]>
    ensures { option_copied result ≡ first_name text.now item.now }
{
    match items_of(item) {
        [] => None,
        [name, ..] => name_of(text, name),
    }
}

/// The name that an item of a binder binds.
pub fn name_bound<'a>(text: &'a [u8], item: &Tree) -> &'a [u8]
    ensures { result.now ≡ name_or_none (first_name text.now item.now) }
{
    match name_in(text, item) {
        Some(name) => name,
        None => &[],
    }
}

fn name_start(item: &Tree) -> u32
    ensures { result ≡ name_start item.now }
{
    match items_of(item) {
        [] => 0,
        [name, ..] => start_of(name),
    }
}

fn sort_in(text: &[u8], item: &Tree) -> Option<Sort>
    ensures { result ≡ sort_in text.now item.now }
{
    match items_of(item) {
        [_, sort, ..] => sort_named(text, sort),
        _ => None,
    }
}

/// The sort of the variable that an item of a binder binds.
pub fn sort_bound(text: &[u8], item: &Tree) -> Sort
    ensures { result ≡ sort_or_bool (sort_in text.now item.now) }
{
    match sort_in(text, item) {
        Some(sort) => sort,
        None => Sort::Bool,
    }
}

fn sort_start(item: &Tree) -> u32
    ensures { result ≡ sort_start item.now }
{
    match items_of(item) {
        [_, sort, ..] => start_of(sort),
        _ => 0,
    }
}

fn names_fault(text: &[u8], items: &[Tree]) -> Option<Fault>
    ensures { result ≡ names_fault text.now items.now }
{
    for item in items {
        if name_in(text, item).is_none() {
            return Some(Fault {
                kind: Kind::CommandForm,
                offset: name_start(item),
            });
        }
    }
    None
}

fn are_pairs(items: &[Tree]) -> bool
    ensures { result ≡ list_all (λ item. nat_eq (length (items_of item)) 2) items.now }
{
    items.iter().all(|item| items_of(item).len() == 2)
}

/// Whether it is no list of pairs, at least one, or one of them doesn't begin with a name.
pub fn binder_fault(text: &[u8], binder: &Tree) -> Option<Fault>
    ensures { result ≡ binder_fault text.now binder.now }
{
    let items = items_of(binder);
    if items.len() == 0 || !are_pairs(items) {
        Some(Fault {
            kind: Kind::CommandForm,
            offset: start_of(binder),
        })
    } else {
        names_fault(text, items)
    }
}

/// The fault of an item whose name stands before.
fn repeated_fault<'a>(seen: &Seen<'a>, name: &[u8], item: &Tree) -> Option<Fault>
    ensures { result ≡ (if is_word_among seen.now name.now then Some (fault Redeclared (name_start item.now)) else None) }
{
    if seen.contains(name) {
        Some(Fault {
            kind: Kind::Redeclared,
            offset: name_start(item),
        })
    } else {
        None
    }
}

/// The first name of a `let` that stands in its binder before.
pub fn let_names_fault(
    alloc: Global,
    key: KeyedState,
    text: &[u8],
    items: &[Tree],
) -> Result<Option<Fault>, Memory>
    ensures { IfOk result (λ fault. fault ≡ let_names_fault text.now [] items.now) }
{
    let mut seen = Seen::with_room(alloc, key, items.len())?;
    for item in items {
        let name = name_bound(text, item);
        if let Some(fault) = repeated_fault(&seen, name, item) {
            return Ok(Some(fault));
        }
        seen.add(name)?;
    }
    Ok(None)
}

fn sort_name_fault(text: &[u8], item: &Tree) -> Option<Fault>
    ensures { result ≡ sort_name_fault text.now item.now }
{
    match sort_in(text, item) {
        Some(_) => None,
        None => Some(Fault {
            kind: Kind::UnknownSort,
            offset: sort_start(item),
        }),
    }
}

/// The first name of a quantifier that stands in its binder before, or the first sort that is none.
pub fn variables_fault(
    alloc: Global,
    key: KeyedState,
    text: &[u8],
    items: &[Tree],
) -> Result<Option<Fault>, Memory>
    ensures { IfOk result (λ fault. fault ≡ variables_fault text.now [] items.now) }
{
    let mut seen = Seen::with_room(alloc, key, items.len())?;
    for item in items {
        let name = name_bound(text, item);
        if let Some(fault) = repeated_fault(&seen, name, item) {
            return Ok(Some(fault));
        }
        if let Some(fault) = sort_name_fault(text, item) {
            return Ok(Some(fault));
        }
        seen.add(name)?;
    }
    Ok(None)
}

/// The sorts of a quantifier's variables.
pub fn sorts_bound(alloc: Global, text: &[u8], items: &[Tree]) -> Result<Items<Sort>, Memory>
    ensures { IfOk result (λ sorts. sorts ≡ sorts_bound text.now items.now) }
{
    let mut sorts = Vec::with_capacity(alloc, items.len())?;
    for item in items {
        sorts.push(sort_bound(text, item))?;
    }
    Ok(Items::from_vec(sorts))
}
