//! The parameters of a definition that is read.

ghost use Rattle.std.specs.Prelude.{◌≡◌, ◌≤◌, length, map, [], IfOk};
ghost use Rattle.term_check.specs.Weight.{weight};
ghost use Rattle.answer_text.specs.Reading.{parameter_of, parameter, parameters_from, parameters_of, read_parameters};
ghost use Rattle.answer_text.specs.Read.{Gives, Adds};

use crate::found::Found;
use crate::stop::{AnswerStop, bad_at};
use crate::trees::has_sort;
use base::{Copied, Items, Memory};
use keyed_hash::KeyedState;
use sexp_read::Tree;
use std::alloc::Global;
use term_check::{name_of, start_of};
use term_tree::{Name, Sort};

fn parameter_of<'a>(
    alloc: Global,
    text: &'a [u8],
    found: &mut Found<'a>,
    sort: Sort,
    start: u32,
    trees: &[Tree],
) -> Result<(), AnswerStop>
    ensures { Adds (parameter_of text.now found.old sort start trees.now) found.old found.new result }
{
    match trees {
        [name, word] => match name_of(text, name) {
            Some(bytes) => {
                if !found.is_new(bytes) {
                    return Err(bad_at(start_of(name)));
                }
                if !has_sort(text, word, sort) {
                    return Err(bad_at(start_of(word)));
                }
                found.add(alloc, bytes, sort)?;
                Ok(())
            }
            None => Err(bad_at(start_of(name))),
        },
        _ => Err(bad_at(start)),
    }
}

fn parameter<'a>(
    alloc: Global,
    text: &'a [u8],
    found: &mut Found<'a>,
    sort: Sort,
    tree: &Tree,
) -> Result<(), AnswerStop>
    ensures { Adds (parameter text.now found.old sort tree.now) found.old found.new result }
{
    match tree {
        Tree::Leaf { start, .. } => Err(bad_at(*start)),
        Tree::List { items, start, .. } => {
            parameter_of(alloc, text, found, sort, *start, items.as_slice())
        }
    }
}

fn parameters_from(
    alloc: Global,
    key: KeyedState,
    text: &[u8],
    trees: &[Tree],
    sorts: &[Sort],
) -> Result<Items<(Name, Sort)>, AnswerStop>
    requires { length trees.now ≡ length sorts.now }
    ensures params { Gives (parameters_from text.now [] trees.now sorts.now) result }
    ensures count { IfOk result (λ params. length params ≡ length trees.now) }
{
    let mut found = Found::new(alloc, key);
    let mut i = 0;
    while i < trees.len() {
        if let Err(stop) = parameter(alloc, text, &mut found, sorts[i], &trees[i]) {
            return Err(stop);
        }
        i += 1;
    }
    Ok(found.into_items())
}

fn parameters_of(
    alloc: Global,
    key: KeyedState,
    text: &[u8],
    sorts: &[Sort],
    start: u32,
    trees: &[Tree],
) -> Result<Items<(Name, Sort)>, AnswerStop>
    ensures params { Gives (parameters_of text.now sorts.now start trees.now) result }
    ensures count { IfOk result (λ params. length params ≡ length trees.now) }
{
    if trees.len() != sorts.len() {
        return Err(bad_at(start));
    }
    parameters_from(alloc, key, text, trees, sorts)
}

/// The parameters of a predicate with arguments of these sorts. Names are hashed under the key.
pub fn parameters(
    alloc: Global,
    key: KeyedState,
    text: &[u8],
    sorts: &[Sort],
    tree: &Tree,
) -> Result<Items<(Name, Sort)>, AnswerStop>
    ensures params { Gives (read_parameters text.now sorts.now tree.now) result }
    ensures count { IfOk result (λ params. length params ≤ weight tree.now) }
{
    match tree {
        Tree::Leaf { start, .. } => Err(bad_at(*start)),
        Tree::List { items, start, .. } => {
            let params = parameters_of(alloc, key, text, sorts, *start, items.as_slice())?;
            Ok(params)
        }
    }
}

/// Their names alone.
pub fn names_of(alloc: Global, params: &[(Name, Sort)]) -> Result<Items<Name>, Memory>
    ensures { IfOk result (λ names. names ≡ map (λ p. p.0) params.now) }
{
    let mut names = Vec::with_capacity(alloc, params.len())?;
    for (name, _) in params {
        names.push(name.copy(alloc)?)?;
    }
    Ok(Items::from_vec(names))
}
