//! The steps of a derivation that is read.

ghost use Rattle.std.specs.Prelude.{◌≡◌, ◌<◌, [], length, IfOk};
ghost use Rattle.std.specs.Option.{IfSome};
ghost use Rattle.term_check.specs.Spelling.{name_of};
ghost use Rattle.answer_text.specs.Reading.{pred, declared_by, with_values, read_applied, atom, conclusion, step_of, step, read_each, derivation_of, derivation};
ghost use Rattle.answer_text.specs.Read.{Gives};

use crate::answer::Line;
use crate::declared::Declared;
use crate::stop::{AnswerStop, bad_at};
use crate::values::{number, number_list, value_list, values};
use base::Items;
use sexp_read::Tree;
use std::alloc::Global;
use term_check::{is_symbol, name_of, start_of};
use term_tree::Value;

/// The number of the predicate that a symbol names.
fn declared_by(text: &[u8], declared: &Declared, tree: &Tree) -> Option<u32>
    ensures number { result ≡ declared_by declared.now (name_of text.now tree.now) }
    ensures within { IfSome result (λ number. number < length declared.now) }
{
    match name_of(text, tree) {
        Some(name) => declared.number_of(name),
        None => None,
    }
}

/// The number of the predicate that a tree names.
pub fn pred(text: &[u8], declared: &Declared, tree: &Tree) -> Result<u32, AnswerStop>
    ensures number { Gives (pred text.now declared.now tree.now) result }
    ensures within { IfOk result (λ number. number < length declared.now) }
{
    match declared_by(text, declared, tree) {
        Some(number) => Ok(number),
        None => Err(bad_at(start_of(tree))),
    }
}

fn with_values(declared: &Declared, number: u32, count: usize) -> bool
    ensures { result ≡ with_values declared.now number count }
{
    count != 0 && count == declared.arity(number)
}

fn applied(
    alloc: Global,
    text: &[u8],
    declared: &Declared,
    start: u32,
    trees: &[Tree],
) -> Result<(u32, Items<Value>), AnswerStop>
    ensures { Gives (read_applied text.now declared.now start trees.now) result }
{
    match trees {
        [] => Err(bad_at(start)),
        [name, args @ ..] => {
            let number = pred(text, declared, name)?;
            if !with_values(declared, number, args.len()) {
                return Err(bad_at(start));
            }
            let values = values(alloc, text, args)?;
            Ok((number, values))
        }
    }
}

fn atom(
    alloc: Global,
    text: &[u8],
    declared: &Declared,
    tree: &Tree,
) -> Result<(u32, Items<Value>), AnswerStop>
    ensures { Gives (atom text.now declared.now tree.now) result }
{
    match tree {
        Tree::Leaf { start, .. } => match declared_by(text, declared, tree) {
            Some(number) if declared.arity(number) == 0 => Ok((number, Items::new(alloc))),
            _ => Err(bad_at(*start)),
        },
        Tree::List { items, start, .. } => {
            applied(alloc, text, declared, *start, items.as_slice())
        }
    }
}

fn conclusion(
    alloc: Global,
    text: &[u8],
    declared: &Declared,
    tree: &Tree,
) -> Result<Option<(u32, Items<Value>)>, AnswerStop>
    ensures { Gives (conclusion text.now declared.now tree.now) result }
{
    if is_symbol(text, tree, b"false") {
        return Ok(None);
    }
    let head = atom(alloc, text, declared, tree)?;
    Ok(Some(head))
}

fn step_of(
    alloc: Global,
    text: &[u8],
    declared: &Declared,
    start: u32,
    trees: &[Tree],
) -> Result<Line, AnswerStop>
    ensures { Gives (step_of text.now declared.now start trees.now) result }
{
    match trees {
        [word, place, assertion, values, premises, head] => {
            if !is_symbol(text, word, b"step") {
                return Err(bad_at(start));
            }
            let number_is = number(text, place)?;
            let assertion = number(text, assertion)?;
            let values = value_list(alloc, text, values)?;
            let premises = number_list(alloc, text, premises)?;
            let head = conclusion(alloc, text, declared, head)?;
            Ok(Line {
                number: number_is,
                assertion,
                values,
                premises,
                head,
            })
        }
        _ => Err(bad_at(start)),
    }
}

fn step(alloc: Global, text: &[u8], declared: &Declared, tree: &Tree) -> Result<Line, AnswerStop>
    ensures { Gives (step text.now declared.now tree.now) result }
{
    match tree {
        Tree::Leaf { start, .. } => Err(bad_at(*start)),
        Tree::List { items, start, .. } => {
            step_of(alloc, text, declared, *start, items.as_slice())
        }
    }
}

fn steps(
    alloc: Global,
    text: &[u8],
    declared: &Declared,
    trees: &[Tree],
) -> Result<Items<Line>, AnswerStop>
    ensures { Gives (read_each (step text.now declared.now) [] trees.now) result }
{
    let mut lines = Vec::with_capacity(alloc, trees.len())?;
    for tree in trees {
        let line = step(alloc, text, declared, tree)?;
        lines.push(line)?;
    }
    Ok(Items::from_vec(lines))
}

fn derivation_of(
    alloc: Global,
    text: &[u8],
    declared: &Declared,
    start: u32,
    trees: &[Tree],
) -> Result<Items<Line>, AnswerStop>
    ensures { Gives (derivation_of text.now declared.now start trees.now) result }
{
    match trees {
        [] => Err(bad_at(start)),
        [word, rest @ ..] => {
            if !is_symbol(text, word, b"derivation") {
                return Err(bad_at(start));
            }
            steps(alloc, text, declared, rest)
        }
    }
}

/// A derivation.
pub fn derivation(
    alloc: Global,
    text: &[u8],
    declared: &Declared,
    tree: &Tree,
) -> Result<Items<Line>, AnswerStop>
    ensures { Gives (derivation text.now declared.now tree.now) result }
{
    match tree {
        Tree::Leaf { start, .. } => Err(bad_at(*start)),
        Tree::List { items, start, .. } => {
            derivation_of(alloc, text, declared, *start, items.as_slice())
        }
    }
}
