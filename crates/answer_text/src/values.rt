//! Numbers and values that are read.

ghost use Rattle.std.specs.Prelude.{◌≡◌, []};
ghost use Rattle.answer_text.specs.Reading.{read_numeral, integer_value, negative_value, negation, plain_value, read_value, value, read_each, in_list};
ghost use Rattle.answer_text.specs.Read.{Gives};

use crate::stop::{AnswerStop, bad_at};
use base::Items;
use sexp_read::{Tree, numeral_value};
use std::alloc::Global;
use term_check::{is_symbol, start_of};
use term_tree::Value;

/// A numeral below 2 ^ 63.
pub fn number(text: &[u8], tree: &Tree) -> Result<u64, AnswerStop>
    ensures { Gives (read_numeral text.now tree.now) result }
{
    match numeral_value(text, tree) {
        Some(number) => Ok(number),
        None => Err(bad_at(start_of(tree))),
    }
}

fn integer(number: Option<u64>) -> Option<Value>
    ensures { result ≡ integer_value number }
{
    match number {
        Some(number) => Some(Value::Int(i128::from(number))),
        None => None,
    }
}

fn negated(number: Option<u64>) -> Option<Value>
    ensures { result ≡ negative_value number }
{
    match number {
        Some(0) => None,
        Some(number) => Some(Value::Int(-i128::from(number))),
        None => None,
    }
}

fn negation(text: &[u8], trees: &[Tree]) -> Option<Value>
    ensures { result ≡ negation text.now trees.now }
{
    match trees {
        [minus, number] if is_symbol(text, minus, b"-") => negated(numeral_value(text, number)),
        _ => None,
    }
}

fn plain_value(text: &[u8], tree: &Tree) -> Option<Value>
    ensures { result ≡ plain_value text.now tree.now }
{
    if is_symbol(text, tree, b"true") {
        Some(Value::Bool(true))
    } else if is_symbol(text, tree, b"false") {
        Some(Value::Bool(false))
    } else {
        integer(numeral_value(text, tree))
    }
}

fn value_of(text: &[u8], tree: &Tree) -> Option<Value>
    ensures { result ≡ read_value text.now tree.now }
{
    match tree {
        Tree::Leaf { .. } => plain_value(text, tree),
        Tree::List { items, .. } => negation(text, items.as_slice()),
    }
}

fn value(text: &[u8], tree: &Tree) -> Result<Value, AnswerStop>
    ensures { Gives (value text.now tree.now) result }
{
    match value_of(text, tree) {
        Some(value) => Ok(value),
        None => Err(bad_at(start_of(tree))),
    }
}

/// A value from each tree.
pub fn values(alloc: Global, text: &[u8], trees: &[Tree]) -> Result<Items<Value>, AnswerStop>
    ensures { Gives (read_each (value text.now) [] trees.now) result }
{
    let mut values = Vec::with_capacity(alloc, trees.len())?;
    for tree in trees {
        let value = value(text, tree)?;
        values.push(value)?;
    }
    Ok(Items::from_vec(values))
}

fn numbers(alloc: Global, text: &[u8], trees: &[Tree]) -> Result<Items<u64>, AnswerStop>
    ensures { Gives (read_each (read_numeral text.now) [] trees.now) result }
{
    let mut numbers = Vec::with_capacity(alloc, trees.len())?;
    for tree in trees {
        let number = number(text, tree)?;
        numbers.push(number)?;
    }
    Ok(Items::from_vec(numbers))
}

/// A list of values.
pub fn value_list(alloc: Global, text: &[u8], tree: &Tree) -> Result<Items<Value>, AnswerStop>
    ensures { Gives (in_list (read_each (value text.now) []) tree.now) result }
{
    match tree {
        Tree::Leaf { start, .. } => Err(bad_at(*start)),
        Tree::List { items, .. } => values(alloc, text, items.as_slice()),
    }
}

/// A list of numbers.
pub fn number_list(alloc: Global, text: &[u8], tree: &Tree) -> Result<Items<u64>, AnswerStop>
    ensures { Gives (in_list (read_each (read_numeral text.now) []) tree.now) result }
{
    match tree {
        Tree::Leaf { start, .. } => Err(bad_at(*start)),
        Tree::List { items, .. } => numbers(alloc, text, items.as_slice()),
    }
}
