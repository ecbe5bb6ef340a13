//! The values for which the integers of points and tuples stand.

ghost use Rattle.std.specs.Prelude.{◌≡◌, [], IfOk, slice_get, slice_index_or, option_map};
ghost use Rattle.term_tree.specs.Truth.{as_value, as_values};
ghost use Rattle.cert_derivations.specs.Steps.{as_atom, own_sorts};
ghost use Rattle.step_rules.specs.Views.{ground_conclusion};
ghost use Rattle.cert_derivations.specs.Lines.{line_head};

use base::{Items, Memory};
use clause_form::System;
use derivations::Fact;
use std::alloc::Global;
use term_tree::{Sort, Value};

/// The value of the sort that an integer stands for.
fn value_of(sort: Sort, number: i64) -> Value
    ensures { result ≡ as_value sort number }
{
    match sort {
        Sort::Int => Value::Int(number as i128),
        Sort::Bool => Value::Bool(number == 1),
    }
}

/// A value for each sort.
fn values(alloc: Global, sorts: &[Sort], point: &[i64]) -> Result<Items<Value>, Memory>
    ensures { IfOk result (λ values. values ≡ as_values sorts.now point.now) }
{
    let mut values = Vec::with_capacity(alloc, sorts.len())?;
    let mut at = 0;
    while at < sorts.len() && at < point.len() {
        values.push(value_of(sorts[at], point[at]))?;
        at += 1;
    }
    Ok(Items::from_vec(values))
}

/// The values of the assertion's own variables at the fact's point.
pub(crate) fn own_values(
    alloc: Global,
    system: &System,
    fact: &Fact,
) -> Result<Items<Value>, Memory>
    ensures { IfOk result (λ values. values ≡ as_values (own_sorts (slice_get system.now.clauses fact.now.clause)) fact.now.point) }
{
    let number = fact.clause as usize;
    if number >= system.clauses().len() {
        return Ok(Items::new(alloc));
    }
    let clause = system.clause(number);
    let own = clause.user as usize;
    values(
        alloc,
        &clause.sorts.as_slice()[..own],
        fact.point.as_slice(),
    )
}

/// The values of a tuple, by the sorts of its predicate.
fn tuple_values(
    alloc: Global,
    system: &System,
    pred: u32,
    tuple: &[i64],
) -> Result<Items<Value>, Memory>
    ensures { IfOk result (λ values. values ≡ as_values (slice_index_or system.now.preds pred []) tuple.now) }
{
    match system.preds().get(pred as usize) {
        Some(sorts) => values(alloc, sorts.as_slice(), tuple),
        None => Ok(Items::new(alloc)),
    }
}

/// What the fact concludes: a predicate with its values, or false.
pub(crate) fn head(
    alloc: Global,
    system: &System,
    fact: &Fact,
) -> Result<Option<(u32, Items<Value>)>, Memory>
    ensures { IfOk result (λ head. head ≡ option_map line_head (option_map (as_atom system.now) (ground_conclusion fact.now.pred fact.now.tuple))) }
{
    match fact.pred {
        None => Ok(None),
        Some(pred) => {
            let values = tuple_values(alloc, system, pred, fact.tuple.as_slice())?;
            Ok(Some((pred, values)))
        }
    }
}
