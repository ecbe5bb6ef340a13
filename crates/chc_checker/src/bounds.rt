//! Which variables a formula keeps between 0 and 1 by literals of its own.

ghost use Rattle.std.specs.Prelude.{◌≡◌, ◌<◌, length, slice_set, ◌∷◌, [], ◌⊎◌, ℕ, ℤ, pos, List, Some, IfSome, IfOk, true, int_le, slice_get};
ghost use Rattle.std.specs.List.{list_all};
ghost use Rattle.lin_atoms.specs.Linear.{value_at};
ghost use Rattle.lin_atoms.specs.Truth.{lit_truth, truth};
ghost use Rattle.chc_checker.specs.machinery.Links.{AreLeast, AreMost, AreWithin};

use base::Memory;
use lin_atoms::{Form, Lin, Lit};
use std::alloc::Global;

/// The variable of a form that is this coefficient times it, and this constant.
pub(crate) fn variable_of(lin: &Lin, coefficient: i64, constant: i128) -> Option<u32>
    ensures { IfSome result (λ v. lin.now ≡ record { terms = (v, coefficient) ∷ []; constant = constant }) }
{
    let [term] = lin.terms() else {
        return None;
    };
    if term.1 == coefficient && lin.constant() == constant {
        Some(term.0)
    } else {
        None
    }
}

/// A table without a mark.
pub(crate) fn unmarked(alloc: Global, vars: u32) -> Result<Vec<bool>, Memory>
    ensures { IfOk result (λ table. (v : ℕ) → slice_get table.items v ≡ Some true → ⊥) }
{
    let mut table = Vec::with_capacity(alloc, vars as usize)?;
    for _ in 0..vars {
        table.push(false)?;
    }
    Ok(table)
}

pub(crate) fn is_marked(table: &[bool], v: u32) -> bool
    ensures { result ≡ true → slice_get table.now v ≡ Some true }
{
    match table.get(v as usize) {
        Some(marked) => *marked,
        None => false,
    }
}

fn set(table: &mut [bool], at: usize)
    requires { at < length table.old }
    ensures { table.new ≡ slice_set table.old at true }
{
    table[at] = true;
}

fn put_mark(table: &mut [bool], v: u32)
    ensures { (w : ℕ) → slice_get table.new w ≡ Some true → (slice_get table.old w ≡ Some true) ⊎ (w ≡ v) }
{
    let at = v as usize;
    if at < table.len() {
        set(table, at);
    }
}

/// Marks the variable of `-v <= 0`.
#[tactic(auto, using(crate::proofs::ReplaceLemmas::least_more))]
fn mark_low(lin: &Lin, low: &mut [bool])
    ensures { (point : List ℤ) → int_le (value_at point lin.now) (pos 0) ≡ true → AreLeast low.old point → AreLeast low.new point }
{
    if let Some(v) = variable_of(lin, -1, 0) {
        put_mark(low, v);
    }
}

/// Marks the variable of `v - 1 <= 0`.
#[tactic(auto, using(crate::proofs::ReplaceLemmas::most_more))]
fn mark_high(lin: &Lin, high: &mut [bool])
    ensures { (point : List ℤ) → int_le (value_at point lin.now) (pos 0) ≡ true → AreMost high.old point → AreMost high.new point }
{
    if let Some(v) = variable_of(lin, 1, -1) {
        put_mark(high, v);
    }
}

#[tactic(auto, using(crate::proofs::ReplaceLemmas::within_more))]
fn mark_literal(lit: &Lit, low: &mut [bool], high: &mut [bool])
    ensures { (point : List ℤ) → lit_truth point lit.now ≡ true → AreWithin low.old high.old point → AreWithin low.new high.new point }
{
    if let Lit::Le(lin) = lit {
        mark_low(lin, low);
        mark_high(lin, high);
    }
}

/// Marks the variables that are at least 0, and those that are at most 1, by literals that stand in the
/// formula where it is a conjunction.
#[cycle(mark)]
pub(crate) fn mark(form: &Form, low: &mut [bool], high: &mut [bool])
    ensures { (point : List ℤ) → truth point form.now ≡ true → AreWithin low.old high.old point → AreWithin low.new high.new point }
{
    match form {
        Form::Lit(lit) => mark_literal(lit, low, high),
        Form::And(parts) => mark_all(parts.as_slice(), low, high),
        _ => (),
    }
}

#[cycle(mark)]
fn mark_all(parts: &[Form], low: &mut [bool], high: &mut [bool])
    ensures { (point : List ℤ) → list_all (truth point) parts.now ≡ true → AreWithin low.old high.old point → AreWithin low.new high.new point }
{
    for part in parts {
        mark(part, low, high);
    }
}
