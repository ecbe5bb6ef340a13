//! The lines of facts of a book.

ghost use Rattle.std.specs.Prelude.{◌≡◌, ◌<◌, suc, map, IfOk, OnOk};
ghost use Rattle.std.specs.List.{AllPairs};
ghost use Rattle.cert_derivations.specs.Steps.{place_among};
ghost use Rattle.step_rules.specs.Views.{facts_of};
ghost use Rattle.cert_derivations.specs.Lines.{fact_lines, line_of};
ghost use Rattle.cert_derivations.specs.machinery.Adding.{HasAdded, kept_step};

use crate::values::{head, own_values};
use answer_text::Line;
use base::{Items, Memory};
use clause_form::System;
use derivations::{Fact, Facts};
use std::alloc::Global;

/// The number, from 1, of the line of a fact among those of these numbers.
fn number_among(among: &[u32], fact: u32) -> u64
    requires { AllPairs (λ x y. x < y) among.now }
    ensures { result ≡ suc (place_among among.now fact) }
{
    match among.binary_search(&fact) {
        Ok(place) => place as u64 + 1,
        Err(_) => among.len() as u64 + 1,
    }
}

/// The lines that give the body atoms.
fn numbers_among(alloc: Global, among: &[u32], facts: &[u32]) -> Result<Items<u64>, Memory>
    requires { AllPairs (λ x y. x < y) among.now }
    ensures { IfOk result (λ numbers. numbers ≡ map (λ p. suc p) (map (place_among among.now) facts.now)) }
{
    let mut numbers = Vec::with_capacity(alloc, facts.len())?;
    for fact in facts {
        numbers.push(number_among(among, *fact))?;
    }
    Ok(Items::from_vec(numbers))
}

/// The line of a fact, under this number.
fn line(
    alloc: Global,
    system: &System,
    among: &[u32],
    number: u64,
    fact: &Fact,
) -> Result<Line, Memory>
    requires { AllPairs (λ x y. x < y) among.now }
    ensures { IfOk result (λ line. line ≡ line_of number (kept_step system.now among.now fact.now)) }
{
    let values = own_values(alloc, system, fact)?;
    let premises = numbers_among(alloc, among, fact.premises.as_slice())?;
    let head = head(alloc, system, fact)?;
    Ok(Line {
        number,
        assertion: fact.clause as u64 + 1,
        values,
        premises,
        head,
    })
}

/// Adds the line of the fact of that number.
fn add(
    alloc: Global,
    system: &System,
    facts: &Facts,
    among: &[u32],
    id: u32,
    lines: &mut Vec<Line>,
) -> Result<(), Memory>
    requires { AllPairs (λ x y. x < y) among.now }
    ensures { OnOk result (HasAdded system.now (facts_of facts.now) among.now id lines.old.items lines.new.items) }
{
    if id >= facts.count() {
        return Ok(());
    }
    let number = lines.len() as u64 + 1;
    let line = line(alloc, system, among, number, facts.fact(id))?;
    lines.push(line)?;
    Ok(())
}

/// The lines of the facts of these numbers, which ascend: numbered from 1, with the values of the
/// assertions' own variables, and each premise as the number of its line. Premises are found in the
/// logarithm of the number of lines.
pub fn lines(
    alloc: Global,
    system: &System,
    facts: &Facts,
    among: &[u32],
) -> Result<Items<Line>, Memory>
    requires { AllPairs (λ x y. x < y) among.now }
    ensures { IfOk result (λ lines. lines ≡ fact_lines system.now (facts_of facts.now) among.now) }
{
    let mut lines = Vec::with_capacity(alloc, among.len())?;
    for id in among {
        add(alloc, system, facts, among, *id, &mut lines)?;
    }
    Ok(Items::from_vec(lines))
}
