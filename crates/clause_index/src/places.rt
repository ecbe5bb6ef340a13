//! The places of a guard's literals and disjunctions.

ghost use Rattle.std.specs.Prelude.{◌≡◌, ◌∷◌, ◌++◌, ℕ, List, [], slice_index_or, IfOk, OnOk};
ghost use Rattle.refutation_trees.specs.Flatten.{disjunctions, literals};
ghost use Rattle.clause_index.specs.machinery.Places.{Adds, AddsAt, AddsParts, ArePlaces, HavePlaces, at, conjuncts};

use base::{Items, Memory};
use clause_form::Clause;
use lin_atoms::Form;
use std::alloc::Global;

/// The place of a part of a conjunction: its number there, its number in that part, where that is a
/// conjunction, too, and the numbers that lead on, where more of them stand in one another. What is no
/// conjunction is its own part 0.
pub(crate) struct Place {
    pub(crate) first: usize,
    pub(crate) second: usize,
    pub(crate) below: Items<usize>,
}

impl Drop for Place {
    fn drop(self) {
        let Place {
            first: _,
            second: _,
            below: _,
        } = self;
    }
}

/// The places of a guard's literals and of its disjunctions, in order.
pub(crate) struct Places {
    pub(crate) lits: Items<Place>,
    pub(crate) cases: Items<Place>,
}

impl Drop for Places {
    fn drop(self) {
        let Places { lits: _, cases: _ } = self;
    }
}

/// The part of a conjunction of that number; the formula itself where there is none.
fn part_of(form: &Form, number: usize) -> &Form
    ensures { result.now ≡ slice_index_or (conjuncts form.now) number form.now }
{
    match form {
        Form::And(parts) => match parts.as_slice().get(number) {
            Some(part) => part,
            None => form,
        },
        _ => form,
    }
}

/// Where the numbers lead.
fn at<'a>(form: &'a Form, path: &[usize]) -> &'a Form
    ensures { result.now ≡ at form.now path.now }
{
    let mut part = form;
    for number in path {
        part = part_of(part, *number);
    }
    part
}

impl Place {
    /// The part that stands there.
    pub(crate) fn part<'a>(&self, form: &'a Form) -> &'a Form
        ensures { result.now ≡ at form.now (self.now.first ∷ self.now.second ∷ self.now.below) }
    {
        let part = part_of(form, self.first);
        at(part_of(part, self.second), self.below.as_slice())
    }
}

/// A copy of the numbers; nothing is asked of the memory where there are none, as mostly.
fn copy_of(alloc: Global, below: &Items<usize>) -> Result<Items<usize>, Memory>
    ensures { IfOk result (λ copied. copied ≡ below.now) }
{
    if below.is_empty() {
        return Ok(Items::new(alloc));
    }
    Ok(Items::from_slice(alloc, below.as_slice())?)
}

/// Puts a place behind the others.
fn push_place(
    alloc: Global,
    places: &mut Items<Place>,
    first: usize,
    second: usize,
    below: &Items<usize>,
) -> Result<(), Memory>
    ensures { OnOk result (places.new ≡ places.old ++ record { first = first; second = second; below = below.now } ∷ []) }
{
    let below = copy_of(alloc, below)?;
    places.push(Place {
        first,
        second,
        below,
    })?;
    Ok(())
}

/// Takes the last number away.
fn go_back(below: &mut Items<usize>)
    ensures { (path : List ℕ) (n : ℕ) → below.old ≡ path ++ n ∷ [] → below.new ≡ path }
{
    match below.pop() {
        Some(_) => (),
        None => (),
    }
}

/// Puts the places of the literals and disjunctions of a formula behind the others. The numbers lead to it.
#[cycle(push)]
fn push_places(
    alloc: Global,
    places: &mut Places,
    first: usize,
    second: usize,
    below: &mut Items<usize>,
    form: &Form,
) -> Result<(), Memory>
    ensures same { OnOk result (below.new ≡ below.old) }
    ensures adds { OnOk result (AddsAt (first ∷ second ∷ below.old) places.old form.now places.new) }
{
    match form {
        Form::True => Ok(()),
        Form::And(parts) => {
            push_parts(alloc, places, first, second, below, parts.as_slice())?;
            Ok(())
        }
        Form::Or(_) => {
            push_place(alloc, &mut places.cases, first, second, below)?;
            Ok(())
        }
        Form::False => {
            push_place(alloc, &mut places.lits, first, second, below)?;
            Ok(())
        }
        Form::Lit(_) => {
            push_place(alloc, &mut places.lits, first, second, below)?;
            Ok(())
        }
    }
}

#[cycle(push)]
fn push_parts(
    alloc: Global,
    places: &mut Places,
    first: usize,
    second: usize,
    below: &mut Items<usize>,
    parts: &[Form],
) -> Result<(), Memory>
    ensures same { OnOk result (below.new ≡ below.old) }
    ensures adds { OnOk result (AddsParts (first ∷ second ∷ below.old) places.old parts.now places.new) }
{
    for (number, part) in parts.iter().enumerate() {
        below.push(number)?;
        push_places(alloc, places, first, second, below, part)?;
        go_back(below);
    }
    Ok(())
}

/// The places of the parts of a conjunction that is a part of the guard.
fn push_inner(
    alloc: Global,
    places: &mut Places,
    first: usize,
    parts: &[Form],
) -> Result<(), Memory>
    ensures { OnOk result (AddsParts (first ∷ []) places.old parts.now places.new) }
{
    let mut below = Items::new(alloc);
    for (number, part) in parts.iter().enumerate() {
        push_places(alloc, places, first, number, &mut below, part)?;
    }
    Ok(())
}

/// The places of a part of the guard.
fn push_part(alloc: Global, places: &mut Places, first: usize, form: &Form) -> Result<(), Memory>
    ensures { OnOk result (AddsAt (first ∷ []) places.old form.now places.new) }
{
    let below = Items::new(alloc);
    match form {
        Form::True => Ok(()),
        Form::And(parts) => {
            push_inner(alloc, places, first, parts.as_slice())?;
            Ok(())
        }
        Form::Or(_) => {
            push_place(alloc, &mut places.cases, first, 0, &below)?;
            Ok(())
        }
        Form::False => {
            push_place(alloc, &mut places.lits, first, 0, &below)?;
            Ok(())
        }
        Form::Lit(_) => {
            push_place(alloc, &mut places.lits, first, 0, &below)?;
            Ok(())
        }
    }
}

/// The places of the guard's parts, where it is a conjunction.
fn push_conjuncts(alloc: Global, places: &mut Places, parts: &[Form]) -> Result<(), Memory>
    ensures { OnOk result (AddsParts [] places.old parts.now places.new) }
{
    for (number, part) in parts.iter().enumerate() {
        push_part(alloc, places, number, part)?;
    }
    Ok(())
}

/// Puts the places of a guard's literals and disjunctions behind the others.
fn push_guard(alloc: Global, places: &mut Places, guard: &Form) -> Result<(), Memory>
    ensures { OnOk result (Adds guard.now places.old places.new (literals guard.now) (disjunctions guard.now)) }
{
    let below = Items::new(alloc);
    match guard {
        Form::True => Ok(()),
        Form::And(parts) => {
            push_conjuncts(alloc, places, parts.as_slice())?;
            Ok(())
        }
        Form::Or(_) => {
            push_place(alloc, &mut places.cases, 0, 0, &below)?;
            Ok(())
        }
        Form::False => {
            push_place(alloc, &mut places.lits, 0, 0, &below)?;
            Ok(())
        }
        Form::Lit(_) => {
            push_place(alloc, &mut places.lits, 0, 0, &below)?;
            Ok(())
        }
    }
}

/// The places of a guard's literals and disjunctions.
fn places_of(alloc: Global, guard: &Form) -> Result<Places, Memory>
    ensures { IfOk result (ArePlaces guard.now) }
{
    let mut places = Places {
        lits: Items::new(alloc),
        cases: Items::new(alloc),
    };
    push_guard(alloc, &mut places, guard)?;
    Ok(places)
}

/// The places of each clause's guard, in order.
pub(crate) fn all_places(alloc: Global, clauses: &[Clause]) -> Result<Items<Places>, Memory>
    ensures { IfOk result (HavePlaces clauses.now) }
{
    let mut made = Items::from_vec(Vec::with_capacity(alloc, clauses.len())?);
    for clause in clauses {
        made.push(places_of(alloc, &clause.guard)?)?;
    }
    Ok(made)
}
