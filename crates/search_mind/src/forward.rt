//! Facts of a trace of false that running clauses forward has found, recorded one after another.

ghost use Rattle.std.specs.Prelude.{◌≡◌, ℕ, true, IfOk, IfSome};
ghost use Rattle.chc_tokens.specs.Tokens.{is_seen};
ghost use Rattle.search_strategy.specs.machinery.Steps.{IsOffered};

use base::{Items, Memory};
use chc_tokens::{Seen, are_short, has_values, seen};
use clause_form::System;
use derivations::Facts;
use search_runner::{Instance, Runner};
use std::alloc::Global;
use step_rules::{DerivePart, Lent, Step};

/// What one worker runs forward beside its turns.
#[derive(Drop)]
pub(crate) struct Forward {
    /// Whether this worker does.
    is_on: bool,
    /// None before the first turn.
    runner: Option<Runner>,
    /// The trace whose facts are being recorded.
    trace: Vec<Instance>,
    /// How many of its instances were handed out, or needn't be.
    next: usize,
}

/// The fact that records what the instance gives.
fn fact_of(facts: &Facts, instance: &Instance) -> Option<u32> {
    match instance.pred {
        Some(pred) => facts.find(pred, instance.tuple.as_slice()),
        None => None,
    }
}

/// The fact at a place of the trace.
fn fact_at(facts: &Facts, trace: &[Instance], place: usize) -> Option<u32> {
    match trace.get(place) {
        Some(instance) => fact_of(facts, instance),
        None => None,
    }
}

/// The facts of the instance's body, if all are recorded.
fn premises_of(
    alloc: Global,
    facts: &Facts,
    trace: &[Instance],
    instance: &Instance,
) -> Result<Option<Items<u32>>, Memory> {
    let mut made = Items::new(alloc);
    for place in instance.premises.as_slice() {
        match fact_at(facts, trace, *place) {
            Some(number) => made.push(number)?,
            None => return Ok(None),
        }
    }
    Ok(Some(made))
}

/// The instance as the system's, if it is one.
fn seen_of(alloc: Global, sys: &System, instance: &Instance) -> Result<Option<Seen>, Memory>
    ensures { IfOk result (λ found. IfSome found (λ s. is_seen sys.now s ≡ true)) }
{
    let point = Vec::from_slice(alloc, instance.point.as_slice())?;
    if !has_values(sys, instance.clause, point.as_slice()) {
        return Ok(None);
    }
    if !are_short(point.as_slice()) {
        return Ok(None);
    }
    match seen(sys, instance.clause, point) {
        Ok(seen) => Ok(Some(seen)),
        Err(_stop) => Ok(None),
    }
}

/// The step that records what the instance gives, if its premises are recorded.
fn derived(lent: &Lent, trace: &[Instance], instance: &Instance) -> Result<Option<Step>, Memory>
    ensures { (nodes : ℕ) → IfOk result (λ found. IfSome found (IsOffered lent.now.system nodes)) }
{
    let Some(premises) = premises_of(lent.alloc, lent.facts, trace, instance)? else {
        return Ok(None);
    };
    match seen_of(lent.alloc, lent.system.plain(), instance)? {
        Some(seen) => Ok(Some(Step::DeriveStep(DerivePart { seen, premises }))),
        None => Ok(None),
    }
}

impl Forward {
    /// Nothing was run yet.
    pub(crate) fn new(alloc: Global, is_on: bool) -> Forward {
        Forward {
            is_on,
            runner: None,
            trace: Vec::new(alloc),
            next: 0,
        }
    }

    /// Runs clauses forward, as far as the units that were spent allow.
    fn run(&mut self, lent: &Lent) -> Result<(), Memory> {
        let mut runner = match self.runner.take() {
            Some(runner) => runner,
            None => Runner::new(lent.alloc, lent.system.plain())?,
        };
        runner.run(lent.alloc, lent.system.plain(), lent.facts, lent.spent)?;
        if let Some(trace) = runner.take_trace() {
            self.trace = trace;
            self.next = 0;
        }
        self.runner = Some(runner);
        Ok(())
    }

    /// The first place of the trace, from the next one on, that gives what isn't recorded.
    fn next_place(&self, lent: &Lent) -> usize {
        for place in self.next..self.trace.len() {
            if fact_at(lent.facts, self.trace.as_slice(), place).is_none() {
                return place;
            }
        }
        self.trace.len()
    }

    /// Whether there are units for all of the trace from a place on: facts of a trace that doesn't come to its
    /// end serve nobody.
    fn fits(&self, lent: &Lent, place: usize) -> bool {
        let left = lent.given.saturating_sub(lent.spent) as usize;
        self.trace.len().saturating_sub(place) <= left
    }

    /// The next step that records a fact of a trace, or false behind these; none where there is no trace, or
    /// no units for what is left of it, or the next of its instances rests on a fact that the book hasn't taken.
    pub(crate) fn next_step(&mut self, lent: &Lent) -> Result<Option<Step>, Memory>
        ensures { (nodes : ℕ) → IfOk result (λ found. IfSome found (IsOffered lent.now.system nodes)) }
    {
        if !self.is_on {
            return Ok(None);
        }
        if self.next >= self.trace.len() {
            self.run(lent)?;
        }
        let place = self.next_place(lent);
        if !self.fits(lent, place) {
            self.next = place;
            return Ok(None);
        }
        self.next = place.saturating_add(1);
        match self.trace.as_slice().get(place) {
            Some(instance) => derived(lent, self.trace.as_slice(), instance),
            None => Ok(None),
        }
    }
}
