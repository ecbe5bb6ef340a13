//! When bounds are looked for, and what was found.

ghost use Rattle.std.specs.Prelude.{◌≡◌, ◌-◌, [], true, false, ◌==◌, None, IfOk, IsOk, OnOk, OnErr};
ghost use Rattle.guess_bounds.specs.Rounds.{IsRenewed, are_due, first_round, is_safe, level_of, work_of};

use crate::fixing::fix;
use crate::needing::needs_of;
use base::Memory;
use clause_form::System;
use clause_index::IndexedSystem;
use cube_forms::Cube;
use guess_table::{
    Bound, Met, Needs, Size, Table, Walk, Wanted, cubes_at, raise_by, table_of, wanted_of,
};
use lin_atoms::Lin;
use std::alloc::Global;
use std::marker::Model;

/// The work that a round may take for each unit that was spent.
const WORK_OF_A_UNIT: u32 = 24;

/// The least that the first round may take.
const FIRST_WORK: u32 = 8_000;

/// The least that another may take.
const LEAST_WORK: u32 = 10_000;

/// The most.
const MOST_WORK: u32 = 240_000;

/// How many rounds there are.
const ROUNDS: u32 = 4;

/// What was found in a round.
#[derive(Drop)]
struct Found {
    bounds: Vec<Bound>,
    needs: Needs,
}

/// How a round ends.
#[derive(Drop)]
enum Outcome {
    /// With bounds that hold together.
    Fixed(Found),
    /// A tuple was met that a query excludes, so no bounds refute each query.
    Broken,
    /// The round was dropped.
    Dropped,
}

/// Bounds of a system's predicates that were found so far: guesses, of which none has to be right.
#[derive(Drop)]
pub struct Bounds {
    found: Option<Found>,
    /// The next round.
    round: u32,
    /// How many units have to be spent before it.
    wait: u32,
    /// How often it was dropped.
    drops: u32,
}

/// The level of the book from which on the round comes.
fn level_of(round: u32) -> u32
    ensures { result ≡ level_of round }
{
    match round {
        0 => 4,
        1 => 6,
        2 => 12,
        _ => 24,
    }
}

fn size_of(round: u32) -> Size {
    let (conditions, bounds) = match round {
        0 => (0, 150),
        1 => (12, 250),
        2 => (24, 500),
        _ => (24, 1_000),
    };
    Size {
        conditions,
        bounds,
        is_whole: round > 1,
    }
}

/// How much work a round may take.
fn work_of(round: u32, units: u32) -> u32
    ensures { result ≡ work_of round units }
{
    let least = if round == 0 { FIRST_WORK } else { LEAST_WORK };
    units
        .saturating_mul(WORK_OF_A_UNIT)
        .max(least)
        .min(MOST_WORK)
}

/// What a round over the table finds, whose bounds first rise by what was met. It takes the bounds out.
fn settled(
    alloc: Global,
    table: &mut Table,
    sys: &System,
    walk: &Walk,
    left: &mut u32,
) -> Result<Outcome, Memory>
    ensures { IfOk result (λ outcome. outcome ≡ Outcome.Broken → ⊥) }
{
    raise_by(alloc, table, walk.first())?;
    if !fix(alloc, table, sys, left)? {
        return Ok(Outcome::Dropped);
    }
    let needs = needs_of(alloc, table, sys, left)?;
    let bounds = std::mem::replace(&mut table.bounds, Vec::new(alloc));
    Ok(Outcome::Fixed(Found { bounds, needs }))
}

/// What a round over the table finds, whose bounds first rise by what was met, where the table isn't
/// needed any more.
fn found_in(
    alloc: Global,
    table: Table,
    sys: &System,
    walk: &Walk,
    left: u32,
) -> Result<Outcome, Memory>
    ensures { IfOk result (λ outcome. outcome ≡ Outcome.Broken → ⊥) }
{
    let mut table = table;
    let mut left = left;
    settled(alloc, &mut table, sys, walk, &mut left)
}

fn round_of(
    alloc: Global,
    sys: &IndexedSystem,
    shared: &[Vec<Lin>],
    walk: &Walk,
    size: Size,
    left: u32,
) -> Result<Outcome, Memory>
    ensures broken { walk.now.is_broken ≡ true → IfOk result (λ outcome. outcome ≡ Outcome.Broken) }
    ensures open { walk.now.is_broken ≡ false → IfOk result (λ outcome. outcome ≡ Outcome.Broken → ⊥) }
{
    if walk.is_broken {
        return Ok(Outcome::Broken);
    }
    match table_of(alloc, sys, shared, size)? {
        Some(table) => found_in(alloc, table, sys.plain(), walk, left),
        None => Ok(Outcome::Dropped),
    }
}

/// Contracts see the rounds, and of the bounds whether they refute each query, as far as is known.
impl Model for Bounds {
    ghost use Rattle.std.specs.Option.{option_map};
    ghost use Rattle.guess_bounds.specs.Rounds.{Rounds};

    ghost Value = { Rounds };

    ghost view = { λ b. record { found = option_map (λ f. f.needs.is_safe) b.found; round = b.round; wait = b.wait; drops = b.drops } };
}

impl Bounds {
    /// Nothing was found yet.
    pub fn new() -> Bounds
        ensures { result ≡ first_round }
    {
        Bounds {
            found: None,
            round: 0,
            wait: 0,
            drops: 0,
        }
    }

    /// Whether the bounds refute each query, as far as is known.
    pub fn are_safe(&self) -> bool
        ensures { result ≡ is_safe self.now }
    {
        match &self.found {
            Some(found) => found.needs.is_safe,
            None => false,
        }
    }

    /// Whether it is time to look for more bounds.
    pub fn are_due(&self, level: u32, units: u32) -> bool
        ensures { result ≡ are_due level units self.now }
    {
        level >= level_of(self.round)
            && units >= self.wait
            && self.round < ROUNDS
            && !self.are_safe()
    }

    /// Looks for more bounds, where the level of the book and the units that were spent say so. The
    /// work is at most what `units`, the number of units spent, allows for. For each predicate forms are
    /// handed in that may be worth a bound, and what running clauses forward met.
    pub fn renew(
        &mut self,
        alloc: Global,
        sys: &IndexedSystem,
        shared: &[Vec<Lin>],
        walk: &Walk,
        level: u32,
        units: u32,
    ) -> Result<(), Memory>
        ensures early { are_due level units self.old ≡ false → IsOk result × (self.new ≡ self.old) }
        ensures renewed { are_due level units self.old ≡ true → OnOk result (IsRenewed walk.now.is_broken units self.old self.new) }
        ensures err { OnErr result (self.new ≡ self.old) }
    {
        if !self.are_due(level, units) {
            return Ok(());
        }
        let size = size_of(self.round);
        let work = work_of(self.round, units);
        match round_of(alloc, sys, shared, walk, size, work)? {
            Outcome::Broken => {
                self.found = None;
                self.round = ROUNDS;
            }
            Outcome::Fixed(found) => {
                self.found = Some(found);
                self.round = self.round.saturating_add(1);
                self.wait = units.saturating_mul(2);
                self.drops = 0;
            }
            Outcome::Dropped => {
                let more = work_of(self.round, units) / WORK_OF_A_UNIT;
                let times = self.drops.saturating_add(3);
                self.wait = units.saturating_mul(times).max(more.saturating_mul(2));
                self.drops = self.drops.saturating_add(1);
            }
        }
        Ok(())
    }

    /// Cubes to try as lemmas of the predicate for the point: those of bounds that the point breaks,
    /// needed ones first.
    pub fn cubes(&self, alloc: Global, pred: u32, point: &[i64]) -> Result<Vec<Cube>, Memory>
        ensures { self.now.found ≡ None → IfOk result (λ cubes. cubes.items ≡ []) }
    {
        match &self.found {
            Some(found) => cubes_at(alloc, found.bounds.as_slice(), &found.needs, pred, point),
            None => Ok(Vec::new(alloc)),
        }
    }

    /// The lemmas of the bounds that are needed to refute each query, where the bounds do: those that rest on the
    /// fewest others come before them. All of them hold together, as far as is known.
    pub fn wanted(&self, alloc: Global) -> Result<Vec<Wanted>, Memory>
        ensures { is_safe self.now ≡ false → IfOk result (λ wanted. wanted.items ≡ []) }
    {
        match &self.found {
            Some(found) if found.needs.is_safe => {
                wanted_of(alloc, found.bounds.as_slice(), &found.needs)
            }
            _ => Ok(Vec::new(alloc)),
        }
    }
}
