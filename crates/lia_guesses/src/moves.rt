//! A point at which equations hold is moved along what they leave free, until it meets bounds: each time a
//! bound that is broken is met, by the move after which all bounds together lack least, or counts more where
//! no move makes that less (P. Morris, The Breakout Method for Escaping from Local Minima, 1993).

use crate::entries::{entry, set, zeros};
use crate::limits::Limit;
use crate::solving::Solving;
use base::Memory;
use std::alloc::Global;

/// So often a point is moved, or a bound counts more.
const MOST_STEPS: usize = 200;

/// So often it is moved without lacking less than ever before.
const MOST_IN_VAIN: u32 = 40;

/// With more limits times variables than this a point isn't moved.
const MOST_EFFECTS: usize = 5000;

/// By how much each variable rises, and each limit's form.
#[derive(Drop)]
pub(crate) struct Move {
    parts: Vec<i64>,
    effects: Vec<i64>,
}

/// A move that is made so often, and what the limits lack then.
#[derive(Clone, Copy)]
struct Choice {
    at: usize,
    times: i64,
    cost: u64,
}

/// What the limits' forms rise by.
fn effects_of(alloc: Global, limits: &[Limit], parts: &[i64]) -> Result<Vec<i64>, Memory> {
    let mut effects = Vec::new(alloc);
    for limit in limits {
        effects.push(limit.value_at(parts))?;
    }
    Ok(effects)
}

/// The part becomes the value, where that has room.
fn set_part(parts: &mut [i64], at: usize, value: i128) {
    if let Ok(value) = i64::try_from(value) {
        set(parts, at, value);
    }
}

/// The parts of the unknowns.
fn set_parts(parts: &mut [i64], unknowns: &[u32], own: &[i128]) {
    for (at, part) in own.iter().enumerate() {
        if let Some(unknown) = unknowns.get(at) {
            set_part(parts, *unknown as usize, *part);
        }
    }
}

/// The move by which the unknowns rise by these parts.
fn put_move(
    alloc: Global,
    moves: &mut Vec<Move>,
    limits: &[Limit],
    unknowns: &[u32],
    own: &[i128],
    variables: usize,
) -> Result<(), Memory> {
    let mut parts = zeros(alloc, variables)?;
    set_parts(parts.as_mut_slice(), unknowns, own);
    let effects = effects_of(alloc, limits, parts.as_slice())?;
    moves.push(Move { parts, effects })?;
    Ok(())
}

/// The move of one variable, where no equation has it.
fn put_single(
    alloc: Global,
    moves: &mut Vec<Move>,
    limits: &[Limit],
    unknowns: &[u32],
    variable: usize,
    variables: usize,
) -> Result<(), Memory> {
    if let Ok(own) = u32::try_from(variable) {
        if !unknowns.contains(&own) {
            put_move(alloc, moves, limits, &[own], &[1], variables)?;
        }
    }
    Ok(())
}

/// Whether there are too many effects of moves.
pub(crate) fn are_many(limits: &[Limit], variables: usize) -> bool {
    limits.len().saturating_mul(variables) > MOST_EFFECTS
}

/// The moves that keep the equations: the columns that are free, and the variables that no equation has.
pub(crate) fn put_moves(
    alloc: Global,
    moves: &mut Vec<Move>,
    limits: &[Limit],
    solving: &Solving,
    variables: usize,
) -> Result<(), Memory> {
    let unknowns = solving.unknowns.as_slice();
    for column in solving.free.iter() {
        put_move(alloc, moves, limits, unknowns, column.parts(), variables)?;
    }
    for variable in 0..variables {
        put_single(alloc, moves, limits, unknowns, variable, variables)?;
    }
    Ok(())
}

/// How often a change by `each` is made until it is at least `lack`, or at most a `lack` below 0.
fn times_for(lack: i64, each: i64) -> Option<i64> {
    let size = each.unsigned_abs();
    let sum = lack.unsigned_abs().checked_add(size)?;
    let times = i64::try_from(sum.saturating_sub(1).checked_div(size)?).ok()?;
    if (lack < 0) == (each < 0) {
        Some(times)
    } else {
        times.checked_neg()
    }
}

/// What the limits lack after a move that is made so often.
fn cost(limits: &[Limit], own: &Move, times: i64) -> u64 {
    let mut cost: u64 = 0;
    for (at, limit) in limits.iter().enumerate() {
        let effect = entry(own.effects.as_slice(), at);
        cost = cost.saturating_add(limit.cost(limit.raised(effect, times)));
    }
    cost
}

/// Whether the limit isn't met.
fn is_broken(limit: Option<&Limit>) -> bool {
    match limit {
        Some(limit) => limit.lack(limit.value) != 0,
        None => false,
    }
}

/// The next limit that isn't met, from the one of that number on.
fn next_broken(limits: &[Limit], from: usize) -> Option<usize> {
    'next: for at in from..limits.len() {
        if is_broken(limits.get(at)) {
            return Some(at);
        }
    }
    None
}

fn broken(limits: &[Limit], from: usize) -> Option<usize> {
    match next_broken(limits, from) {
        Some(at) => Some(at),
        None => next_broken(limits, 0),
    }
}

/// The choice that costs less.
fn better(one: Option<Choice>, other: Option<Choice>) -> Option<Choice> {
    match (one, other) {
        (Some(a), Some(b)) => { if b.cost < a.cost { Some(b) } else { Some(a) } }
        (None, other) => other,
        (one, None) => one,
    }
}

/// The move as often as the limit of that number wants it.
fn offered(limits: &[Limit], own: &Move, at: usize, wanted: usize) -> Option<Choice> {
    let limit = limits.get(wanted)?;
    let effect = entry(own.effects.as_slice(), wanted);
    let times = times_for(limit.lack(limit.value), effect)?;
    let cost = cost(limits, own, times);
    Some(Choice { at, times, cost })
}

/// The move that meets the limit of that number and costs least.
fn best(limits: &[Limit], moves: &[Move], wanted: usize) -> Option<Choice> {
    let mut found = None;
    for (at, own) in moves.iter().enumerate() {
        found = better(found, offered(limits, own, at, wanted));
    }
    found
}

/// A number rises.
fn raise(values: &mut [i64], parts: &[i64], times: i64) {
    for (at, own) in values.iter_mut().enumerate() {
        *own = own.saturating_add(entry(parts, at).saturating_mul(times));
    }
}

fn raise_limits(limits: &mut [Limit], effects: &[i64], times: i64) {
    for (at, limit) in limits.iter_mut().enumerate() {
        limit.value = limit.raised(entry(effects, at), times);
    }
}

/// What the limits lack.
fn lacking(limits: &[Limit]) -> u64 {
    let mut sum: u64 = 0;
    for limit in limits {
        sum = sum.saturating_add(limit.cost(limit.value));
    }
    sum
}

/// What the limits lack, each limit counted once, whatever its weight.
fn lacking_once(limits: &[Limit]) -> u64 {
    let mut sum: u64 = 0;
    for limit in limits {
        sum = sum.saturating_add(limit.lack(limit.value).unsigned_abs());
    }
    sum
}

/// A limit counts more.
fn weigh(limits: &mut [Limit], at: usize) {
    if let Some(limit) = limits.get_mut(at) {
        limit.weight = limit.weight.saturating_add(1);
    }
}

/// The point is moved so that the limit of that number is met, where the limits then don't lack more. Where
/// they don't lack less, that limit counts more.
fn step(point: &mut [i64], limits: &mut [Limit], moves: &[Move], wanted: usize) {
    let Some(choice) = best(limits, moves, wanted) else {
        return;
    };
    if choice.cost >= lacking(limits) {
        weigh(limits, wanted);
    }
    if choice.cost > lacking(limits) {
        return;
    }
    if let Some(own) = moves.get(choice.at) {
        raise(point, own.parts.as_slice(), choice.times);
        raise_limits(limits, own.effects.as_slice(), choice.times);
    }
}

/// The limits get their values at the point.
fn value_all(limits: &mut [Limit], point: &[i64]) {
    for limit in limits.iter_mut() {
        limit.value = limit.value_at(point);
    }
}

/// The point is moved until it meets all limits. Whether it then does.
pub(crate) fn meets(point: &mut [i64], limits: &mut [Limit], moves: &[Move]) -> bool {
    value_all(limits, point);
    let mut from: usize = 0;
    let (mut least, mut in_vain): (u64, u32) = (u64::MAX, 0);
    for _ in 0..MOST_STEPS {
        let Some(wanted) = broken(limits, from) else {
            return true;
        };
        let lack = lacking_once(limits);
        in_vain = if lack < least {
            0
        } else {
            in_vain.saturating_add(1)
        };
        least = least.min(lack);
        if in_vain > MOST_IN_VAIN {
            return false;
        }
        step(point, limits, moves, wanted);
        from = wanted.saturating_add(1);
    }
    false
}
