//! Points near a vertex at which equations hold.

ghost use Rattle.std.specs.Prelude.{◌≡◌, ◌<◌, ◌^◌, true};
ghost use Rattle.std.specs.List.{list_all};
ghost use Rattle.lia_node.specs.Known.{are_known, has_short_constant};

use crate::column::{Column, more, number_at};
use crate::equation::Equation;
use crate::forms::put_equations;
use crate::limits::{Limit, put_limits};
use crate::moves::{are_many, meets, put_moves};
use crate::near::{Way, scaled};
use crate::short::shorten;
use crate::solving::{Met, Solving, solved};
use base::Memory;
use int_rows::{RowStop, Tableau};
use lia_node::node_tableau;
use lin_atoms::{Lit, Ratio};
use simplex_core::{Feasible, feasible};
use std::alloc::Global;

/// The values, scaled. Whether they have room.
fn put_scaled(near: &mut Vec<i128>, ratios: &[Ratio]) -> Result<bool, Memory> {
    for ratio in ratios {
        match scaled(ratio) {
            Some(value) => near.push(value)?,
            None => return Ok(false),
        }
    }
    Ok(true)
}

/// Each value rounded by itself.
fn put_rounded(made: &mut [i128], near: &[i128], way: Way) -> Option<()> {
    for (at, own) in made.iter_mut().enumerate() {
        match way.round(number_at(near, at)) {
            Some(value) => *own = value,
            None => return None,
        }
    }
    Some(())
}

/// The unknown of that number has no value yet.
fn clear(made: &mut [i128], unknowns: &[u32]) {
    for unknown in unknowns {
        if let Some(own) = made.get_mut(*unknown as usize) {
            *own = 0;
        }
    }
}

/// An unknown gets its part of a column.
fn put_part(made: &mut [i128], unknown: u32, times: i128, part: i128) -> Option<()> {
    let own = made.get_mut(unknown as usize)?;
    *own = more(*own, times, part)?;
    Some(())
}

/// The unknowns get their parts of a column that has that value.
fn put_column(
    made: &mut [i128],
    unknowns: &[u32],
    column: &Column,
    value: Option<i128>,
) -> Option<()> {
    let value = value?;
    for (at, unknown) in unknowns.iter().enumerate() {
        if put_part(made, *unknown, value, number_at(column.parts(), at)).is_none() {
            return None;
        }
    }
    Some(())
}

/// The unknowns get their parts of the columns that have a value.
fn put_done(made: &mut [i128], solving: &Solving) -> Option<()> {
    for own in solving.done.iter() {
        if put_column(
            made,
            solving.unknowns.as_slice(),
            &own.column,
            Some(own.value),
        )
        .is_none()
        {
            return None;
        }
    }
    Some(())
}

/// The unknowns get their parts of the columns that are free, each rounded.
fn put_free(made: &mut [i128], solving: &Solving, way: Way) -> Option<()> {
    for column in solving.free.iter() {
        let value = way.round(column.near);
        if put_column(made, solving.unknowns.as_slice(), column, value).is_none() {
            return None;
        }
    }
    Some(())
}

/// The numbers, where they are below 2^63 in magnitude.
fn narrowed(alloc: Global, made: &[i128]) -> Result<Option<Vec<i64>>, Memory> {
    let mut point = Vec::new(alloc);
    for value in made {
        match i64::try_from(*value) {
            Ok(value) => point.push(value)?,
            Err(_) => return Ok(None),
        }
    }
    Ok(Some(point))
}

/// All variables and quotients get their values.
fn put_values(made: &mut [i128], near: &[i128], solving: &Solving, way: Way) -> Option<()> {
    put_rounded(made, near, way)?;
    clear(made, solving.unknowns.as_slice());
    put_done(made, solving)?;
    put_free(made, solving, way)
}

/// The point that one way of rounding gives.
fn guess(
    alloc: Global,
    near: &[i128],
    solving: &Solving,
    way: Way,
) -> Result<Option<Vec<i64>>, Memory> {
    let mut made = vec![in alloc; 0; near.len()]?;
    match put_values(made.as_mut_slice(), near, solving, way) {
        Some(()) => narrowed(alloc, made.as_slice()),
        None => Ok(None),
    }
}

fn put_guess(
    alloc: Global,
    guesses: &mut Vec<Vec<i64>>,
    near: &[i128],
    solving: &Solving,
    way: Way,
) -> Result<(), Memory> {
    if let Some(point) = guess(alloc, near, solving, way)? {
        guesses.push(point)?;
    }
    Ok(())
}

/// The nearest point, moved until it meets the limits, where that succeeds.
fn put_moved(
    alloc: Global,
    guesses: &mut Vec<Vec<i64>>,
    near: &[i128],
    solving: &Solving,
    limits: &mut [Limit],
) -> Result<(), Memory> {
    if are_many(limits, near.len()) {
        return Ok(());
    }
    let Some(mut point) = guess(alloc, near, solving, Way::Near)? else {
        return Ok(());
    };
    let mut moves = Vec::new(alloc);
    put_moves(alloc, &mut moves, limits, solving, near.len())?;
    if meets(point.as_mut_slice(), limits, moves.as_slice()) {
        guesses.push(point)?;
    }
    Ok(())
}

/// The points of solved equations.
fn put_solved(
    alloc: Global,
    guesses: &mut Vec<Vec<i64>>,
    near: &[i128],
    solving: &mut Solving,
    limits: &mut [Limit],
) -> Result<(), Memory> {
    shorten(solving.free.as_mut_slice());
    put_moved(alloc, guesses, near, solving, limits)?;
    put_guess(alloc, guesses, near, solving, Way::Down)?;
    put_guess(alloc, guesses, near, solving, Way::Up)?;
    put_guess(alloc, guesses, near, solving, Way::Near)
}

/// The points near a vertex at which the equations hold.
fn put_points(
    alloc: Global,
    guesses: &mut Vec<Vec<i64>>,
    near: &[i128],
    equations: &[Equation],
    limits: &mut [Limit],
) -> Result<(), Memory> {
    let (mut solving, met) = solved(alloc, equations, equations.len(), near)?;
    match met {
        Met::Solved => put_solved(alloc, guesses, near, &mut solving, limits),
        Met::Unsolvable => Ok(()),
        Met::Lost => Ok(()),
    }
}

/// The equations and limits of a tableau before its first pivot.
fn put_rows(
    alloc: Global,
    tableau: &Tableau,
    equations: &mut Vec<Equation>,
    limits: &mut Vec<Limit>,
) -> Result<(), Memory> {
    put_equations(alloc, tableau, equations)?;
    put_limits(alloc, tableau, limits)
}

/// The points near a vertex, the last the nearest.
fn from_vertex(
    alloc: Global,
    tableau: &mut Tableau,
    guesses: &mut Vec<Vec<i64>>,
) -> Result<(), Memory> {
    let mut equations = Vec::new(alloc);
    let mut limits = Vec::new(alloc);
    put_rows(alloc, tableau, &mut equations, &mut limits)?;
    let mut near = Vec::new(alloc);
    if put_vertex(alloc, tableau, &mut near)? {
        let (near, equations) = (near.as_slice(), equations.as_slice());
        put_points(alloc, guesses, near, equations, limits.as_mut_slice())?;
    }
    Ok(())
}

/// The values of the variables and quotients at a vertex, scaled. Whether there is one.
fn put_vertex(alloc: Global, tableau: &mut Tableau, near: &mut Vec<i128>) -> Result<bool, Memory> {
    match feasible(alloc, tableau)? {
        Feasible::Vertex(ratios) => match ratios.as_slice().get(..tableau.columns()) {
            Some(own) => put_scaled(near, own),
            None => Ok(false),
        },
        Feasible::Conflict(_) => Ok(false),
        Feasible::Wide(_) => Ok(false),
    }
}

/// Points at which the literals may be true, the last the likeliest.
pub(crate) fn guesses(alloc: Global, lits: &[Lit], end: u32) -> Result<Vec<Vec<i64>>, Memory>
    requires known { are_known end lits.now ≡ true }
    requires short { list_all has_short_constant lits.now ≡ true }
    requires few { end < 2 ^ 31 }
{
    let mut guesses = Vec::new(alloc);
    match node_tableau(alloc, lits, end) {
        Ok(mut tableau) => from_vertex(alloc, &mut tableau, &mut guesses)?,
        Err(RowStop::Memory) => return Err(Memory),
        Err(RowStop::TooMany) => {}
    }
    Ok(guesses)
}
