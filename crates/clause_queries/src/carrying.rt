//! Proofs of a goal through a clause that are made proofs of another one. Two queries of one clause under
//! the same lemmas differ in the literals of their goals alone, so a proof that uses none but those that
//! the other goal has, too, is one of the other with its literals numbered anew.

ghost use Rattle.std.specs.Prelude.{◌≡◌};
ghost use Rattle.clause_queries.specs.machinery.Carrying.{trees_for};

use base::{Boxed, Copied, Items, Memory, Same};
use chc_tokens::{Goal, Shown};
use clause_index::IndexedSystem;
use lin_atoms::{Lin, Lit};
use refutation_trees::Refutation;
use std::alloc::Global;

/// How deep a tree is at most that is carried over.
const MOST_DEEP: u32 = 400;

/// Where a literal of the old goal stands in the new one.
#[derive(Clone, Copy)]
enum Place {
    At(u32),
    /// An equation, as two bounds: that the form is at most 0, and that its negative is.
    Both(u32, u32),
    Nowhere,
}

/// How literals are numbered anew: those of the guard come first, then the goal's, then all others.
#[derive(Drop)]
pub(crate) struct Places {
    /// How many literals the guard has.
    guard: u32,
    /// Where the old goal's literals stand in the new one.
    goal: Vec<Place>,
    /// How many literals the new goal has.
    count: u32,
}

/// Where the literal stands among these, from one place to another.
fn place_between(lits: &[Lit], from: usize, to: usize, lit: &Lit) -> Option<usize> {
    for (at, one) in lits.iter().enumerate() {
        if at >= from && at < to && one.equals(lit) {
            return Some(at);
        }
    }
    None
}

/// Where the literal stands among these: behind a place, or else before it.
fn found(lits: &[Lit], next: usize, lit: &Lit) -> Option<usize> {
    match place_between(lits, next, lits.len(), lit) {
        Some(at) => Some(at),
        None => place_between(lits, 0, next, lit),
    }
}

/// Where the bounds stand that an equation says.
fn both(alloc: Global, lits: &[Lit], next: usize, lin: &Lin) -> Result<Place, Memory> {
    let above = Lit::Le(lin.negated(alloc)?);
    let below = Lit::Le(lin.copy(alloc)?);
    match (found(lits, next, &below), found(lits, next, &above)) {
        (Some(below), Some(above)) => match (u32::try_from(below), u32::try_from(above)) {
            (Ok(below), Ok(above)) => Ok(Place::Both(below, above)),
            _ => Ok(Place::Nowhere),
        },
        _ => Ok(Place::Nowhere),
    }
}

/// Where a literal that doesn't stand there as it is may do so otherwise.
fn otherwise(alloc: Global, lits: &[Lit], next: usize, lit: &Lit) -> Result<Place, Memory> {
    match lit {
        Lit::Eq(lin) => both(alloc, lits, next, lin),
        _ => Ok(Place::Nowhere),
    }
}

/// Where each of the old literals stands among the new ones.
fn places_of(alloc: Global, old: &[Lit], new: &[Lit]) -> Result<Vec<Place>, Memory> {
    let mut made = Vec::new(alloc);
    let mut next: usize = 0;
    for lit in old {
        let place = match found(new, next, lit) {
            Some(at) => {
                next = at.saturating_add(1);
                match u32::try_from(at) {
                    Ok(at) => Place::At(at),
                    Err(_) => Place::Nowhere,
                }
            }
            None => otherwise(alloc, new, next, lit)?,
        };
        made.push(place)?;
    }
    Ok(made)
}

/// The literals of a goal.
fn lits_of(goal: &Goal) -> &[Lit] {
    match goal {
        Goal::Query => &[],
        Goal::Holds(lemma) => lemma.cube().lits(),
    }
}

/// Where a literal of that number stands: of the old goal in the new one, else behind the goal.
fn place_of(places: &Places, number: u32) -> Place {
    let at = match number.checked_sub(places.guard) {
        Some(at) => at as usize,
        None => return Place::At(number),
    };
    match places.goal.as_slice().get(at) {
        Some(Place::At(place)) => Place::At(places.guard.saturating_add(*place)),
        Some(Place::Both(below, above)) => Place::Both(
            places.guard.saturating_add(*below),
            places.guard.saturating_add(*above),
        ),
        Some(Place::Nowhere) => Place::Nowhere,
        None => behind(places, at),
    }
}

/// The place of a literal behind the goal's.
fn behind(places: &Places, at: usize) -> Place {
    match u32::try_from(at.saturating_sub(places.goal.len())) {
        Ok(more) => Place::At(
            places
                .guard
                .saturating_add(places.count)
                .saturating_add(more),
        ),
        Err(_) => Place::Nowhere,
    }
}

/// The new number of a literal, if it has one of its own.
fn moved(places: &Places, number: u32) -> Option<u32> {
    match place_of(places, number) {
        Place::At(number) => Some(number),
        _ => None,
    }
}

/// The multiple of a literal with its new number.
fn moved_one(places: &Places, number: u32, by: i64) -> Option<(u32, i64)> {
    match place_of(places, number) {
        Place::At(number) => Some((number, by)),
        Place::Both(below, above) => {
            if by >= 0 {
                Some((below, by))
            } else {
                Some((above, by.checked_neg()?))
            }
        }
        Place::Nowhere => None,
    }
}

/// A combination of literals with their new numbers.
fn moved_all(
    alloc: Global,
    places: &Places,
    multipliers: &[(u32, i64)],
) -> Result<Option<Items<(u32, i64)>>, Memory> {
    let mut made = Items::new(alloc);
    for (number, by) in multipliers {
        match moved_one(places, *number, *by) {
            Some(one) => made.push(one)?,
            None => return Ok(None),
        }
    }
    Ok(Some(made))
}

fn moved_leaf(
    alloc: Global,
    places: &Places,
    multipliers: &[(u32, i64)],
) -> Result<Option<Refutation>, Memory> {
    match moved_all(alloc, places, multipliers)? {
        Some(multipliers) => Ok(Some(Refutation::Leaf { multipliers })),
        None => Ok(None),
    }
}

#[cycle(moved)]
fn moved_round(
    alloc: Global,
    places: &Places,
    multipliers: &[(u32, i64)],
    divisor: i64,
    sub: &Refutation,
    deep: u32,
) -> Result<Option<Refutation>, Memory> {
    let multipliers = match moved_all(alloc, places, multipliers)? {
        Some(multipliers) => multipliers,
        None => return Ok(None),
    };
    match moved_tree(alloc, places, sub, deep)? {
        Some(sub) => Ok(Some(Refutation::Round {
            multipliers,
            divisor,
            sub: Boxed::new(alloc, sub)?,
        })),
        None => Ok(None),
    }
}

#[cycle(moved)]
fn moved_split(
    alloc: Global,
    places: &Places,
    lin: &Lin,
    below: &Refutation,
    above: &Refutation,
    deep: u32,
) -> Result<Option<Refutation>, Memory> {
    let below = match moved_tree(alloc, places, below, deep)? {
        Some(below) => below,
        None => return Ok(None),
    };
    match moved_tree(alloc, places, above, deep)? {
        Some(above) => Ok(Some(Refutation::Split {
            lin: lin.copy(alloc)?,
            below: Boxed::new(alloc, below)?,
            above: Boxed::new(alloc, above)?,
        })),
        None => Ok(None),
    }
}

#[cycle(moved)]
fn moved_cases(
    alloc: Global,
    places: &Places,
    which: u32,
    subs: &[Refutation],
    deep: u32,
) -> Result<Option<Refutation>, Memory> {
    let mut made = Items::new(alloc);
    for sub in subs {
        match moved_tree(alloc, places, sub, deep)? {
            Some(sub) => made.push(sub)?,
            None => return Ok(None),
        }
    }
    Ok(Some(Refutation::Cases { which, subs: made }))
}

#[cycle(moved)]
fn moved_quotient(
    alloc: Global,
    places: &Places,
    lit: u32,
    sub: &Refutation,
    deep: u32,
) -> Result<Option<Refutation>, Memory> {
    let lit = match moved(places, lit) {
        Some(lit) => lit,
        None => return Ok(None),
    };
    match moved_tree(alloc, places, sub, deep)? {
        Some(sub) => Ok(Some(Refutation::Quotient {
            lit,
            sub: Boxed::new(alloc, sub)?,
        })),
        None => Ok(None),
    }
}

/// The tree with the new numbers, where each of its literals has one and it isn't too deep.
#[cycle(moved)]
fn moved_tree(
    alloc: Global,
    places: &Places,
    tree: &Refutation,
    deep: u32,
) -> Result<Option<Refutation>, Memory> {
    let deep = match deep.checked_sub(1) {
        Some(deep) => deep,
        None => return Ok(None),
    };
    match tree {
        Refutation::Leaf { multipliers } => moved_leaf(alloc, places, multipliers.as_slice()),
        Refutation::Round {
            multipliers,
            divisor,
            sub,
        } => moved_round(
            alloc,
            places,
            multipliers.as_slice(),
            *divisor,
            sub.get(),
            deep,
        ),
        Refutation::Split { lin, below, above } => {
            moved_split(alloc, places, lin, below.get(), above.get(), deep)
        }
        Refutation::Cases { which, subs } => {
            moved_cases(alloc, places, *which, subs.as_slice(), deep)
        }
        Refutation::Quotient { lit, sub } => {
            moved_quotient(alloc, places, *lit, sub.get(), deep)
        }
    }
}

/// The tree for the query of a clause, if there is one.
#[derive(Drop)]
pub(crate) struct Carried {
    tree: Option<Boxed<Refutation>>,
}

/// The tree of an old proof for the same clause's query with another goal.
fn tree_by(
    alloc: Global,
    sys: &IndexedSystem,
    places: &mut Places,
    shown: &Shown,
) -> Result<Option<Refutation>, Memory> {
    let number = shown.clause() as usize;
    if number >= sys.clauses().len() {
        return Ok(None);
    }
    let guard = sys.guard(number);
    places.guard = u32::try_from(guard.lits_len()).unwrap_or(u32::MAX);
    moved_tree(alloc, places, shown.proof().proof(), MOST_DEEP)
}

/// For each clause that there is no tree.
fn without_trees(alloc: Global, sys: &IndexedSystem) -> Result<Vec<Carried>, Memory> {
    let mut made = Vec::with_capacity(alloc, sys.clauses().len())?;
    for _ in sys.clauses() {
        made.push(Carried { tree: None })?;
    }
    Ok(made)
}

/// Puts a tree for a clause's query, where there is none yet.
fn put(
    alloc: Global,
    trees: &mut Vec<Carried>,
    number: u32,
    tree: Refutation,
) -> Result<(), Memory> {
    let tree = Boxed::new(alloc, tree)?;
    if let Some(one) = trees.get_mut(number as usize) {
        if one.tree.is_none() {
            one.tree = Some(tree);
        }
    }
    Ok(())
}

/// Trees for the queries of a goal, made of proofs of another goal under the same lemmas: one for each
/// clause at most, at the place of its number. None where there is no other proof.
pub(crate) fn all_carried(
    alloc: Global,
    sys: &IndexedSystem,
    goal: &Goal,
    old: &[Shown],
) -> Result<Vec<Carried>, Memory> {
    let before = match old {
        [first, ..] => lits_of(first.goal()),
        [] => return Ok(Vec::new(alloc)),
    };
    let lits = lits_of(goal);
    let mut places = Places {
        guard: 0,
        goal: places_of(alloc, before, lits)?,
        count: u32::try_from(lits.len()).unwrap_or(u32::MAX),
    };
    let mut made = without_trees(alloc, sys)?;
    for shown in old {
        if let Some(tree) = tree_by(alloc, sys, &mut places, shown)? {
            put(alloc, &mut made, shown.clause(), tree)?;
        }
    }
    Ok(made)
}

/// 1 where there is a tree for the clause's query, else 0.
pub(crate) fn trees_for(trees: &[Carried], number: u32) -> u32
    ensures { result ≡ trees_for trees.now number }
{
    match trees.get(number as usize) {
        Some(one) => { if one.tree.is_some() { 1 } else { 0 } }
        None => 0,
    }
}

/// The tree for the clause's query, which is taken away.
pub(crate) fn taken(trees: &mut Vec<Carried>, number: u32) -> Option<Refutation> {
    let one = trees.get_mut(number as usize)?;
    let tree = std::mem::replace(&mut one.tree, None)?;
    Some(tree.into_inner())
}
