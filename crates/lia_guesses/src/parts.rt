//! A node is split into parts, each of which is closed by bounds that contradict or by a common
//! divisor.

ghost use Rattle.std.specs.Prelude.{◌≡◌, ◌<◌, ◌^◌, true};
ghost use Rattle.std.specs.List.{list_all};
ghost use Rattle.lin_atoms.specs.Linear.{is_long};
ghost use Rattle.int_rows.specs.Ready.{bound_fits};
ghost use Rattle.lia_node.specs.Known.{are_known, has_short_constant};

use crate::chain::Chain;
use crate::columns::forms;
use crate::conflicts::of_conflict;
use crate::cuts::of_cuts;
use crate::equations::of_equations;
use crate::forms::has_column;
use crate::rows::of_rows;
use crate::said::{Move, Said};
use crate::sides::{Bound, Sides, all_sides};
use crate::splits::{Part, Place, form_of, narrowest, put_parts};
use crate::values::{are_whole, first_fraction};
use base::Memory;
use int_rows::{RowStop, Tableau};
use lia_node::node_tableau;
use lin_atoms::{Lin, Lit, Ratio};
use simplex_core::{Feasible, feasible};
use std::alloc::Global;

/// So often cuts are added, where a tree of parts is looked for.
const MOST_ROUNDS: u32 = 6;

/// So often they are added where the node is only looked at whole.
const FEW_ROUNDS: u32 = 3;

/// What a part comes to.
#[derive(Drop)]
enum Told {
    /// The chain closes it.
    Closed,
    Split(Lin, Place),
    Nothing,
}

/// What a part comes to that the chain closes, or that isn't closed.
fn if_closed(is_closed: bool) -> Told {
    if is_closed {
        Told::Closed
    } else {
        Told::Nothing
    }
}

/// Whether the number is below 2^64 in magnitude.
fn is_long(value: i128) -> bool
    ensures { result ≡ is_long value }
{
    value.unsigned_abs() < 1 << 64
}

/// The bound's value, where it has room.
fn fitting(bound: Option<Bound>) -> Option<i128>
    ensures { bound_fits result ≡ true }
{
    match bound {
        Some(bound) => {
            if is_long(bound.value) {
                Some(bound.value)
            } else {
                None
            }
        }
        None => None,
    }
}

/// A column of the tableau gets its bounds.
fn set_side(tableau: &mut Tableau, column: usize, own: &Sides) {
    if has_column(tableau, column) {
        tableau.set_bounds(column, fitting(own.lower), fitting(own.upper));
    }
}

/// The tableau gets the bounds of a part.
pub(crate) fn set_sides(tableau: &mut Tableau, sides: &[Sides]) {
    for (column, own) in sides.iter().enumerate() {
        set_side(tableau, column, own);
    }
}

/// Where a part is split.
fn place(sides: &[Sides], ratios: &[Ratio]) -> Option<Place> {
    if let Some(place) = narrowest(sides) {
        return Some(place);
    }
    let (column, floor) = first_fraction(ratios)?;
    Some(Place {
        column,
        most: i128::from(floor),
    })
}

/// A part with a vertex. Where that is whole, no tree closes the part.
fn at_vertex(
    alloc: Global,
    chain: &mut Chain,
    tableau: &Tableau,
    forms: &[Vec<(u32, i128)>],
    sides: &[Sides],
    ratios: &[Ratio],
) -> Result<Told, Memory> {
    if are_whole(ratios) {
        return Ok(Told::Nothing);
    }
    if of_rows(alloc, chain, tableau, sides)?
        || of_equations(alloc, chain, forms, tableau.columns(), sides)?
    {
        return Ok(Told::Closed);
    }
    let Some(place) = place(sides, ratios) else {
        return Ok(Told::Nothing);
    };
    match form_of(alloc, forms, tableau.columns(), place)? {
        Some(lin) => Ok(Told::Split(lin, place)),
        None => Ok(Told::Nothing),
    }
}

/// A part with these bounds is examined.
fn met(
    alloc: Global,
    chain: &mut Chain,
    tableau: &mut Tableau,
    forms: &[Vec<(u32, i128)>],
    sides: &[Sides],
) -> Result<Told, Memory> {
    set_sides(tableau, sides);
    match feasible(alloc, tableau)? {
        Feasible::Vertex(ratios) => match ratios.as_slice().get(..tableau.columns()) {
            Some(own) => at_vertex(alloc, chain, tableau, forms, sides, own),
            None => Ok(Told::Nothing),
        },
        Feasible::Conflict(multipliers) => {
            let is_closed = of_conflict(alloc, chain, multipliers.as_slice(), sides)?;
            Ok(if_closed(is_closed))
        }
        Feasible::Wide(_) => Ok(Told::Nothing),
    }
}

/// A tree of parts, as far as it has come.
#[derive(Drop)]
struct Tree {
    /// The parts to be met, the next one last.
    parts: Vec<Part>,
    moves: Vec<Move>,
}

impl Tree {
    /// A part that is closed leaves none, and one that is split leaves two. Whether it is one of these.
    fn meet(
        &mut self,
        alloc: Global,
        tableau: &mut Tableau,
        forms: &[Vec<(u32, i128)>],
        part: Part,
    ) -> Result<bool, Memory> {
        let mut chain = Chain::new(alloc, part.known);
        match met(alloc, &mut chain, tableau, forms, part.sides.as_slice())? {
            Told::Closed => {
                self.moves.push(Move::Closed(chain))?;
                Ok(true)
            }
            Told::Split(lin, place) => {
                self.moves.push(Move::Split(lin))?;
                put_parts(alloc, &mut self.parts, part, place)?;
                Ok(true)
            }
            Told::Nothing => Ok(false),
        }
    }

    /// The parts are met one after the other, at most `most` of them. Whether all are closed.
    fn meet_all(
        &mut self,
        alloc: Global,
        tableau: &mut Tableau,
        forms: &[Vec<(u32, i128)>],
        most: u32,
    ) -> Result<bool, Memory> {
        'parts: for _ in 0..most {
            let Some(part) = self.parts.pop() else {
                return Ok(true);
            };
            if !self.meet(alloc, tableau, forms, part)? {
                return Ok(false);
            }
        }
        Ok(self.parts.is_empty())
    }
}

/// The nodes of a tree with at most `most` parts, where one is found.
fn of_parts(
    alloc: Global,
    tableau: &mut Tableau,
    forms: &[Vec<(u32, i128)>],
    first: Part,
    most: u32,
) -> Result<Option<Vec<Move>>, Memory> {
    let mut tree = Tree {
        parts: vec![in alloc; first]?,
        moves: Vec::new(alloc),
    };
    if tree.meet_all(alloc, tableau, forms, most)? {
        let Tree { moves, .. } = tree;
        Ok(Some(moves))
    } else {
        Ok(None)
    }
}

/// How often cuts are added, where the node may be split into so many parts.
fn rounds(most: u32) -> u32 {
    if most > 1 { MOST_ROUNDS } else { FEW_ROUNDS }
}

/// The parts of the tableau's node are met, and where they aren't all closed, cuts are tried.
fn from_tableau(
    alloc: Global,
    tableau: &mut Tableau,
    said: &[Said],
    known: usize,
    most: u32,
) -> Result<Option<Vec<Move>>, Memory> {
    let mut forms = forms(alloc, tableau)?;
    let sides = all_sides(alloc, said, forms.as_slice(), tableau.columns())?;
    let first = Part { sides, known };
    if let Some(moves) = of_parts(alloc, tableau, forms.as_slice(), first, most)? {
        return Ok(Some(moves));
    }
    match of_cuts(alloc, tableau, &mut forms, said, known, rounds(most))? {
        Some(chain) => Ok(Some(vec![in alloc; Move::Closed(chain)]?)),
        None => Ok(None),
    }
}

/// The nodes of a tree that may refute the literals, in order, where one is found, with at most `most` parts.
/// `said` are the literals that are known of the node's own and of their quotients, which are numbered on
/// from `end`. The tree stands where `known` literals are known. Nothing is promised of it.
pub fn guessed(
    alloc: Global,
    lits: &[Lit],
    end: u32,
    said: &[Said],
    known: usize,
    most: u32,
) -> Result<Option<Vec<Move>>, Memory>
    requires known { are_known end lits.now ≡ true }
    requires short { list_all has_short_constant lits.now ≡ true }
    requires few { end < 2 ^ 31 }
{
    match node_tableau(alloc, lits, end) {
        Ok(mut tableau) => from_tableau(alloc, &mut tableau, said, known, most),
        Err(RowStop::Memory) => Err(Memory),
        Err(RowStop::TooMany) => Ok(None),
    }
}
