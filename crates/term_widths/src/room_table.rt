ghost use Rattle.std.specs.Prelude.{◌≡◌, IfOk};
ghost use Rattle.term_tables.specs.machinery.Table.{constant_in};
ghost use Rattle.term_widths.specs.machinery.Room.{AreBounds, bound_in, is_bounded};

use crate::bounds::{bound_in, node_bound};
use crate::kept::Kept;
use base::Memory;
use std::alloc::Global;
use std::marker::Model;
use term_tables::ConstantTable;
use term_tree::{TermId, Terms};

/// For every term a bound of the numbers in its linear form, where one below 2^63 was found for it and
/// for all that is in it: the sum of their magnitudes is no greater, whatever variables are named. Of a
/// term with a bound nothing has to be looked at to see that all numbers in it have room. It is found
/// once, from the bounds of each term's parts.
#[derive(Drop)]
pub struct RoomTable {
    bounds: Vec<Kept>,
}

impl Model for RoomTable {
    ghost use Rattle.std.specs.Prelude.{List, Option, ℕ};

    ghost Value = { List (Option ℕ) };

    ghost view = { λ t. t.bounds.items };
}

impl RoomTable {
    /// Looks at every term once.
    pub fn of(alloc: Global, terms: &Terms, constants: &ConstantTable) -> Result<RoomTable, Memory>
        ensures { IfOk result (λ table. AreBounds (constant_in constants.now) terms.now.nodes table) }
    {
        let mut bounds = Vec::with_capacity(alloc, terms.len())?;
        for i in 0..terms.len() {
            let Ok(number) = u32::try_from(i) else {
                return Ok(RoomTable { bounds });
            };
            let bound = node_bound(terms.node(TermId(number)), constants, bounds.as_slice());
            bounds.push(Kept::new(bound))?;
        }
        Ok(RoomTable { bounds })
    }

    /// Whether the term has a bound.
    pub fn has_room(&self, id: TermId) -> bool
        ensures { result ≡ is_bounded (bound_in self.now id.0) }
    {
        match bound_in(self.bounds.as_slice(), id) {
            None => false,
            Some(_) => true,
        }
    }
}
