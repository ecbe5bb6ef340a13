ghost use Rattle.std.specs.Prelude.{IfOk};
ghost use Rattle.term_tables.specs.machinery.Table.{AreConstants, AreSorts, constant_in};
ghost use Rattle.term_widths.specs.machinery.Room.{AreBounds};

use base::Memory;
use std::alloc::Global;
use term_tables::{ConstantTable, SortTable};
use term_tree::{Pred, Terms};
use term_widths::RoomTable;

/// What is told of every term once: its sort, its value if it is a constant, and whether a bound shows
/// that the numbers in it have room. It serves every assertion of a script.
#[derive(Drop)]
pub struct Tables {
    pub sorts: SortTable,
    pub constants: ConstantTable,
    pub rooms: RoomTable,
}

/// Looks at every term once.
pub fn tables_of(alloc: Global, preds: &[Pred], terms: &Terms) -> Result<Tables, Memory>
    ensures sorts { IfOk result (λ tables. AreSorts preds.now terms.now.nodes tables.sorts) }
    ensures constants { IfOk result (λ tables. AreConstants terms.now.nodes tables.constants) }
    ensures rooms { IfOk result (λ tables. AreBounds (constant_in tables.constants) terms.now.nodes tables.rooms) }
{
    let sorts = SortTable::of(alloc, preds, terms)?;
    let constants = ConstantTable::of(alloc, terms)?;
    let rooms = RoomTable::of(alloc, terms, &constants)?;
    Ok(Tables {
        sorts,
        constants,
        rooms,
    })
}
