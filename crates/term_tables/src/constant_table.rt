ghost use Rattle.std.specs.Prelude.{◌≡◌, IfOk, ◌<◌, ◌^◌};
ghost use Rattle.term_tables.specs.machinery.Table.{constant_in, AreConstants};

use crate::constants::{constant_in, node_constant};
use crate::kept::Kept;
use base::Memory;
use std::alloc::Global;
use std::marker::Model;
use term_tree::{TermId, Terms};

/// The value of every term that is a constant, where it and all constants in it are below 2^63 in
/// magnitude. It is found once, from the values of each term's parts.
#[derive(Drop)]
pub struct ConstantTable {
    constants: Vec<Kept>,
}

impl Model for ConstantTable {
    ghost use Rattle.std.specs.Prelude.{List, Option, ℤ};

    ghost Value = { List (Option ℤ) };

    ghost view = { λ t. t.constants.items };
}

impl ConstantTable {
    /// Looks at every term once.
    pub fn of(alloc: Global, terms: &Terms) -> Result<ConstantTable, Memory>
        ensures { IfOk result (λ table. AreConstants terms.now.nodes table) }
    {
        let mut constants = Vec::with_capacity(alloc, terms.len())?;
        let mut given = Vec::new(alloc);
        for i in 0..terms.len() {
            let Ok(number) = u32::try_from(i) else {
                return Ok(ConstantTable { constants });
            };
            let constant = node_constant(
                terms.node(TermId(number)),
                constants.as_slice(),
                &mut given,
            )?;
            constants.push(Kept::new(constant))?;
        }
        Ok(ConstantTable { constants })
    }

    /// The value of the term, where it is a constant.
    pub fn constant(&self, id: TermId) -> Option<i64>
        ensures constant { result ≡ constant_in self.now id.0 }
        ensures short { id.0 < 2 ^ 32 }
    {
        let _number = id.0;
        constant_in(self.constants.as_slice(), id)
    }
}
