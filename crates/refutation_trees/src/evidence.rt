use base::{Copied, Items, Memory};
use lin_atoms::Lit;
use std::alloc::Global;

/// What shows that the search for an integer point of a form was given up: its numbers had no room
/// any more, or it made `nodes` splits. The literals are those of a node of a split tree, in the
/// order in which they joined the node or one above it. In the node's tableau columns are numbered:
/// first the form's variables, then the quotients of the literals, then the slacks, both in order of
/// the literals.
pub enum Evidence {
    /// A basis of the node's tableau, in order of number, has a primitive row with this entry, of
    /// 2^63 or more in magnitude.
    Row {
        lits: Items<Lit>,
        basis: Items<u32>,
        entry: i128,
    },
    /// A basic point of the node has a coordinate whose numerator in lowest terms is 2^127 or more in
    /// magnitude, or a vertex of it a variable whose floor is 2^63 or more. The columns outside the
    /// basis, in order of number, have these values.
    Coordinate {
        lits: Items<Lit>,
        basis: Items<u32>,
        outside: Items<i128>,
        variable: u32,
    },
    /// The node's tableau has more than 1,024 rows.
    Rows {
        lits: Items<Lit>,
    },
    /// A split tree has `nodes` inner nodes.
    Nodes {
        nodes: u32,
    },
}

impl Drop for Evidence {
    fn drop(self) {
        match self {
            Evidence::Row {
                lits: _,
                basis: _,
                entry: _,
            } => {}
            Evidence::Coordinate {
                lits: _,
                basis: _,
                outside: _,
                variable: _,
            } => {}
            Evidence::Rows { lits: _ } => {}
            Evidence::Nodes { nodes: _ } => {}
        }
    }
}

impl Copied for Evidence {
    fn copy(&self, alloc: Global) -> Result<Evidence, Memory> {
        match self {
            Evidence::Row { lits, basis, entry } => {
                let lits = lits.copy(alloc)?;
                let basis = basis.copy(alloc)?;
                Ok(Evidence::Row {
                    lits,
                    basis,
                    entry: *entry,
                })
            }
            Evidence::Coordinate {
                lits,
                basis,
                outside,
                variable,
            } => {
                let lits = lits.copy(alloc)?;
                let basis = basis.copy(alloc)?;
                let outside = outside.copy(alloc)?;
                Ok(Evidence::Coordinate {
                    lits,
                    basis,
                    outside,
                    variable: *variable,
                })
            }
            Evidence::Rows { lits } => {
                let lits = lits.copy(alloc)?;
                Ok(Evidence::Rows { lits })
            }
            Evidence::Nodes { nodes } => Ok(Evidence::Nodes { nodes: *nodes }),
        }
    }
}
