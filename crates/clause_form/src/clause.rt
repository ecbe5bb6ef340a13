use crate::atom::Atom;
use base::{Copied, Items, Memory};
use lin_atoms::Form;
use std::alloc::Global;
use term_tree::Sort;

/// A Horn clause in normal form: where the guard holds and the body atoms are derivable, so is the
/// head, or false. The variables are numbered from 0; a Bool variable is 0 or 1 where the guard
/// holds.
#[derive(Drop)]
pub struct Clause {
    /// The number of the assertion that the clause was made of, from 0.
    pub assertion: u32,
    /// How many of the variables, the first ones, are the assertion's own. The others are
    /// determined by them.
    pub user: u32,
    /// The sort of each variable.
    pub sorts: Items<Sort>,
    /// The body.
    pub atoms: Items<Atom>,
    pub guard: Form,
    /// The head, or none for false.
    pub head: Option<Atom>,
}

impl Copied for Clause {
    fn copy(&self, alloc: Global) -> Result<Clause, Memory> {
        let sorts = self.sorts.copy(alloc)?;
        let atoms = self.atoms.copy(alloc)?;
        let guard = self.guard.copy(alloc)?;
        let head = self.head.copy(alloc)?;
        Ok(Clause {
            assertion: self.assertion,
            user: self.user,
            sorts,
            atoms,
            guard,
            head,
        })
    }
}
