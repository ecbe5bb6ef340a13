ghost use Rattle.std.specs.Prelude.{◌≡◌, ◌++◌, [], ◌∷◌, IfOk, OnOk};

use crate::part::Part;
use base::Memory;
use std::alloc::Global;
use term_tree::TermId;

/// A term that was read: its number in the arena, what it is to the term around it, and the number of
/// the next quantified variable of the text.
#[derive(Clone, Copy)]
pub struct Found {
    pub id: TermId,
    pub part: Part,
    pub next: u32,
}

/// Terms that were read one after another.
#[derive(Drop)]
pub struct FoundAll {
    pub ids: Vec<TermId>,
    pub parts: Vec<Part>,
    pub next: u32,
}

impl FoundAll {
    /// None yet, with room for `count` terms, a list for their parts, and the number of the next variable.
    pub fn with_room(
        alloc: Global,
        parts: Vec<Part>,
        count: usize,
        next: u32,
    ) -> Result<FoundAll, Memory>
        requires { parts.items ≡ [] }
        ensures ids { IfOk result (λ all. all.ids.items ≡ []) }
        ensures parts { IfOk result (λ all. all.parts.items ≡ []) }
        ensures next { IfOk result (λ all. all.next ≡ next) }
    {
        Ok(FoundAll {
            ids: Vec::with_capacity(alloc, count)?,
            parts,
            next,
        })
    }

    /// One more behind the others.
    pub fn add(&mut self, found: Found) -> Result<(), Memory>
        ensures ids { OnOk result (self.new.ids.items ≡ self.old.ids.items ++ found.id ∷ []) }
        ensures parts { OnOk result (self.new.parts.items ≡ self.old.parts.items ++ found.part ∷ []) }
        ensures next { OnOk result (self.new.next ≡ found.next) }
    {
        self.ids.push(found.id)?;
        self.parts.push(found.part)?;
        self.next = found.next;
        Ok(())
    }
}
