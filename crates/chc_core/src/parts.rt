use crate::entry::Entry;
use base::Memory;
use clause_form::System;
use clause_index::IndexedSystem;
use cube_forms::{Held, Table};
use derivations::Facts;
use lemma_frames::Frames;
use obligation_tree::Tree;
use std::alloc::Global;
use std::marker::Model;
use step_rules::Lent;

/// What stands in a book. What grows is shared between versions, and so is the system.
pub(crate) struct Parts {
    pub(crate) alloc: Global,
    pub(crate) system: Held<IndexedSystem>,
    pub(crate) given: u32,
    pub(crate) level: u32,
    pub(crate) spent: u32,
    pub(crate) frames: Frames,
    pub(crate) facts: Facts,
    pub(crate) tree: Tree,
    pub(crate) journal: Table<Entry>,
}

impl Drop for Parts {
    fn drop(self) {
        let Parts {
            alloc: _,
            system: _,
            given: _,
            level: _,
            spent: _,
            frames: _,
            facts: _,
            tree: _,
            journal: _,
        } = self;
    }
}

impl Model for Parts {
    ghost use Rattle.std.specs.Coded.{codes};
    ghost use Rattle.lin_atoms.specs.contracts.form.Form as form;
    ghost use Rattle.chc_core.specs.Contents.{Contents};
    ghost use Rattle.chc_core.specs.contracts.entry.Entry as entry;

    ghost Value = { Contents };

    ghost coded = { Prim.hlevel (codes, form.the_row.coded, entry.the_row.coded) };

    ghost view = { λ p. record { system = p.system; given = p.given; level = p.level; spent = p.spent; frames = p.frames; facts = p.facts; tree = p.tree; journal = p.journal } };
}

impl Parts {
    ghost use Rattle.std.specs.Prelude.{◌≡◌, ◌<◌, ◌^◌, [], ◌∷◌, length, replicate, true, None, IfOk};
    ghost use Rattle.obligation_tree.specs.Nodes.{fresh, root};
    ghost use Rattle.obligation_tree.specs.Claims.{most_workers};
    ghost use Rattle.clause_form.specs.System.{is_system};
    ghost use Rattle.chc_core.specs.Views.{standing_of};

    /// The root at level 1, and nothing besides.
    pub(crate) fn new(alloc: Global, system: System, given: u32) -> Result<Parts, Memory>
        requires clauses { length system.clauses < 2 ^ 32 }
        requires preds { length system.preds < 2 ^ 32 }
        ensures is { IfOk result (λ parts. parts ≡ record {
          system = system;
          given = given;
          level = 0;
          spent = 0;
          frames = record
              { preds = length system.preds; lemmas = [] };
          facts = [];
          tree = record
              { nodes = fresh (root 1) ∷ []; claims = replicate most_workers None };
          journal = [];
        }) }
        ensures legal { is_system system ≡ true }
    {
        let preds = system.preds().len() as u32;
        let frames = Frames::new(alloc, preds)?;
        let facts = Facts::new(alloc)?;
        let tree = Tree::new(alloc)?;
        let journal = Table::new(alloc)?;
        let system = Held::new(alloc, IndexedSystem::new(alloc, system)?)?;
        Ok(Parts {
            alloc,
            system,
            given,
            level: 0,
            spent: 0,
            frames,
            facts,
            tree,
            journal,
        })
    }

    /// What its rules read.
    pub(crate) fn lend(&self) -> Lent
        ensures { result ≡ standing_of self.now }
    {
        Lent {
            alloc: self.alloc,
            system: self.system.get(),
            given: self.given,
            level: self.level,
            spent: self.spent,
            entries: self.journal.count(),
            frames: &self.frames,
            facts: &self.facts,
            tree: &self.tree,
        }
    }

    /// An equal version, which shares all that the book keeps.
    pub(crate) fn share(&self) -> Result<Parts, Memory>
        ensures { IfOk result (λ parts. parts ≡ self.now) }
    {
        let system = self.system.share()?;
        let frames = self.frames.share()?;
        let facts = self.facts.share()?;
        let tree = self.tree.share()?;
        let journal = self.journal.share()?;
        Ok(Parts {
            alloc: self.alloc,
            system,
            given: self.given,
            level: self.level,
            spent: self.spent,
            frames,
            facts,
            tree,
            journal,
        })
    }
}
