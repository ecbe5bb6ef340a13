//! The next step by which a lemma enters.

ghost use Rattle.std.specs.Prelude.{◌<◌, IfOk, IfSome};
ghost use Rattle.obligation_turn.specs.Turns.{GoesOn};
ghost use Rattle.obligation_turn.specs.Workspaces.{IsWorkspaceFor};
ghost use Rattle.search_strategy.specs.machinery.Steps.{IsTaken};

use crate::steps::{added, lifted};
use base::Memory;
use guess_bounds::{Bounds, Wanted};
use obligation_turn::Workspace;
use std::alloc::Global;
use step_rules::{Lent, Step};

/// Lemmas that hold together and enter a book: each first at the book's level, if it is shown there by those
/// before it, and else at the first; then they are lifted, all of a level before those of the next.
#[derive(Drop)]
pub struct Entries {
    /// None as long as they aren't known.
    wanted: Option<Vec<Wanted>>,
    /// How many were added, or needn't be.
    added: usize,
    /// The level from which they are lifted.
    level: u32,
    /// How many were lifted from it, or can't be.
    lifted: usize,
}

impl Entries {
    /// No lemmas are known yet.
    pub fn new() -> Entries {
        Entries {
            wanted: None,
            added: 0,
            level: 1,
            lifted: 0,
        }
    }

    /// Takes the lemmas of the needed bounds, once the bounds refute each query.
    pub fn take(&mut self, alloc: Global, bounds: &Bounds) -> Result<(), Memory> {
        if self.wanted.is_none() && bounds.are_safe() {
            self.wanted = Some(bounds.wanted(alloc)?);
        }
        Ok(())
    }

    /// The next step that adds one.
    fn next_added(
        &mut self,
        lent: &Lent,
        wanted: &[Wanted],
        nodes: u32,
    ) -> Result<Option<Step>, Memory>
        requires goes_on { GoesOn lent.now }
        requires some { 0 < nodes }
        ensures { IfOk result (λ found. IfSome found (IsTaken lent.now nodes)) }
    {
        for at in self.added..wanted.len() {
            self.added = at + 1;
            if let Some(step) = added(lent, &wanted[at], nodes)? {
                return Ok(Some(step));
            }
        }
        Ok(None)
    }

    /// The next step that lifts one from this level.
    fn next_lifted(
        &mut self,
        lent: &Lent,
        wanted: &[Wanted],
        nodes: u32,
        work: &mut Workspace,
    ) -> Result<Option<Step>, Memory>
        requires goes_on { GoesOn lent.now }
        requires some { 0 < nodes }
        requires work { IsWorkspaceFor lent.now.system work.old }
        ensures taken { IfOk result (λ found. IfSome found (IsTaken lent.now nodes)) }
        ensures work { IsWorkspaceFor lent.now.system work.new }
    {
        for at in self.lifted..wanted.len() {
            self.lifted = at + 1;
            if let Some(step) = lifted(lent, &wanted[at], self.level, nodes, work)? {
                return Ok(Some(step));
            }
        }
        Ok(None)
    }

    /// The next step that lifts one, from the lowest level on.
    fn next_lift(
        &mut self,
        lent: &Lent,
        wanted: &[Wanted],
        nodes: u32,
        work: &mut Workspace,
    ) -> Result<Option<Step>, Memory>
        requires goes_on { GoesOn lent.now }
        requires some { 0 < nodes }
        requires work { IsWorkspaceFor lent.now.system work.old }
        ensures taken { IfOk result (λ found. IfSome found (IsTaken lent.now nodes)) }
        ensures work { IsWorkspaceFor lent.now.system work.new }
    {
        for level in self.level..lent.level {
            self.level = level;
            if let Some(step) = self.next_lifted(lent, wanted, nodes, work)? {
                return Ok(Some(step));
            }
            self.lifted = 0;
            self.level = level + 1;
        }
        Ok(None)
    }

    /// The next step: one that adds a lemma, and behind these one that lifts one.
    fn next_of(
        &mut self,
        lent: &Lent,
        wanted: &[Wanted],
        nodes: u32,
        work: &mut Workspace,
    ) -> Result<Option<Step>, Memory>
        requires goes_on { GoesOn lent.now }
        requires some { 0 < nodes }
        requires work { IsWorkspaceFor lent.now.system work.old }
        ensures taken { IfOk result (λ found. IfSome found (IsTaken lent.now nodes)) }
        ensures work { IsWorkspaceFor lent.now.system work.new }
    {
        match self.next_added(lent, wanted, nodes)? {
            Some(step) => Ok(Some(step)),
            None => self.next_lift(lent, wanted, nodes, work),
        }
    }

    /// The next step by which one of the lemmas enters; none where they aren't known, or all are as high as they
    /// come. Each step is handed out once, whatever becomes of it.
    pub fn next_entry(
        &mut self,
        lent: &Lent,
        nodes: u32,
        work: &mut Workspace,
    ) -> Result<Option<Step>, Memory>
        requires goes_on { GoesOn lent.now }
        requires some { 0 < nodes }
        requires work { IsWorkspaceFor lent.now.system work.old }
        ensures taken { IfOk result (λ found. IfSome found (IsTaken lent.now nodes)) }
        ensures work { IsWorkspaceFor lent.now.system work.new }
    {
        let Some(wanted) = self.wanted.take() else {
            return Ok(None);
        };
        let step = self.next_of(lent, wanted.as_slice(), nodes, work)?;
        self.wanted = Some(wanted);
        Ok(step)
    }
}
