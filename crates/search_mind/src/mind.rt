ghost use Rattle.std.specs.Prelude.{◌<◌, IfOk, IfSome, OnOk};
ghost use Rattle.clause_form.specs.System.{Clauses};
ghost use Rattle.obligation_turn.specs.Turns.{GoesOn, IsOpenLeaf};
ghost use Rattle.search_strategy.specs.machinery.Steps.{IsOffered, IsTaken};
ghost use Rattle.search_mind.specs.Minds.{IsMindFor};

use crate::forward::Forward;
use crate::hints::{hints_for, note_bounds};
use base::Memory;
use guess_all::Hints;
use obligation_turn::{Workspace, turn_in};
use search_entry::Entries;
use search_learn::improved;
use search_strategy::{Pass, Strategy, next_lift, strategy_of};
use std::alloc::Global;
use step_rules::{Lent, Step};

/// What a worker keeps between its turns, for itself: what running clauses forward has found, if it is the
/// first worker, what was guessed of the system's predicates, the lemmas that enter for no obligation, the
/// instances that were found to break lemmas, the lemmas that it has to lift, and its strategy. It is for the
/// turns of one book, and a new one serves as well.
pub struct Mind {
    forward: Forward,
    hints: Option<Hints>,
    entries: Entries,
    pass: Option<Pass>,
    work: Workspace,
    strategy: Strategy,
}

impl Drop for Mind {
    fn drop(self) {
        let Mind {
            forward: _,
            hints: _,
            entries: _,
            pass: _,
            work: _,
            strategy: _,
        } = self;
    }
}

impl Mind {
    /// The mind of the worker of this number, from 1, before its first turn.
    pub fn new(alloc: Global, worker: u32) -> Mind
        ensures { (sys : Clauses) → IsMindFor sys result }
    {
        Mind {
            forward: Forward::new(alloc, worker <= 1),
            hints: None,
            entries: Entries::new(),
            pass: None,
            work: Workspace::new(alloc),
            strategy: strategy_of(worker),
        }
    }

    /// The next step that lets a lemma enter, or lifts one.
    fn next_learnt(&mut self, lent: &Lent, nodes: u32) -> Result<Option<Step>, Memory>
        requires goes_on { GoesOn lent.now }
        requires some { 0 < nodes }
        requires mind { IsMindFor lent.now.system self.old }
        ensures taken { IfOk result (λ found. IfSome found (IsTaken lent.now nodes)) }
        ensures mind { IsMindFor lent.now.system self.new }
    {
        match self.entries.next_entry(lent, nodes, &mut self.work)? {
            Some(step) => Ok(Some(step)),
            None => next_lift(lent, &mut self.pass, nodes, &mut self.work),
        }
    }

    /// The next small step, if there is one: one that needs no obligation, to be offered before one is
    /// served. The facts of a trace of false come first, then lemmas of bounds that refute each query, then
    /// the Lifts of the lemmas that are to be lifted.
    pub fn small_step(&mut self, lent: &Lent, nodes: u32) -> Result<Option<Step>, Memory>
        requires goes_on { GoesOn lent.now }
        requires some { 0 < nodes }
        requires mind { IsMindFor lent.now.system self.old }
        ensures offered { IfOk result (λ found. IfSome found (IsOffered lent.now.system nodes)) }
        ensures mind { IsMindFor lent.now.system self.new }
    {
        match self.forward.next_step(lent)? {
            Some(step) => Ok(Some(step)),
            None => self.next_learnt(lent, nodes),
        }
    }

    /// The step that serves the obligation. A lemma is first made more general and raised.
    pub fn serve(&mut self, lent: &Lent, job: u32, nodes: u32) -> Result<Step, Memory>
        requires goes_on { GoesOn lent.now }
        requires leaf { IsOpenLeaf lent.now job }
        requires some { 0 < nodes }
        requires mind { IsMindFor lent.now.system self.old }
        ensures taken { IfOk result (IsTaken lent.now nodes) }
        ensures mind { OnOk result (IsMindFor lent.now.system self.new) }
    {
        let hints = hints_for(lent, &mut self.hints)?;
        note_bounds(lent.alloc, hints.as_ref(), &mut self.entries)?;
        let step = turn_in(lent, job, nodes, &mut self.work)?;
        let served = improved(lent, step, hints.as_ref(), nodes, self.strategy)?;
        self.hints = hints;
        Ok(served)
    }

    /// The book has taken the step that served an obligation: the lemmas that are lifted after it come
    /// next, if there are any.
    pub fn begin(&mut self, pass: Option<Pass>)
        ensures { (sys : Clauses) → IsMindFor sys self.old → IsMindFor sys self.new }
    {
        if let Some(pass) = pass {
            self.pass = Some(pass);
        }
    }
}
