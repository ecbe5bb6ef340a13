//! The runner: what it keeps, and how it goes on.

use crate::constants::constants_of;
use crate::distances::distances_of;
use crate::facts::{Known, fact_of};
use crate::frontier::Frontier;
use crate::patterns::Patterns;
use crate::rules::Rules;
use crate::shares::{
    MOST_NUMBERS, MOST_REACH, MOST_TUPLES, query, share_of, size_of, start, step, work_of,
};
use crate::tracing::{Instance, trace_of};
use base::Memory;
use clause_form::{Atom, Clause, System};
use cube_forms::Tuple;
use derivations::{Fact, Facts};
use run_clauses::{Derived, Found, Limits, Tuples, run_clause};
use std::alloc::Global;

/// Tuples that clauses give from tuples, and the trace of false once there is one.
#[derive(Drop)]
pub struct Runner {
    rules: Rules,
    constants: Vec<i64>,
    distances: Vec<u32>,
    patterns: Patterns,
    tuples: Tuples,
    frontier: Frontier,
    known: Known,
    /// How many numbers are kept.
    numbers: usize,
    /// How large the system is.
    size: u64,
    /// How much work was done, in literals that were looked at.
    work: u64,
    /// How far from the first value of a variable others are tried: 0 where nothing was run yet.
    reach: u32,
    trace: Option<Vec<Instance>>,
}

/// The tuple of an atom at a point.
fn tuple_at(alloc: Global, atom: &Atom, point: &[i64]) -> Result<Vec<i64>, Memory> {
    let tuple = Tuple::at(alloc, point, atom.args.as_slice())?;
    Ok(Vec::from_slice(alloc, tuple.as_slice())?)
}

impl Runner {
    /// Nothing was run yet.
    pub fn new(alloc: Global, sys: &System) -> Result<Runner, Memory> {
        Ok(Runner {
            rules: Rules::of(alloc, sys)?,
            constants: constants_of(alloc, sys)?,
            distances: distances_of(alloc, sys)?,
            patterns: Patterns::of(alloc, sys)?,
            tuples: Tuples::new(alloc, sys.preds().len())?,
            frontier: Frontier::new(alloc),
            known: Known::new(alloc),
            numbers: 0,
            size: size_of(sys),
            work: 0,
            reach: 0,
            trace: None,
        })
    }

    /// Whether there is nothing to do for now.
    fn is_done(&self, most: u64) -> bool {
        let is_full = self.tuples.len() >= MOST_TUPLES || self.numbers >= MOST_NUMBERS;
        is_full || self.work >= most || self.trace.is_some()
    }

    /// Instances of a clause, from a tuple at a body atom if one is handed in.
    fn instances(
        &mut self,
        alloc: Global,
        clause: &Clause,
        from: Option<(usize, u32)>,
        limits: Limits,
    ) -> Result<Vec<Found>, Memory> {
        let mut work = self.work;
        let constants = self.constants.as_slice();
        let found = run_clause(
            alloc,
            clause,
            &self.tuples,
            from,
            constants,
            limits,
            &mut work,
        )?;
        self.work = work;
        Ok(found)
    }

    /// Takes in a tuple that isn't there.
    fn take(&mut self, one: Derived) -> Result<Option<u32>, Memory> {
        let pred = one.pred;
        let count = one.tuple.len().saturating_add(one.point.len());
        self.numbers = self.numbers.saturating_add(count);
        let mut work = self.work;
        let rank = self.patterns.count(pred, one.tuple.as_slice(), &mut work)?;
        self.work = work;
        let further = match self.distances.as_slice().get(pred as usize) {
            Some(further) => *further,
            None => 0,
        };
        let number = self.tuples.add(one)?;
        if let Some(number) = number {
            self.frontier.push(number, rank, further)?;
        }
        Ok(number)
    }

    /// Looks for an instance of a query; false follows where there is one.
    fn ask(
        &mut self,
        alloc: Global,
        sys: &System,
        number: usize,
        from: Option<(usize, u32)>,
    ) -> Result<(), Memory> {
        if let (Some(clause), Ok(number)) = (sys.clauses().get(number), u32::try_from(number)) {
            let mut found = self.instances(alloc, clause, from, query())?;
            if let Some(one) = found.pop() {
                let Found { point, premises } = one;
                let made = trace_of(alloc, &self.tuples, number, point, premises.as_slice())?;
                self.trace = Some(made);
            }
        }
        Ok(())
    }

    /// Looks for an instance of each query with the tuple of that number.
    fn ask_all(
        &mut self,
        alloc: Global,
        sys: &System,
        pred: u32,
        number: u32,
    ) -> Result<(), Memory> {
        for place in 0..self.rules.queries(pred) {
            if let Some(one) = self.rules.query(pred, place) {
                if self.trace.is_none() {
                    self.ask(alloc, sys, one.clause, Some((one.atom, number)))?;
                }
            }
        }
        Ok(())
    }

    /// Takes in a tuple that isn't there, and asks queries about it; its number.
    fn take_and_ask(
        &mut self,
        alloc: Global,
        sys: &System,
        one: Derived,
    ) -> Result<Option<u32>, Memory> {
        let pred = one.pred;
        let taken = self.take(one)?;
        if let Some(number) = taken {
            self.ask_all(alloc, sys, pred, number)?;
        }
        Ok(taken)
    }

    /// Takes in the head's tuple of an instance, unless it is there, and asks queries about it.
    fn meet(
        &mut self,
        alloc: Global,
        sys: &System,
        head: &Atom,
        clause: u32,
        found: Found,
    ) -> Result<(), Memory> {
        let Found { point, premises } = found;
        self.work = self.work.saturating_add(work_of(point.len()));
        let pred = head.pred;
        let tuple = tuple_at(alloc, head, point.as_slice())?;
        if self.tuples.find(pred, tuple.as_slice()).is_some() {
            return Ok(());
        }
        let one = Derived {
            pred,
            tuple,
            clause,
            point,
            premises,
        };
        let _number = self.take_and_ask(alloc, sys, one)?;
        Ok(())
    }

    /// Takes in the heads' tuples of instances, until false follows.
    fn meet_all(
        &mut self,
        alloc: Global,
        sys: &System,
        head: &Atom,
        clause: u32,
        found: Vec<Found>,
    ) -> Result<(), Memory> {
        for one in found {
            if self.trace.is_none() {
                self.meet(alloc, sys, head, clause, one)?;
            }
        }
        Ok(())
    }

    /// Runs the clause of that number, from a tuple at a body atom if one is handed in.
    fn run_one(
        &mut self,
        alloc: Global,
        sys: &System,
        number: usize,
        from: Option<(usize, u32)>,
        limits: Limits,
    ) -> Result<(), Memory> {
        if let (Some(clause), Ok(own)) = (sys.clauses().get(number), u32::try_from(number)) {
            match &clause.head {
                Some(head) => {
                    let found = self.instances(alloc, clause, from, limits)?;
                    self.meet_all(alloc, sys, head, own, found)?;
                }
                None => self.ask(alloc, sys, number, from)?,
            }
        }
        Ok(())
    }

    /// Runs the clauses without body atoms, and tries values further off the next time.
    fn begin(&mut self, alloc: Global, sys: &System) -> Result<(), Memory> {
        self.reach = self.reach.saturating_mul(2).max(1);
        for place in 0..self.rules.starts() {
            if let Some(number) = self.rules.start(place) {
                if self.trace.is_none() {
                    self.run_one(alloc, sys, number, None, start(self.reach))?;
                }
            }
        }
        Ok(())
    }

    /// Runs each clause from the tuple of that number.
    fn follow(&mut self, alloc: Global, sys: &System, number: u32) -> Result<(), Memory> {
        let pred = match self.tuples.get(number) {
            Some(one) => one.pred,
            None => return Ok(()),
        };
        for place in 0..self.rules.steps(pred) {
            if let Some(one) = self.rules.step(pred, place) {
                if self.trace.is_none() {
                    self.run_one(alloc, sys, one.clause, Some((one.atom, number)), step())?;
                }
            }
        }
        Ok(())
    }

    /// Takes in a tuple, unless it is there; its number.
    fn number_of(
        &mut self,
        alloc: Global,
        sys: &System,
        one: Derived,
    ) -> Result<Option<u32>, Memory> {
        match self.tuples.find(one.pred, one.tuple.as_slice()) {
            Some(number) => Ok(Some(number)),
            None => self.take_and_ask(alloc, sys, one),
        }
    }

    /// Takes in a fact that the book has recorded.
    fn take_fact(&mut self, alloc: Global, sys: &System, fact: &Fact) -> Result<(), Memory> {
        let number = match self.known.derived(alloc, fact)? {
            Some(one) => self.number_of(alloc, sys, one)?,
            None => None,
        };
        self.known.push(number)
    }

    /// Takes in the facts that the book has recorded since the last time.
    fn take_facts(&mut self, alloc: Global, sys: &System, facts: &Facts) -> Result<(), Memory> {
        for number in self.known.count()..facts.count() {
            if let Some(fact) = fact_of(facts, number) {
                self.take_fact(alloc, sys, fact)?;
            }
        }
        Ok(())
    }

    /// Follows the tuple that is next, or runs clauses without body atoms again; whether there was something to
    /// do.
    fn go_on(&mut self, alloc: Global, sys: &System) -> Result<bool, Memory> {
        match self.frontier.take() {
            Some(number) => self.follow(alloc, sys, number)?,
            None => {
                if self.reach >= MOST_REACH {
                    return Ok(false);
                }
                self.begin(alloc, sys)?;
            }
        }
        Ok(true)
    }

    /// Goes on, until false follows or its share of work beside the units that the search spent is done. What the
    /// book has recorded is taken in.
    pub fn run(
        &mut self,
        alloc: Global,
        sys: &System,
        facts: &Facts,
        spent: u32,
    ) -> Result<(), Memory> {
        let most = share_of(self.size, spent);
        if self.is_done(most) {
            return Ok(());
        }
        self.take_facts(alloc, sys, facts)?;
        for _ in 0..MOST_TUPLES {
            if self.is_done(most) || !self.go_on(alloc, sys)? {
                return Ok(());
            }
        }
        Ok(())
    }

    /// The instances on which false rests, in order, once there are such: the last one is that of a query.
    /// They are handed out once.
    pub fn take_trace(&mut self) -> Option<Vec<Instance>> {
        self.trace.take()
    }
}
