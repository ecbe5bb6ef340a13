ghost use Rattle.std.specs.Prelude.{◌≡◌, None};
ghost use Rattle.book_rules.specs.Legal.{end};
ghost use Rattle.chc_core.specs.Views.{standing_of, state_of};
ghost use Rattle.clause_queries.specs.Answers.{AreFew};
ghost use Rattle.obligation_turn.specs.Turns.{GoesOn, IsOpenLeaf, IsThin};
ghost use Rattle.shared_book.specs.Jobs.{IsJob};

use crate::run::Run;
use chc_core::Snapshot;
use std::marker::{Model, PhantomData};
use step_rules::Lent;

/// What a worker is given to do: an obligation that it holds, a live leaf that isn't stalled, and the
/// book as it was then. That book is of the run's clauses and has no end, and its cubes have
/// coefficients below 2^54 in magnitude.
#[derive(Drop)]
pub struct Job<R: Run> {
    obligation: u32,
    snapshot: Snapshot,
    run: PhantomData<R>,
}

impl<R: Run> Model for Job<R> {
    ghost use Rattle.std.specs.Coded.{codes};
    ghost use Rattle.lin_atoms.specs.contracts.form.Form as form;
    ghost use Rattle.chc_core.specs.contracts.entry.Entry as entry;
    ghost use Rattle.shared_book.specs.Jobs.{Asked, IsJob};

    ghost Value = { Asked };

    ghost coded = { Prim.hlevel (codes, form.the_row.coded, entry.the_row.coded) };

    ghost view = { λ j. record { obligation = j.obligation; snapshot = j.snapshot } };

    ghost invariant = { λ j. IsJob R.system (record { obligation = j.obligation; snapshot = j.snapshot }) };
}

impl<R: Run> Job<R> {
    /// The job of that obligation.
    pub(crate) fn new(obligation: u32, snapshot: Snapshot) -> Job<R>
        requires { IsJob R.system (record { obligation = obligation; snapshot = snapshot }) }
        ensures { result ≡ record { obligation = obligation; snapshot = snapshot } }
    {
        Job {
            obligation,
            snapshot,
            run: PhantomData,
        }
    }

    /// The obligation's number.
    pub fn obligation(&self) -> u32
        ensures is { result ≡ self.now.obligation }
        ensures leaf { IsOpenLeaf (standing_of self.now.snapshot) result }
    {
        self.obligation
    }

    /// The book as it was when the job was given.
    pub fn snapshot(&self) -> &Snapshot
        ensures is { result.now ≡ self.now.snapshot }
        ensures system { result.now.system ≡ R.system }
        ensures few { AreFew R.system }
        ensures goes_on { end (state_of result.now) ≡ None }
        ensures thin { IsThin (standing_of result.now) }
    {
        &self.snapshot
    }

    /// What a turn reads of that book.
    pub fn lend(&self) -> Lent
        ensures is { result ≡ standing_of self.now.snapshot }
        ensures system { result.system ≡ R.system }
        ensures goes_on { GoesOn result }
        ensures leaf { IsOpenLeaf result self.now.obligation }
    {
        let _facts = self.snapshot.facts();
        self.snapshot.lend()
    }
}
