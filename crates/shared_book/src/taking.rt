//! Steps that the book takes, for a worker whose claim is released.

ghost use Rattle.std.specs.Prelude.{◌≡◌, ◌≤◌, ◌<◌, ◌+◌, ℕ, [], ◌∷◌, ◌++◌, length, true, None, Some, IfOk, OnOk, OnErr, IsErrOf};
ghost use Rattle.book_rules.specs.declared.by.By.{By as BrokenBy};
ghost use Rattle.book_rules.specs.declared.end.End.{End as BookEnd};
ghost use Rattle.book_rules.specs.declared.end.End.TheVariants.{Spent as UnitsSpent};
ghost use Rattle.book_rules.specs.Effects.{after};
ghost use Rattle.book_rules.specs.Legal.{IsLegal, end};
ghost use Rattle.book_rules.specs.Places.{has_places};
ghost use Rattle.book_rules.specs.Rules.{broken};
ghost use Rattle.chc_core.specs.Views.{state_of};
ghost use Rattle.obligation_tree.specs.Claims.{most_workers};
ghost use Rattle.step_rules.specs.Taken.{IsMadeFor, step_of};
ghost use Rattle.shared_book.specs.Locks.{AreReleased, released_by, with_claims};

use base::MOST_WORKERS;
use chc_core::{Book, Refused};
use step_rules::Step;

/// Takes all claims on the book away.
pub(crate) fn release_all(book: &mut Book)
    ensures is { book.new ≡ with_claims book.new.tree.claims book.old }
    ensures free { AreReleased book.new.tree.claims }
{
    for worker in 0..MOST_WORKERS {
        book.release(worker + 1);
    }
}

/// Releases the worker's claim, and commits the step.
pub(crate) fn commit_released(book: &mut Book, worker: u32, step: Step) -> Result<u64, Refused>
    requires first { 0 < worker }
    requires last { worker ≤ most_workers }
    requires made { IsMadeFor book.old.system step }
    requires places { has_places book.old.system (step_of step) ≡ true }
    ensures number { IfOk result (λ number. number ≡ length book.old.journal + 1) }
    ensures legal { OnOk result (IsLegal book.old.system (state_of book.old) (step_of step)) }
    ensures state { OnOk result (state_of book.new ≡ after book.old.system (state_of book.old) (step_of step)) }
    ensures journal { OnOk result (book.new.journal ≡ book.old.journal ++ (record { worker = worker; step = step }) ∷ []) }
    ensures system { OnOk result (book.new.system ≡ book.old.system) }
    ensures given { OnOk result (book.new.given ≡ book.old.given) }
    ensures claims { OnOk result (book.new.tree.claims ≡ (released_by worker book.old).tree.claims) }
    ensures ended { (e : BookEnd) → IsErrOf result (Refused.Ended e) → (end (state_of book.old) ≡ Some e) × ((units : ℕ) → e ≡ UnitsSpent units → ⊥) }
    ensures spent { (units : ℕ) → IsErrOf result (Refused.Spent units) → end (state_of book.old) ≡ Some (UnitsSpent units) }
    ensures rule { (n : ℕ) (by : BrokenBy) → IsErrOf result (Refused.Rule n by) → (end (state_of book.old) ≡ None) × (broken book.old.system (state_of book.old) (step_of step) ≡ Some (n, by)) }
    ensures err { OnErr result (book.new ≡ released_by worker book.old) }
{
    book.release(worker);
    book.commit(worker, step)
}
