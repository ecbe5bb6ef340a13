//! Recorded facts in a cube.

ghost use Rattle.std.specs.Prelude.{◌≡◌, nat_lt, if◌then◌else◌, Some, None};
ghost use Rattle.std.specs.List.{find, fold, list_any};
ghost use Rattle.book_rules.specs.OpenRules.{has_fact_in};
ghost use Rattle.book_rules.specs.State.{holds_of};
ghost use Rattle.book_rules.specs.Walks.{first_number};
ghost use Rattle.cube_forms.specs.Cubes.{cube_holds};
ghost use Rattle.step_rules.specs.Views.{ground_conclusion, facts_of};
ghost use Rattle.step_rules.specs.machinery.Fronts.{lesser, with_least};
ghost use Rattle.step_rules.specs.machinery.Walks.{fails_plainly_at, is_plain, lies_in, lies_in_at};

use crate::pinning::{MOST, front_of};
use derivations::{Fact, Facts};
use lin_atoms::Lit;

/// Whether the literal has no divisor.
fn is_plain(lit: &Lit) -> bool
    ensures { result ≡ is_plain lit.now }
{
    match lit {
        Lit::Le(_) => true,
        Lit::Eq(_) => true,
        Lit::Div(_, _) => false,
        Lit::NDiv(_, _) => false,
    }
}

/// Whether a literal without a divisor fails at the tuple.
fn fails_plainly(lits: &[Lit], tuple: &[i64]) -> bool
    ensures { result ≡ list_any (fails_plainly_at tuple.now) lits.now }
{
    for lit in lits {
        if is_plain(lit) && !lit.holds(tuple) {
            return true;
        }
    }
    false
}

/// Whether the literals hold the tuple. Those without a divisor are asked first, since a division is
/// dear.
fn all_hold(lits: &[Lit], tuple: &[i64]) -> bool
    ensures { result ≡ cube_holds tuple.now lits.now }
{
    if fails_plainly(lits, tuple) {
        return false;
    }
    for lit in lits {
        if !lit.holds(tuple) {
            return false;
        }
    }
    true
}

/// Whether the fact is of the predicate and lies in the cube.
fn is_in(fact: &Fact, pred: u32, cube: &[Lit]) -> bool
    ensures { result ≡ holds_of (Some pred) cube.now (ground_conclusion fact.now.pred fact.now.tuple) }
{
    match fact.pred {
        Some(of) => pred == of && all_hold(cube, fact.tuple.as_slice()),
        None => false,
    }
}

/// Whether there is a fact of that number, and it is.
fn lies_in(facts: &Facts, pred: u32, cube: &[Lit], id: u32) -> bool
    ensures { result ≡ lies_in_at facts.now pred cube.now id }
{
    if id >= facts.count() {
        return false;
    }
    is_in(facts.fact(id), pred, cube)
}

/// The first of the numbers whose fact does.
fn first_in(facts: &Facts, pred: u32, cube: &[Lit], numbers: &[u32]) -> Option<u32>
    ensures { result ≡ find (lies_in_at facts.now pred cube.now) numbers.now }
{
    for id in numbers {
        if lies_in(facts, pred, cube, *id) {
            return Some(*id);
        }
    }
    None
}

/// The lesser of two numbers.
fn least(id: u32, other: u32) -> u32
    ensures { result ≡ (if nat_lt id other then id else other) }
{
    if id < other { id } else { other }
}

/// The lesser of a number, if there is one, and another.
fn lesser(best: Option<u32>, id: u32) -> Option<u32>
    ensures { result ≡ lesser best id }
{
    match best {
        Some(other) => Some(least(id, other)),
        None => Some(id),
    }
}

/// The number so far, or one more where it is less and its fact lies in the cube.
fn with_least(facts: &Facts, pred: u32, cube: &[Lit], best: Option<u32>, id: u32) -> Option<u32>
    ensures { result ≡ with_least (lies_in_at facts.now pred cube.now) best id }
{
    if lies_in(facts, pred, cube, id) {
        return lesser(best, id);
    }
    best
}

/// The least of the numbers whose fact does, in whatever order they stand.
fn least_in(facts: &Facts, pred: u32, cube: &[Lit], numbers: &[u32]) -> Option<u32>
    ensures { result ≡ fold (with_least (lies_in_at facts.now pred cube.now)) None numbers.now }
{
    let mut best = None;
    for id in numbers {
        best = with_least(facts, pred, cube, best, *id);
    }
    best
}

/// The first recorded fact of the predicate in the cube. Only those are looked at whose tuples begin as
/// the cube's equations tell.
pub(crate) fn fact_in(facts: &Facts, pred: u32, cube: &[Lit]) -> Option<u32>
    ensures { result ≡ first_number (lies_in pred cube.now) (facts_of facts.now) }
{
    let mut values = [0; MOST];
    let count = front_of(cube, &mut values);
    if count == 0 {
        return first_in(facts, pred, cube, facts.of(pred));
    }
    least_in(facts, pred, cube, facts.under(pred, &values[..count]))
}

/// Whether a recorded fact of the predicate lies in the cube.
pub fn has_fact_in(facts: &Facts, pred: u32, cube: &[Lit]) -> bool
    ensures { result ≡ has_fact_in (facts_of facts.now) pred cube.now }
{
    fact_in(facts, pred, cube).is_some()
}
