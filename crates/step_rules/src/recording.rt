//! What a step is asked that records a tuple, a Fact or a Derive: its premises, and that the tuple is
//! new. Each answers what breaks it, if anything.

ghost use Rattle.std.specs.Prelude.{◌≡◌, is_none, IfOk, Some};
ghost use Rattle.book_rules.specs.FactRules.{are_facts_of, concluded, if_recorded, is_fact_of, unless_body};
ghost use Rattle.book_rules.specs.State.{same_conclusion};
ghost use Rattle.book_rules.specs.Walks.{first_number};
ghost use Rattle.step_rules.specs.Tokens.{seen_of};
ghost use Rattle.step_rules.specs.Views.{facts_of, ground_conclusion};
ghost use Rattle.step_rules.specs.Standing.{standing_state};
ghost use Rattle.step_rules.specs.Falsity.{IsLastFalse};

use crate::lent::Lent;
use base::Memory;
use book_rules::By;
use chc_tokens::Seen;
use cube_forms::Tuple;
use cube_rules::{body_at, head_at, same_tuple};
use derivations::{Fact, Facts};

/// What an instance concludes: its head.
pub(crate) fn concluded(parts: &Lent, seen: &Seen) -> Result<Option<(u32, Tuple)>, Memory>
    ensures { IfOk result (λ head. head ≡ concluded parts.now.system (seen_of seen.now)) }
{
    match parts.system.clauses().get(seen.clause() as usize) {
        Some(clause) => head_at(parts.alloc, seen.point(), clause),
        None => Ok(None),
    }
}

/// Whether the fact concludes this tuple.
fn concludes(fact: &Fact, pair: &(u32, Tuple)) -> bool
    ensures { result ≡ same_conclusion (ground_conclusion fact.now.pred fact.now.tuple) (Some pair.now) }
{
    match fact.pred {
        Some(pred) => pred == pair.0 && same_tuple(fact.tuple.as_slice(), pair.1.as_slice()),
        None => false,
    }
}

/// Whether the fact of that number is there, and is this tuple.
fn is_fact_of(facts: &Facts, premise: u32, pair: &(u32, Tuple)) -> bool
    ensures { result ≡ is_fact_of (facts_of facts.now) premise pair.now }
{
    if premise >= facts.count() {
        return false;
    }
    concludes(facts.fact(premise), pair)
}

/// Whether there is a recorded fact for each body atom, in order.
fn are_facts_of(facts: &Facts, premises: &[u32], body: &[(u32, Tuple)]) -> bool
    ensures { result ≡ are_facts_of (facts_of facts.now) premises.now body.now }
{
    if premises.len() != body.len() {
        return false;
    }
    for (i, premise) in premises.iter().enumerate() {
        if !is_fact_of(facts, *premise, &body[i]) {
            return false;
        }
    }
    true
}

/// The premises are as many as the instance's body atoms, each is there, and each is its body atom's
/// tuple.
pub(crate) fn unless_body(parts: &Lent, seen: &Seen, premises: &[u32]) -> Result<Option<By>, Memory>
    ensures { IfOk result (λ by. by ≡ unless_body parts.now.system (standing_state parts.now) (seen_of seen.now) premises.now) }
{
    match parts.system.clauses().get(seen.clause() as usize) {
        Some(clause) => {
            let body = body_at(parts.alloc, seen.point(), clause)?;
            if are_facts_of(parts.facts, premises, body.as_slice()) {
                Ok(None)
            } else {
                Ok(Some(By::Step))
            }
        }
        None => Ok(Some(By::Step)),
    }
}

/// Whether the fact is false.
fn is_false(fact: &Fact) -> bool
    ensures { result ≡ is_none fact.now.pred }
{
    fact.pred.is_none()
}

/// The fact false. It can only be the last, since then the book has ended.
pub fn false_of(facts: &Facts) -> Option<u32>
    requires { IsLastFalse facts.now }
    ensures { result ≡ first_number (λ f. is_none f.conclusion) (facts_of facts.now) }
{
    let count = facts.count();
    if count == 0 {
        return None;
    }
    if is_false(facts.fact(count - 1)) {
        return Some(count - 1);
    }
    None
}

/// The fact that concludes this tuple.
fn fact_of(facts: &Facts, pair: &(u32, Tuple)) -> Option<u32>
    ensures { result ≡ first_number (λ f. same_conclusion f.conclusion (Some pair.now)) (facts_of facts.now) }
{
    facts.find(pair.0, pair.1.as_slice())
}

/// The fact of that conclusion.
fn recorded(facts: &Facts, conclusion: &Option<(u32, Tuple)>) -> Option<u32>
    requires { IsLastFalse facts.now }
    ensures { result ≡ first_number (λ f. same_conclusion f.conclusion conclusion.now) (facts_of facts.now) }
{
    match conclusion {
        Some(pair) => fact_of(facts, pair),
        None => false_of(facts),
    }
}

/// What the instance concludes isn't recorded; else the fact is told that concludes it.
pub(crate) fn if_recorded(parts: &Lent, seen: &Seen) -> Result<Option<By>, Memory>
    requires { IsLastFalse parts.now.facts }
    ensures { IfOk result (λ by. by ≡ if_recorded parts.now.system (standing_state parts.now) (seen_of seen.now)) }
{
    let conclusion = concluded(parts, seen)?;
    match recorded(parts.facts, &conclusion) {
        Some(id) => Ok(Some(By::Fact(id))),
        None => Ok(None),
    }
}
