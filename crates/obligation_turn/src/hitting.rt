//! Whether an instance that was found before still breaks a lemma.

ghost use Rattle.std.specs.Prelude.{◌≡◌, ◌↔◌, true, Some, IfOk, IsTrue};
ghost use Rattle.chc_tokens.specs.Tokens.{is_seen};
ghost use Rattle.chc_tokens.specs.declared.goal.Goal.TheVariants.{Holds};
ghost use Rattle.clause_queries.specs.Answers.{IsHit};
ghost use Rattle.clause_queries.specs.Uses.{is_asked};
ghost use Rattle.obligation_turn.specs.machinery.Hits.{breaks_at, is_hit_at};

use base::Memory;
use chc_tokens::Seen;
use clause_form::Clause;
use clause_index::IndexedSystem;
use cube_forms::{Lemma, Tuple};
use cube_rules::{body_shut_out, is_head};
use lemma_frames::Frames;
use std::alloc::Global;

/// Whether the clause is asked under lemmas of level k: at level 0 only clauses without a body are.
fn is_asked(pred: u32, k: u32, clause: &Clause) -> bool
    ensures { result ≡ is_asked (Some pred) k clause.now }
{
    is_head(Some(pred), &clause.head) && (k > 0 || clause.atoms.len() == 0)
}

/// Whether the clause has a head with each place of the lemma, whose tuple at the point breaks it.
fn breaks_at(alloc: Global, clause: &Clause, point: &[i64], lemma: &Lemma) -> Result<bool, Memory>
    ensures { IfOk result (λ b. b ≡ breaks_at lemma.now point.now clause.now) }
{
    match &clause.head {
        Some(atom) => {
            let tuple = Tuple::at(alloc, point, atom.args.as_slice())?;
            Ok(lemma.cube().is_below(atom.args.len()) && lemma.excludes(tuple.as_slice()))
        }
        None => Ok(false),
    }
}

/// Whether the clause, at the point, has its head where it breaks the lemma, and its body in F(k).
fn is_hit_at(
    alloc: Global,
    frames: &Frames,
    pred: u32,
    lemma: &Lemma,
    k: u32,
    point: &[i64],
    clause: &Clause,
) -> Result<bool, Memory>
    ensures { IfOk result (λ hit. hit ≡ is_hit_at frames.now.lemmas pred lemma.now k point.now clause.now) }
{
    if !is_asked(pred, k, clause) {
        return Ok(false);
    }
    if !breaks_at(alloc, clause, point, lemma)? {
        return Ok(false);
    }
    match body_shut_out(alloc, frames, k, point, clause)? {
        Some(_) => Ok(false),
        None => Ok(true),
    }
}

/// Whether an instance of a clause with this head breaks the lemma, with its body in F(k). It is what a
/// query would find, so none has to be asked.
pub fn is_hit(
    alloc: Global,
    sys: &IndexedSystem,
    frames: &Frames,
    pred: u32,
    lemma: &Lemma,
    k: u32,
    seen: &Seen,
) -> Result<bool, Memory>
    requires seen { is_seen sys.now seen.now ≡ true }
    ensures { IfOk result (λ hit. IsTrue hit ↔ IsHit sys.now frames.now.lemmas (Some pred) (Holds lemma.now) k seen.now) }
{
    let clause = sys.clause(seen.clause() as usize);
    let hit = is_hit_at(alloc, frames, pred, lemma, k, seen.point(), clause)?;
    Ok(hit)
}
