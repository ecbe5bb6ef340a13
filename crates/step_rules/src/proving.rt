ghost use Rattle.std.specs.Prelude.{◌≡◌, ◌<◌, ◌^◌, length, is_some, None, true};
ghost use Rattle.std.specs.List.{list_any};
ghost use Rattle.std.specs.Bool.{OnTrue};
ghost use Rattle.book_rules.specs.Proofs.{all_may_use, is_proof_of, may_use, misused, needs, unshown};
ghost use Rattle.step_rules.specs.Tokens.{all_shown, all_used, shown_of, used_of};
ghost use Rattle.cube_rules.specs.Views.{lemmas_of};
ghost use Rattle.step_rules.specs.machinery.Claims.{claim_of};

use crate::claim::Claim;
use book_rules::By;
use chc_tokens::{Shown, Used};
use clause_form::{Clause, System};
use cube_rules::{frame_has, is_head};
use lemma_frames::Frames;

/// Two runs of proofs for each number of body atoms up to 64.
const RUNS: usize = 130;

/// Whether a clause needs a proof of the claim under lemmas of level k.
fn needs(k: u32, claim: &Claim, clause: &Clause) -> bool
    ensures { result ≡ needs k (claim_of claim.now) clause.now }
{
    is_head(claim.pred(), &clause.head) && (k > 0 || clause.atoms.len() == 0)
}

/// Whether the proof is of the claim, through the clause of that number.
fn is_proof(claim: &Claim, number: u32, proof: &Shown) -> bool
    ensures { result ≡ is_proof_of (claim_of claim.now) number (shown_of proof.now) }
{
    proof.clause() == number && claim.is_goal(proof.goal())
}

/// Where one of the proofs is, if any.
fn place_of(claim: &Claim, number: u32, proofs: &[Shown]) -> Option<usize>
    ensures { is_some result ≡ list_any (is_proof_of (claim_of claim.now) number) (all_shown proofs.now) }
{
    for (at, proof) in proofs.iter().enumerate() {
        if is_proof(claim, number, proof) {
            return Some(at);
        }
    }
    None
}

/// Whether the one at a place is.
fn is_proved_at(claim: &Claim, number: u32, proofs: &[Shown], at: usize) -> bool
    ensures { OnTrue result (list_any (is_proof_of (claim_of claim.now) number) (all_shown proofs.now) ≡ true) }
{
    match proofs.get(at) {
        Some(proof) => is_proof(claim, number, proof),
        None => false,
    }
}

/// Whether the next one of a run is. Then the run goes on behind it.
fn is_proved_in(
    claim: &Claim,
    number: u32,
    proofs: &[Shown],
    runs: &mut [usize],
    run: usize,
) -> bool
    ensures { OnTrue result (list_any (is_proof_of (claim_of claim.now) number) (all_shown proofs.now) ≡ true) }
{
    let at = next_of(runs, run);
    if is_proved_at(claim, number, proofs, at) {
        put_next(runs, run, at.saturating_add(1));
        return true;
    }
    false
}

/// The place at which a run goes on.
fn next_of(runs: &[usize], run: usize) -> usize {
    match runs.get(run) {
        Some(at) => *at,
        None => 0,
    }
}

fn put_next(runs: &mut [usize], run: usize, at: usize) {
    if let Some(next) = runs.get_mut(run) {
        *next = at;
    }
}

/// Whether one of the proofs is. Proofs come in runs: those through clauses with as many body atoms stand in
/// the order of their clauses, but for some that stand in that order behind the others. So the next ones of
/// the two runs are looked at first, and only then all.
fn is_proved(claim: &Claim, number: u32, proofs: &[Shown], runs: &mut [usize], run: usize) -> bool
    ensures { result ≡ list_any (is_proof_of (claim_of claim.now) number) (all_shown proofs.now) }
{
    let other = run.saturating_add(1);
    if is_proved_in(claim, number, proofs, runs, run) {
        return true;
    }
    if is_proved_in(claim, number, proofs, runs, other) {
        return true;
    }
    match place_of(claim, number, proofs) {
        Some(at) => {
            let next = next_of(runs, run);
            put_next(runs, other, next);
            put_next(runs, run, at.saturating_add(1));
            true
        }
        None => false,
    }
}

/// The first of two runs of proofs through clauses with as many body atoms.
fn run_of(clause: &Clause) -> usize {
    clause.atoms.len().min(64).saturating_mul(2)
}

/// The first clause that needs a proof of the claim and has none.
pub(crate) fn unshown(sys: &System, k: u32, claim: &Claim, proofs: &[Shown]) -> Option<By>
    requires { length sys.now.clauses < 2 ^ 32 }
    ensures { result ≡ unshown sys.now k (claim_of claim.now) (all_shown proofs.now) }
{
    let mut runs = [0; RUNS];
    for (number, clause) in sys.clauses().iter().enumerate() {
        let id = number as u32;
        if needs(k, claim, clause) && !is_proved(claim, id, proofs, &mut runs, run_of(clause)) {
            return Some(By::Clause(id));
        }
    }
    None
}

/// Whether a used lemma may be used: it is of level k or more, or the claim itself where that is
/// allowed.
fn may_use(sys: &System, frames: &Frames, k: u32, own: &Claim, number: u32, used: &Used) -> bool
    ensures { result ≡ may_use sys.now (lemmas_of frames.now.lemmas) k (claim_of own.now) number (used_of used.now) }
{
    match sys.clauses().get(number as usize) {
        None => false,
        Some(clause) => match clause.atoms.as_slice().get(used.atom as usize) {
            None => false,
            Some(atom) => {
                frame_has(frames, k, atom.pred, &used.lemma) || own.is_lemma(atom.pred, &used.lemma)
            }
        },
    }
}

/// Whether each of them may be used.
pub(crate) fn all_may_use(
    sys: &System,
    frames: &Frames,
    k: u32,
    own: &Claim,
    number: u32,
    used: &[Used],
) -> bool
    ensures { result ≡ all_may_use sys.now (lemmas_of frames.now.lemmas) k (claim_of own.now) number (all_used used.now) }
{
    for one in used {
        if !may_use(sys, frames, k, own, number, one) {
            return false;
        }
    }
    true
}

/// The clause of the first proof that uses a lemma that it may not use.
pub(crate) fn misused(
    sys: &System,
    frames: &Frames,
    k: u32,
    own: &Claim,
    proofs: &[Shown],
) -> Option<By>
    ensures { result ≡ misused sys.now (lemmas_of frames.now.lemmas) k (claim_of own.now) (all_shown proofs.now) }
{
    for proof in proofs {
        if !all_may_use(sys, frames, k, own, proof.clause(), proof.used()) {
            return Some(By::Clause(proof.clause()));
        }
    }
    None
}
