//! What a step is asked that adds a lemma at a level, a Lemma or a Strengthen: its level and its
//! proofs. Each answers what breaks it, if anything.

ghost use Rattle.std.specs.Prelude.{◌≡◌, ◌<◌, ◌^◌, length, Some, IfOk};
ghost use Rattle.book_rules.specs.LemmaRules.{unfounded, unless_level, unproved};
ghost use Rattle.cube_rules.specs.Views.{lemmas_of};
ghost use Rattle.step_rules.specs.Tokens.{all_shown};
ghost use Rattle.step_rules.specs.Standing.{standing_state};
ghost use Rattle.step_rules.specs.machinery.Claims.{claim_of};

use crate::claim::Claim;
use crate::lent::Lent;
use crate::levels::below;
use crate::proving::{misused, unshown};
use base::{Copied, Memory};
use book_rules::By;
use chc_tokens::Shown;
use cube_forms::Lemma;

/// The level is from 1 to the book's.
pub(crate) fn unless_level(parts: &Lent, level: u32) -> Option<By>
    ensures { result ≡ unless_level (standing_state parts.now) level }
{
    if level >= 1 && level <= parts.level {
        return None;
    }
    Some(By::Level(parts.level))
}

/// A lemma on a predicate, as what is claimed.
fn claimed(parts: &Lent, pred: u32, lemma: &Lemma) -> Result<Claim, Memory>
    ensures { IfOk result (λ claim. claim_of claim ≡ Some (record { pred = pred; cube = lemma.now })) }
{
    Ok(Claim::Holds(pred, lemma.copy(parts.alloc)?))
}

/// Each clause of that head has a proof of this lemma.
pub(crate) fn unproved(
    parts: &Lent,
    pred: u32,
    lemma: &Lemma,
    level: u32,
    proofs: &[Shown],
) -> Result<Option<By>, Memory>
    requires { length parts.now.system.clauses < 2 ^ 32 }
    ensures { IfOk result (λ by. by ≡ unproved parts.now.system (record { pred = pred; cube = lemma.now }) level (all_shown proofs.now)) }
{
    let claim = claimed(parts, pred, lemma)?;
    let k = below(level);
    Ok(unshown(parts.system.plain(), k, &claim, proofs))
}

/// Each used lemma is in the frame of the level below, or this lemma on its own predicate.
pub(crate) fn unfounded(
    parts: &Lent,
    pred: u32,
    lemma: &Lemma,
    level: u32,
    proofs: &[Shown],
) -> Result<Option<By>, Memory>
    ensures { IfOk result (λ by. by ≡ unfounded parts.now.system (lemmas_of parts.now.frames.lemmas) (record { pred = pred; cube = lemma.now }) level (all_shown proofs.now)) }
{
    let claim = claimed(parts, pred, lemma)?;
    let k = below(level);
    Ok(misused(parts.system.plain(), parts.frames, k, &claim, proofs))
}
