//! Steps that are offered to the shared book, from the snapshot that they were made on.

ghost use Rattle.std.specs.Prelude.{◌≡◌, ◌≤◌, ◌+◌, true, false, if◌then◌else◌, nat_lt, IfOk, OnErr, OnOk};
ghost use Rattle.chc_tokens.specs.Tokens.{is_seen};
ghost use Rattle.step_rules.specs.declared.step.Step.TheVariants.{LemmaStep, OpenStep};
ghost use Rattle.obligation_turn.specs.Turns.{GoesOn};
ghost use Rattle.search_strategy.specs.machinery.Steps.{AreFor, IsOffered};

use crate::siblings::{Opened, atoms_of, opened_by, sibling};
use base::Memory;
use chc_core::Refused;
use search_strategy::{LIFTS_OLDER, lift_by};
use shared_book::{Run, Share, SharedBook};
use std::sync::Wait;
use step_rules::{LemmaPart, Lent, OpenPart, Step};

/// Whether the book takes the step: it doesn't where it has ended, or where the step breaks a rule by
/// what others did meanwhile.
pub(crate) fn offer<R: Run>(
    rt: &impl Wait,
    shared: &SharedBook<R>,
    share: &mut Share<R>,
    step: Step,
) -> Result<bool, Memory>
    requires { IsOffered R.system R.nodes step }
    ensures taken { IfOk result (λ taken. share.new.count ≡ (if taken then share.old.count + 1 else share.old.count)) }
    ensures err { OnErr result (share.new.count ≡ share.old.count) }
    ensures worker { share.new.worker ≡ share.old.worker }
    ensures offered { share.new.has_offered ≡ true }
{
    match shared.commit(rt, share, step) {
        Ok(_) => Ok(true),
        Err(Refused::Memory) => Err(Memory),
        Err(Refused::Ended { .. }) => Ok(false),
        Err(Refused::Spent { .. }) => Ok(false),
        Err(Refused::Rule { .. }) => Ok(false),
    }
}

/// Offers to ask one more body atom; whether there was one to ask.
fn offer_sibling<R: Run>(
    rt: &impl Wait,
    lent: &Lent,
    shared: &SharedBook<R>,
    share: &mut Share<R>,
    from: &Opened,
    number: u32,
) -> Result<bool, Memory>
    requires system { lent.now.system ≡ R.system }
    requires seen { is_seen lent.now.system from.now.seen ≡ true }
    ensures grows { share.old.count ≤ share.new.count }
    ensures one { share.new.count ≤ share.old.count + 1 }
    ensures none { IfOk result (λ offered. offered ≡ false → share.new.count ≡ share.old.count) }
    ensures worker { share.new.worker ≡ share.old.worker }
    ensures offered { share.old.has_offered ≡ true → share.new.has_offered ≡ true }
{
    match sibling(lent, from, number)? {
        Some(step) => {
            let _taken = offer(rt, shared, share, step)?;
            Ok(true)
        }
        None => Ok(false),
    }
}

/// Offers to ask other body atoms of the instance whose tuples aren't recorded, so many at the most. One
/// that is refused is left out.
fn offer_siblings<R: Run>(
    rt: &impl Wait,
    lent: &Lent,
    shared: &SharedBook<R>,
    share: &mut Share<R>,
    from: &Opened,
    most: u32,
) -> Result<(), Memory>
    requires goes_on { GoesOn lent.now }
    requires system { lent.now.system ≡ R.system }
    requires seen { is_seen lent.now.system from.now.seen ≡ true }
    ensures grows { share.old.count ≤ share.new.count }
    ensures few { share.new.count ≤ share.old.count + most }
    ensures worker { share.new.worker ≡ share.old.worker }
    ensures offered { share.old.has_offered ≡ true → share.new.has_offered ≡ true }
{
    let mut offered = 0;
    for number in 0..atoms_of(lent, from) {
        if offered < most && offer_sibling(rt, lent, shared, share, from, number)? {
            offered += 1;
        }
    }
    Ok(())
}

/// Offers the Open, and once it is taken, so many other body atoms of its instance at the most.
fn offer_open<R: Run>(
    rt: &impl Wait,
    lent: &Lent,
    shared: &SharedBook<R>,
    share: &mut Share<R>,
    part: OpenPart,
    most: u32,
) -> Result<bool, Memory>
    requires goes_on { GoesOn lent.now }
    requires system { lent.now.system ≡ R.system }
    requires open { IsOffered R.system R.nodes (OpenStep part) }
    ensures taken { IfOk result (λ taken. taken ≡ nat_lt share.old.count share.new.count) }
    ensures grows { share.old.count ≤ share.new.count }
    ensures few { share.new.count ≤ share.old.count + 1 + most }
    ensures worker { share.new.worker ≡ share.old.worker }
    ensures offered { OnOk result (share.new.has_offered ≡ true) }
{
    let from = opened_by(lent.alloc, &part)?;
    let taken = offer(rt, shared, share, Step::OpenStep(part))?;
    if taken {
        offer_siblings(rt, lent, shared, share, &from, most)?;
    }
    Ok(taken)
}

/// Offers to lift the lemma from this level to the next with the part's proofs.
fn offer_lift<R: Run>(
    rt: &impl Wait,
    lent: &Lent,
    shared: &SharedBook<R>,
    share: &mut Share<R>,
    id: u32,
    from: u32,
    part: &LemmaPart,
) -> Result<bool, Memory>
    requires { AreFor R.system part.now.proofs }
    ensures taken { IfOk result (λ taken. share.new.count ≡ (if taken then share.old.count + 1 else share.old.count)) }
    ensures err { OnErr result (share.new.count ≡ share.old.count) }
    ensures worker { share.new.worker ≡ share.old.worker }
    ensures offered { OnOk result (share.new.has_offered ≡ true) }
{
    let step = lift_by(lent.alloc, part, id, from)?;
    offer(rt, shared, share, step)
}

/// Lifts the lemma level by level from this one up to the part's, as far as the book takes it; whether
/// it took any.
fn carry<R: Run>(
    rt: &impl Wait,
    lent: &Lent,
    shared: &SharedBook<R>,
    share: &mut Share<R>,
    older: (u32, u32),
    part: &LemmaPart,
) -> Result<bool, Memory>
    requires { AreFor R.system part.now.proofs }
    ensures taken { IfOk result (λ taken. taken ≡ nat_lt share.old.count share.new.count) }
    ensures grows { share.old.count ≤ share.new.count }
    ensures worker { share.new.worker ≡ share.old.worker }
    ensures offered { IfOk result (λ taken. taken ≡ true → share.new.has_offered ≡ true) }
{
    let (id, level) = older;
    let mut taken = false;
    for from in level..part.level {
        if !offer_lift(rt, lent, shared, share, id, from, part)? {
            return Ok(taken);
        }
        taken = true;
    }
    Ok(taken)
}

/// Lifts an older lemma that has the part's cube, if there is one and older lemmas are lifted; whether it
/// was lifted.
fn carry_older<R: Run>(
    rt: &impl Wait,
    lent: &Lent,
    shared: &SharedBook<R>,
    share: &mut Share<R>,
    part: &LemmaPart,
) -> Result<bool, Memory>
    requires { AreFor R.system part.now.proofs }
    ensures taken { IfOk result (λ taken. taken ≡ nat_lt share.old.count share.new.count) }
    ensures grows { share.old.count ≤ share.new.count }
    ensures worker { share.new.worker ≡ share.old.worker }
    ensures offered { IfOk result (λ taken. taken ≡ true → share.new.has_offered ≡ true) }
{
    if !LIFTS_OLDER {
        return Ok(false);
    }
    match shared.older(rt, part) {
        Some(older) => carry(rt, lent, shared, share, older, part),
        None => Ok(false),
    }
}

/// Offers the lemma. Where an older one has its cube, that one is lifted in its place.
fn offer_lemma<R: Run>(
    rt: &impl Wait,
    lent: &Lent,
    shared: &SharedBook<R>,
    share: &mut Share<R>,
    part: LemmaPart,
) -> Result<bool, Memory>
    requires { IsOffered R.system R.nodes (LemmaStep part) }
    ensures taken { IfOk result (λ taken. taken ≡ nat_lt share.old.count share.new.count) }
    ensures grows { share.old.count ≤ share.new.count }
    ensures worker { share.new.worker ≡ share.old.worker }
    ensures offered { OnOk result (share.new.has_offered ≡ true) }
{
    if carry_older(rt, lent, shared, share, &part)? {
        return Ok(true);
    }
    offer(rt, shared, share, Step::LemmaStep(part))
}

/// Offers the step of a turn, or lifts of an older lemma in its place, and what comes with it, of further
/// body atoms so many at the most; whether any of it was taken.
pub fn offer_turn<R: Run>(
    rt: &impl Wait,
    lent: &Lent,
    shared: &SharedBook<R>,
    share: &mut Share<R>,
    step: Step,
    most: u32,
) -> Result<bool, Memory>
    requires goes_on { GoesOn lent.now }
    requires system { lent.now.system ≡ R.system }
    requires step { IsOffered R.system R.nodes step }
    ensures taken { IfOk result (λ taken. taken ≡ nat_lt share.old.count share.new.count) }
    ensures grows { share.old.count ≤ share.new.count }
    ensures worker { share.new.worker ≡ share.old.worker }
    ensures offered { OnOk result (share.new.has_offered ≡ true) }
{
    match step {
        Step::OpenStep(part) => offer_open(rt, lent, shared, share, part, most),
        Step::LemmaStep(part) => offer_lemma(rt, lent, shared, share, part),
        step => offer(rt, shared, share, step),
    }
}
