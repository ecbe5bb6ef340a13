//! Copies of the steps in a journal.

ghost use Rattle.std.specs.Prelude.{◌≡◌};

use base::Copied;
use chc_core::{
    DerivePart, FactPart, LemmaPart, LiftPart, OpenPart, RaisePart, StallPart, Step, StrengthenPart,
};
use std::alloc::Global;
use std::process::Abort;

fn open(rt: &impl Abort, alloc: Global, part: &OpenPart) -> OpenPart
    ensures { result ≡ part.now }
{
    OpenPart {
        parent: part.parent,
        atom: part.atom,
        seen: part.seen.copy(alloc).expect(rt, "memory"),
        cube: part.cube.copy(alloc).expect(rt, "memory"),
        area: part.area.copy(alloc).expect(rt, "memory"),
    }
}

fn learn(rt: &impl Abort, alloc: Global, part: &LemmaPart) -> LemmaPart
    ensures { result ≡ part.now }
{
    LemmaPart {
        target: part.target,
        pred: part.pred,
        lemma: part.lemma.copy(alloc).expect(rt, "memory"),
        level: part.level,
        proofs: part.proofs.copy(alloc).expect(rt, "memory"),
    }
}

fn record(rt: &impl Abort, alloc: Global, part: &FactPart) -> FactPart
    ensures { result ≡ part.now }
{
    FactPart {
        target: part.target,
        seen: part.seen.copy(alloc).expect(rt, "memory"),
        premises: part.premises.copy(alloc).expect(rt, "memory"),
    }
}

fn lift(rt: &impl Abort, alloc: Global, part: &LiftPart) -> LiftPart
    ensures { result ≡ part.now }
{
    LiftPart {
        lemma: part.lemma,
        from: part.from,
        proofs: part.proofs.copy(alloc).expect(rt, "memory"),
    }
}

fn raise(rt: &impl Abort, alloc: Global, part: &RaisePart) -> RaisePart
    ensures { result ≡ part.now }
{
    RaisePart {
        closed: part.closed.copy(alloc).expect(rt, "memory"),
        kept: part.kept.copy(alloc).expect(rt, "memory"),
    }
}

fn stall(rt: &impl Abort, alloc: Global, part: &StallPart) -> StallPart
    ensures { result ≡ part.now }
{
    StallPart {
        target: part.target,
        clause: part.clause,
        used: part.used.copy(alloc).expect(rt, "memory"),
        evidence: part.evidence.copy(alloc).expect(rt, "memory"),
    }
}

fn derive(rt: &impl Abort, alloc: Global, part: &DerivePart) -> DerivePart
    ensures { result ≡ part.now }
{
    DerivePart {
        seen: part.seen.copy(alloc).expect(rt, "memory"),
        premises: part.premises.copy(alloc).expect(rt, "memory"),
    }
}

fn strengthen(rt: &impl Abort, alloc: Global, part: &StrengthenPart) -> StrengthenPart
    ensures { result ≡ part.now }
{
    StrengthenPart {
        pred: part.pred,
        lemma: part.lemma.copy(alloc).expect(rt, "memory"),
        level: part.level,
        proofs: part.proofs.copy(alloc).expect(rt, "memory"),
    }
}

/// A copy of the step, as another book can take it.
pub(crate) fn copied(rt: &impl Abort, alloc: Global, step: &Step) -> Step
    ensures { result ≡ step.now }
{
    match step {
        Step::OpenStep(part) => Step::OpenStep(open(rt, alloc, part)),
        Step::LemmaStep(part) => Step::LemmaStep(learn(rt, alloc, part)),
        Step::FactStep(part) => Step::FactStep(record(rt, alloc, part)),
        Step::LiftStep(part) => Step::LiftStep(lift(rt, alloc, part)),
        Step::RaiseStep(part) => Step::RaiseStep(raise(rt, alloc, part)),
        Step::StallStep(part) => Step::StallStep(stall(rt, alloc, part)),
        Step::DeriveStep(part) => Step::DeriveStep(derive(rt, alloc, part)),
        Step::StrengthenStep(part) => Step::StrengthenStep(strengthen(rt, alloc, part)),
    }
}
