//! What each legal step makes of a book. Nothing of the book is changed here.

ghost use Rattle.std.specs.Prelude.{◌≡◌, ◌+◌, [], length, Some, None, IfOk};
ghost use Rattle.clause_form.specs.declared.atom.Atom.{Atom as PlainAtom};
ghost use Rattle.book_rules.specs.Effects.{child_of, learnt, recorded, written};
ghost use Rattle.book_rules.specs.Instances.{head_at};
ghost use Rattle.book_rules.specs.OpenRules.{atom_of, parent_of};
ghost use Rattle.book_rules.specs.State.{Obligation as PlainObligation};
ghost use Rattle.chc_tokens.specs.Kept.{seen_point};
ghost use Rattle.step_rules.specs.Taken.{open_of};
ghost use Rattle.chc_core.specs.Views.{state_of};
ghost use Rattle.step_rules.specs.Views.{ground_conclusion, fresh_of};
ghost use Rattle.step_rules.specs.declared.step.Step.TheVariants.{OpenStep, LiftStep, RaiseStep, StallStep};
ghost use Rattle.step_rules.specs.Tokens.{seen_of};
ghost use Rattle.chc_core.specs.machinery.Making.{CanLearn, CanRecord, CanTake, IsMadeBy, IsMadeInto};

use crate::made::Made;
use crate::parts::Parts;
use base::{Copied, Items, Memory};
use chc_tokens::Seen;
use clause_form::Clause;
use cube_forms::{Lemma, Tuple};
use derivations::Fact;
use obligation_tree::{Cause, Obligation};
use step_rules::{LiftPart, OpenPart, RaisePart, StallPart, Step};

/// The number that the next entry gets.
pub(crate) fn next_number(parts: &Parts) -> u64
    ensures { result ≡ length parts.now.journal + 1 }
{
    u64::from(parts.journal.count()) + 1
}

/// The obligation that an Open asks.
fn asked(parts: &Parts, step: &OpenPart) -> Result<Obligation, Memory>
    requires { CanTake parts.now (OpenStep step.now) }
    ensures { IfOk result (λ o. (parent : PlainObligation) (atom : PlainAtom) → parent_of (state_of parts.now) (open_of step.now) ≡ Some parent
        → atom_of parts.now.system (open_of step.now) ≡ Some atom → fresh_of o ≡ child_of (open_of step.now) parent atom) }
{
    let level = parts.tree.obligation(step.parent).level - 1;
    let clause = parts.system.get().clause(step.seen.clause() as usize);
    let atom = &clause.atoms.as_slice()[step.atom as usize];
    let point = Tuple::at(parts.alloc, step.seen.point(), atom.args.as_slice())?;
    Ok(Obligation {
        pred: Some(atom.pred),
        level,
        cube: step.cube.copy(parts.alloc)?,
        point,
        parent: step.parent,
        clause: step.seen.clause(),
        atom: step.atom,
    })
}

/// Open: one more obligation.
fn opened(parts: &Parts, step: &OpenPart) -> Result<Made, Memory>
    requires { CanTake parts.now (OpenStep step.now) }
    ensures { IfOk result (λ m. IsMadeBy parts.now (OpenStep step.now) m) }
{
    let obligation = asked(parts, step)?;
    let mut tree = parts.tree.share()?;
    tree.add(obligation)?;
    Ok(Made {
        level: parts.level,
        spent: parts.spent + 1,
        frames: None,
        facts: None,
        tree,
    })
}

/// Lemma and Strengthen: the lemma is added, and closes what it excludes.
fn learnt(parts: &Parts, pred: u32, lemma: &Lemma, level: u32) -> Result<Made, Memory>
    requires { CanLearn parts.now pred }
    ensures { IfOk result (λ m. IsMadeInto parts.now (written 1 (learnt (state_of parts.now) (record { pred = pred; cube = lemma.now }) level)) m) }
{
    let mut frames = parts.frames.share()?;
    frames.add(pred, lemma.copy(parts.alloc)?, level)?;
    let mut tree = parts.tree.share()?;
    let cause = Cause::Lemma { pred, level, lemma };
    tree.close_by(cause, next_number(parts))?;
    Ok(Made {
        level: parts.level,
        spent: parts.spent + 1,
        frames: Some(frames),
        facts: None,
        tree,
    })
}

/// The head's predicate, none for false, and its tuple, empty then.
fn concluded(parts: &Parts, seen: &Seen, clause: &Clause) -> Result<(Option<u32>, Tuple), Memory>
    ensures head { IfOk result (λ c. ground_conclusion c.0 c.1 ≡ head_at (seen_point seen.now) clause.now) }
    ensures bare { IfOk result (λ c. c.0 ≡ None → c.1 ≡ []) }
{
    match &clause.head {
        Some(atom) => {
            let tuple = Tuple::at(parts.alloc, seen.point(), atom.args.as_slice())?;
            Ok((Some(atom.pred), tuple))
        }
        None => Ok((None, Tuple::from_slice(parts.alloc, &[])?)),
    }
}

/// Fact and Derive: the conclusion is recorded, and closes what holds it.
fn recorded(parts: &Parts, seen: &Seen, premises: &Items<u32>) -> Result<Made, Memory>
    requires { CanRecord parts.now (seen_of seen.now) premises.now }
    ensures { IfOk result (λ m. IsMadeInto parts.now (written 1 (recorded parts.now.system (state_of parts.now) (seen_of seen.now) premises.now)) m) }
{
    let clause = parts.system.get().clause(seen.clause() as usize);
    let (pred, tuple) = concluded(parts, seen, clause)?;
    let mut tree = parts.tree.share()?;
    let cause = Cause::Fact {
        pred,
        tuple: tuple.as_slice(),
    };
    tree.close_by(cause, next_number(parts))?;
    let mut facts = parts.facts.share()?;
    facts.add(Fact {
        clause: seen.clause(),
        point: Items::from_slice(parts.alloc, seen.point())?,
        premises: premises.copy(parts.alloc)?,
        pred,
        tuple,
    })?;
    Ok(Made {
        level: parts.level,
        spent: parts.spent + 1,
        frames: None,
        facts: Some(facts),
        tree,
    })
}

/// Lift: the lemma is one level higher, and closes as a lemma of that level does.
fn lifted(parts: &Parts, step: &LiftPart) -> Result<Made, Memory>
    requires { CanTake parts.now (LiftStep step.now) }
    ensures { IfOk result (λ m. IsMadeBy parts.now (LiftStep step.now) m) }
{
    let mut frames = parts.frames.share()?;
    frames.lift(step.lemma)?;
    let mut tree = parts.tree.share()?;
    let cause = Cause::Lemma {
        pred: parts.frames.pred_of(step.lemma),
        level: step.from + 1,
        lemma: parts.frames.lemma(step.lemma),
    };
    tree.close_by(cause, next_number(parts))?;
    Ok(Made {
        level: parts.level,
        spent: parts.spent + 1,
        frames: Some(frames),
        facts: None,
        tree,
    })
}

/// Raise: the level is one higher, the root is one above it, and all other obligations are closed.
fn raised(parts: &Parts, step: &RaisePart) -> Result<Made, Memory>
    requires { CanTake parts.now (RaiseStep step.now) }
    ensures { IfOk result (λ m. IsMadeBy parts.now (RaiseStep step.now) m) }
{
    let _step = step;
    let mut tree = parts.tree.share()?;
    let level = parts.level + 1;
    tree.close_by(Cause::Raise { level: level + 1 }, next_number(parts))?;
    Ok(Made {
        level,
        spent: parts.spent + 1,
        frames: None,
        facts: None,
        tree,
    })
}

/// Stall: the target is marked.
fn stalled(parts: &Parts, step: &StallPart) -> Result<Made, Memory>
    requires { CanTake parts.now (StallStep step.now) }
    ensures { IfOk result (λ m. IsMadeBy parts.now (StallStep step.now) m) }
{
    let mut tree = parts.tree.share()?;
    tree.stall(step.target)?;
    Ok(Made {
        level: parts.level,
        spent: parts.spent,
        frames: None,
        facts: None,
        tree,
    })
}

/// What a legal step makes of the book.
pub(crate) fn made_of(parts: &Parts, step: &Step) -> Result<Made, Memory>
    requires { CanTake parts.now step.now }
    ensures { IfOk result (λ m. IsMadeBy parts.now step.now m) }
{
    match step {
        Step::OpenStep(step) => opened(parts, step),
        Step::LemmaStep(step) => learnt(parts, step.pred, &step.lemma, step.level),
        Step::FactStep(step) => recorded(parts, &step.seen, &step.premises),
        Step::LiftStep(step) => lifted(parts, step),
        Step::RaiseStep(step) => raised(parts, step),
        Step::StallStep(step) => stalled(parts, step),
        Step::DeriveStep(step) => recorded(parts, &step.seen, &step.premises),
        Step::StrengthenStep(step) => learnt(parts, step.pred, &step.lemma, step.level),
    }
}
