//! Which literals of its cube the proofs of a lemma use.

use base::{Copied, Memory};
use chc_tokens::Shown;
use lin_atoms::Lit;
use refutation_trees::Refutation;
use std::alloc::Global;
use step_rules::{LemmaPart, Lent};

/// How deep a proof is looked at.
const MOST_DEEP: u32 = 400;

/// Which literals of a cube are used. In a proof they are numbered behind those of the clause's guard.
#[derive(Drop)]
struct Core {
    guard: u32,
    used: Vec<bool>,
}

/// The literal of that number is used.
fn mark(core: &mut Core, number: u32) {
    if let Some(at) = number.checked_sub(core.guard) {
        if let Some(used) = core.used.get_mut(at as usize) {
            *used = true;
        }
    }
}

/// So are those of a combination.
fn mark_all(core: &mut Core, multipliers: &[(u32, i64)]) {
    for (number, _) in multipliers {
        mark(core, *number);
    }
}

#[cycle(marked)]
fn mark_each(core: &mut Core, subs: &[Refutation], deep: u32) {
    for sub in subs {
        mark_tree(core, sub, deep);
    }
}

/// So are those of a proof, as far as it isn't too deep.
#[cycle(marked)]
fn mark_tree(core: &mut Core, tree: &Refutation, deep: u32) {
    let deep = match deep.checked_sub(1) {
        Some(deep) => deep,
        None => return,
    };
    match tree {
        Refutation::Leaf { multipliers } => mark_all(core, multipliers.as_slice()),
        Refutation::Round {
            multipliers,
            divisor: _,
            sub,
        } => {
            mark_all(core, multipliers.as_slice());
            mark_tree(core, sub.get(), deep);
        }
        Refutation::Split {
            lin: _,
            below,
            above,
        } => {
            mark_tree(core, below.get(), deep);
            mark_tree(core, above.get(), deep);
        }
        Refutation::Cases { which: _, subs } => mark_each(core, subs.as_slice(), deep),
        Refutation::Quotient { lit, sub } => {
            mark(core, *lit);
            mark_tree(core, sub.get(), deep);
        }
    }
}

/// So are those of the proof through a clause.
fn mark_shown(lent: &Lent, core: &mut Core, shown: &Shown) {
    let number = shown.clause() as usize;
    if number < lent.system.clauses().len() {
        let guard = lent.system.guard(number);
        core.guard = u32::try_from(guard.lits_len()).unwrap_or(u32::MAX);
        mark_tree(core, shown.proof().proof(), MOST_DEEP);
    }
}

/// The literals that are used.
fn used_of(alloc: Global, lits: &[Lit], used: &[bool]) -> Result<Vec<Lit>, Memory> {
    let mut made = Vec::new(alloc);
    for (lit, is_used) in lits.iter().zip(used.iter()) {
        if *is_used {
            made.push(lit.copy(alloc)?)?;
        }
    }
    Ok(made)
}

/// The literals of the lemma's cube that its proofs use, as far as these aren't too deep, in their order.
pub(crate) fn core_of(lent: &Lent, part: &LemmaPart) -> Result<Vec<Lit>, Memory> {
    let lits = part.lemma.cube().lits();
    let mut core = Core {
        guard: 0,
        used: vec![in lent.alloc; false; lits.len()]?,
    };
    for shown in part.proofs.as_slice() {
        mark_shown(lent, &mut core, shown);
    }
    used_of(lent.alloc, lits, core.used.as_slice())
}
