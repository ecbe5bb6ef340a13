//! Which lemmas a refutation uses.

use base::{Items, Memory};
use lin_atoms::Form;
use refutation_trees::Refutation;
use std::alloc::Global;

/// How deep a tree is looked at.
const MOST_DEEP: u32 = 400;

/// A disjunction that is open, with the number of the one that it is, or that it was in, before any was split.
type Open<'a> = (&'a Items<Form>, usize);

/// What a tree uses. Owners are numbered: 0 is the formula, and i + 1 is lemma i.
#[derive(Drop)]
pub(crate) struct Uses {
    /// The owner of each literal of the flattened formula.
    pub(crate) lits: Vec<usize>,
    /// The owner of each of its disjunctions.
    pub(crate) cases: Vec<usize>,
    /// Whether something of an owner is used.
    pub(crate) owners: Vec<bool>,
    /// For each node with cases, in preorder, the number that its disjunction had, or that had the one that it
    /// was in, before any was split.
    pub(crate) splits: Vec<usize>,
    /// Whether all of the tree was looked at.
    pub(crate) is_whole: bool,
}

/// Puts the owner behind the others, once for each literal of the flattened form.
#[cycle(literals)]
fn push_literals(form: &Form, owner: usize, lits: &mut Vec<usize>) -> Result<(), Memory> {
    match form {
        Form::True => Ok(()),
        Form::False => {
            lits.push(owner)?;
            Ok(())
        }
        Form::Lit(_) => {
            lits.push(owner)?;
            Ok(())
        }
        Form::And(parts) => push_all_literals(parts.as_slice(), owner, lits),
        Form::Or(_) => Ok(()),
    }
}

#[cycle(literals)]
fn push_all_literals(parts: &[Form], owner: usize, lits: &mut Vec<usize>) -> Result<(), Memory> {
    for part in parts {
        push_literals(part, owner, lits)?;
    }
    Ok(())
}

/// Puts the disjunctions of the flattened form behind the others, each with the number.
#[cycle(disjunctions)]
fn push_disjunctions<'a>(
    form: &'a Form,
    number: usize,
    open: &mut Vec<Open<'a>>,
) -> Result<(), Memory> {
    match form {
        Form::And(parts) => push_all_disjunctions(parts.as_slice(), number, open),
        Form::Or(parts) => {
            open.push((parts, number))?;
            Ok(())
        }
        _ => Ok(()),
    }
}

#[cycle(disjunctions)]
fn push_all_disjunctions<'a>(
    parts: &'a [Form],
    number: usize,
    open: &mut Vec<Open<'a>>,
) -> Result<(), Memory> {
    for part in parts {
        push_disjunctions(part, number, open)?;
    }
    Ok(())
}

/// The open disjunctions with those of a part in place of the one that was split.
fn replaced<'a>(
    alloc: Global,
    open: &[Open<'a>],
    which: u32,
    number: usize,
    part: &'a Form,
) -> Result<Vec<Open<'a>>, Memory> {
    let before = (which as usize).min(open.len());
    let behind = (which as usize + 1).min(open.len());
    let mut made = Vec::new(alloc);
    made.extend_from_slice(&open[..before])?;
    push_disjunctions(part, number, &mut made)?;
    made.extend_from_slice(&open[behind..])?;
    Ok(made)
}

impl Uses {
    fn mark(&mut self, owner: usize) {
        if let Some(used) = self.owners.get_mut(owner) {
            *used = true;
        }
    }

    /// The literal of that number is used, unless the tree derives it.
    fn mark_literal(&mut self, number: u32) {
        if let Some(owner) = self.lits.get(number as usize) {
            let owner = *owner;
            self.mark(owner);
        }
    }

    /// So are those of a combination.
    fn mark_literals(&mut self, multipliers: &[(u32, i64)]) {
        for (number, _) in multipliers {
            self.mark_literal(*number);
        }
    }

    /// A disjunction is split that had the number, or was in the one that had it.
    fn split(&mut self, number: usize) -> Result<(), Memory> {
        if let Some(owner) = self.cases.get(number) {
            let owner = *owner;
            self.mark(owner);
        }
        self.splits.push(number)?;
        Ok(())
    }

    /// Whether something of that lemma is used.
    pub(crate) fn has_lemma(&self, lemma: usize) -> bool {
        match self.owners.get(lemma.saturating_add(1)) {
            Some(used) => *used,
            None => true,
        }
    }

    /// Whether all of the tree was looked at, and some lemma isn't used.
    pub(crate) fn leaves_out(&self) -> bool {
        self.is_whole && self.owners.contains(&false)
    }
}

/// What a tree uses where the disjunctions are open, as far as it isn't too deep.
#[cycle(looked)]
fn look_at<'a>(
    alloc: Global,
    uses: &mut Uses,
    tree: &Refutation,
    open: &[Open<'a>],
    deep: u32,
) -> Result<(), Memory> {
    let deep = match deep.checked_sub(1) {
        Some(deep) => deep,
        None => {
            uses.is_whole = false;
            return Ok(());
        }
    };
    match tree {
        Refutation::Leaf { multipliers } => {
            uses.mark_literals(multipliers.as_slice());
            Ok(())
        }
        Refutation::Round {
            multipliers,
            divisor: _,
            sub,
        } => {
            uses.mark_literals(multipliers.as_slice());
            look_at(alloc, uses, sub.get(), open, deep)
        }
        Refutation::Split {
            lin: _,
            below,
            above,
        } => {
            look_at(alloc, uses, below.get(), open, deep)?;
            look_at(alloc, uses, above.get(), open, deep)
        }
        Refutation::Cases { which, subs } => {
            look_at_cases(alloc, uses, *which, subs.as_slice(), open, deep)
        }
        Refutation::Quotient { lit, sub } => {
            uses.mark_literal(*lit);
            look_at(alloc, uses, sub.get(), open, deep)
        }
    }
}

#[cycle(looked)]
fn look_at_cases<'a>(
    alloc: Global,
    uses: &mut Uses,
    which: u32,
    subs: &[Refutation],
    open: &[Open<'a>],
    deep: u32,
) -> Result<(), Memory> {
    let (parts, number) = match open.get(which as usize) {
        Some(found) => *found,
        None => {
            uses.is_whole = false;
            return Ok(());
        }
    };
    uses.split(number)?;
    for (sub, part) in subs.iter().zip(parts.as_slice().iter()) {
        let below = replaced(alloc, open, which, number, part)?;
        look_at(alloc, uses, sub, below.as_slice(), deep)?;
    }
    Ok(())
}

/// Each open disjunction of a form gets its owner, and stands with its own number.
fn push_owned<'a>(
    alloc: Global,
    form: &'a Form,
    uses: &mut Uses,
    owner: usize,
    open: &mut Vec<Open<'a>>,
) -> Result<(), Memory> {
    push_literals(form, owner, &mut uses.lits)?;
    let mut own = Vec::new(alloc);
    push_disjunctions(form, 0, &mut own)?;
    for (parts, _) in own.as_slice() {
        open.push((*parts, uses.cases.len()))?;
        uses.cases.push(owner)?;
    }
    uses.owners.push(owner == 0)?;
    Ok(())
}

/// What a refutation of the conjunction of the formula and the lemmas uses.
pub(crate) fn uses_of(
    alloc: Global,
    form: &Form,
    lemmas: &[Form],
    tree: &Refutation,
) -> Result<Uses, Memory> {
    let mut uses = Uses {
        lits: Vec::new(alloc),
        cases: Vec::new(alloc),
        owners: Vec::new(alloc),
        splits: Vec::new(alloc),
        is_whole: true,
    };
    let mut open = Vec::new(alloc);
    push_owned(alloc, form, &mut uses, 0, &mut open)?;
    for (i, lemma) in lemmas.iter().enumerate() {
        push_owned(alloc, lemma, &mut uses, i + 1, &mut open)?;
    }
    look_at(alloc, &mut uses, tree, open.as_slice(), MOST_DEEP)?;
    Ok(uses)
}
