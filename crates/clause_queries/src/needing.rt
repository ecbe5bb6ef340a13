//! Uses of lemmas of which none is needless: one that another one implies is left out.

ghost use Rattle.std.specs.Prelude.{◌≡◌, [], ◌∷◌, ◌++◌, OnOk, true};
ghost use Rattle.std.specs.List.{list_all, list_any};
ghost use Rattle.book_rules.specs.Areas.{is_among};
ghost use Rattle.clause_queries.specs.machinery.Needs.{AreEnough, is_stronger};

use base::Memory;
use chc_tokens::Used;
use cube_forms::Cube;
use cube_rules::is_among;
use lin_atoms::{Lin, Lit};
use std::alloc::Global;

/// Uses, each with the mask of its lemma's cube. Where a mask isn't there, it is made when it is wanted.
#[derive(Drop)]
pub(crate) struct Needed {
    pub(crate) used: Vec<Used>,
    masks: Vec<u64>,
}

/// Mixes a number into a sum.
fn mixed(sum: u64, number: u64) -> u64 {
    (sum ^ number).wrapping_mul(0x9e37_79b9_7f4a_7c15)
}

/// The bits of a coefficient; its sign counts, too.
fn bits_of(number: i64) -> u64 {
    let size = number.unsigned_abs();
    if number < 0 { !size } else { size }
}

/// A sum over a form; equal forms have the same.
fn sum_of(kind: u64, lin: &Lin) -> u64 {
    let mut sum = mixed(kind, lin.constant().unsigned_abs() as u64);
    for (variable, by) in lin.terms() {
        sum = mixed(mixed(sum, u64::from(*variable)), bits_of(*by));
    }
    sum
}

/// One of 64 bits for a literal; equal ones have the same.
fn bit_of(lit: &Lit) -> u64 {
    let sum = match lit {
        Lit::Le(lin) => sum_of(1, lin),
        Lit::Eq(lin) => sum_of(2, lin),
        Lit::Div(_, lin) => sum_of(3, lin),
        Lit::NDiv(_, lin) => sum_of(4, lin),
    };
    1 << (sum >> 58)
}

/// The bits of a cube's literals: where each literal of a cube is one of another one's, so is each bit.
fn mask_of(cube: &Cube) -> u64 {
    let mut mask: u64 = 0;
    for lit in cube.lits() {
        mask |= bit_of(lit);
    }
    mask
}

/// Whether each literal of a part is one of the whole.
fn are_among(part: &[Lit], whole: &[Lit]) -> bool
    ensures { result ≡ list_all (is_among whole.now) part.now }
{
    for lit in part {
        if !is_among(whole, lit) {
            return false;
        }
    }
    true
}

/// Whether the first use is on the same atom, and each literal of its lemma's cube one of the other's.
fn is_stronger(one: &Used, other: &Used) -> bool
    ensures { result ≡ is_stronger one.now other.now }
{
    one.atom == other.atom && are_among(one.lemma.cube().lits(), other.lemma.cube().lits())
}

/// Whether the use of that place is stronger than the other one.
fn is_stronger_at(used: &[Used], at: usize, other: &Used) -> bool
    ensures { result ≡ true → list_any (λ u. is_stronger u other.now) used.now ≡ true }
{
    match used.get(at) {
        Some(one) => is_stronger(one, other),
        None => false,
    }
}

/// The last mask, or, where none is left, that of the use.
fn mask_for(masks: &mut Vec<u64>, one: &Used) -> u64 {
    match masks.pop() {
        Some(mask) => mask,
        None => mask_of(one.lemma.cube()),
    }
}

impl Needed {
    /// None so far.
    pub(crate) fn new(alloc: Global) -> Needed
        ensures { result.used.items ≡ [] }
    {
        Needed {
            used: Vec::new(alloc),
            masks: Vec::new(alloc),
        }
    }

    /// What is needed so far is the given uses, in order.
    pub(crate) fn of(alloc: Global, used: Vec<Used>) -> Needed
        ensures { result.used.items ≡ used.items }
    {
        Needed {
            used,
            masks: Vec::new(alloc),
        }
    }

    /// Whether one of them, from a place on, is stronger than a use with this mask.
    fn implies(&self, from: usize, other: &Used, mask: u64) -> bool
        ensures { result ≡ true → list_any (λ u. is_stronger u other.now) self.now.used.items ≡ true }
    {
        for (at, own) in self.masks.iter().enumerate() {
            if at >= from && *own & !mask == 0 && is_stronger_at(self.used.as_slice(), at, other) {
                return true;
            }
        }
        false
    }

    /// Adds a use, unless one from a place on is stronger.
    fn take(&mut self, one: Used, mask: u64, from: usize) -> Result<(), Memory>
        ensures { OnOk result (AreEnough (self.old.used.items ++ one ∷ []) self.new.used.items) }
    {
        if self.implies(from, &one, mask) {
            return Ok(());
        }
        self.masks.push(mask)?;
        self.used.push(one)?;
        Ok(())
    }

    /// Adds each use so, the last first.
    pub(crate) fn take_all(&mut self, uses: Needed, from: usize) -> Result<(), Memory>
        ensures { OnOk result (AreEnough (self.old.used.items ++ uses.used.items) self.new.used.items) }
    {
        let Needed {
            used: mut left,
            mut masks,
        } = uses;
        'next: while let Some(one) = left.pop() {
            let mask = mask_for(&mut masks, &one);
            self.take(one, mask, from)?;
        }
        Ok(())
    }
}
