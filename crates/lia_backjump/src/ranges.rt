//! What variables can be where literals are true, by intervals: a guess of which parts of a disjunction are left.

use crate::nogoods::Seen;
use crate::numbering::{Case, size};
use base::Memory;
use lin_atoms::{Divisor, Form, Lin, Lit};
use std::alloc::Global;

/// So often all literals are gone through.
const ROUNDS: u32 = 3;

/// What a variable is at least and at most.
#[derive(Clone, Copy)]
pub struct Range {
    pub least: Option<i128>,
    pub most: Option<i128>,
}

/// For each variable its range. Those from the end of the list on may be anything.
#[derive(Drop)]
pub struct Ranges {
    pub each: Vec<Range>,
}

/// The lesser one of two upper bounds.
fn lesser(known: Option<i128>, found: i128) -> Option<i128> {
    match known {
        Some(known) => Some(known.min(found)),
        None => Some(found),
    }
}

/// The greater one of two lower bounds.
fn greater(known: Option<i128>, found: i128) -> Option<i128> {
    match known {
        Some(known) => Some(known.max(found)),
        None => Some(found),
    }
}

impl Ranges {
    fn of(&self, variable: u32) -> Range {
        match self.each.get(variable as usize) {
            Some(range) => *range,
            None => Range {
                least: None,
                most: None,
            },
        }
    }

    /// What the term, with the sign, is at least.
    fn least_of(&self, variable: u32, coefficient: i128) -> Option<i128> {
        let Range { least, most } = self.of(variable);
        let bound = if coefficient > 0 { least? } else { most? };
        coefficient.checked_mul(bound)
    }

    /// What the form with the sign is at least, without the term at `skipped`.
    fn least(&self, lin: &Lin, sign: i128, skipped: usize) -> Option<i128> {
        let mut sum = lin.constant().checked_mul(sign)?;
        for (at, (variable, coefficient)) in lin.terms().iter().enumerate() {
            if at != skipped {
                let term = i128::from(*coefficient).checked_mul(sign)?;
                sum = sum.checked_add(self.least_of(*variable, term)?)?;
            }
        }
        Some(sum)
    }

    /// `coefficient` times the variable is at most the number.
    fn meet(&mut self, variable: u32, coefficient: i128, most: i128) {
        let Some(size) = coefficient.checked_abs() else {
            return;
        };
        let Some(bound) = most.checked_div_euclid(size) else {
            return;
        };
        if let Some(range) = self.each.get_mut(variable as usize) {
            if coefficient > 0 {
                range.most = lesser(range.most, bound);
            } else if let Some(bound) = bound.checked_neg() {
                range.least = greater(range.least, bound);
            }
        }
    }

    /// The form with the sign is at most 0.
    fn meet_lin(&mut self, lin: &Lin, sign: i128) {
        for (at, (variable, coefficient)) in lin.terms().iter().enumerate() {
            if let Some(most) = self.least(lin, sign, at).and_then(i128::checked_neg) {
                if let Some(term) = i128::from(*coefficient).checked_mul(sign) {
                    self.meet(*variable, term, most);
                }
            }
        }
    }

    fn meet_lit(&mut self, lit: &Lit) {
        match lit {
            Lit::Le(lin) => self.meet_lin(lin, 1),
            Lit::Eq(lin) => {
                self.meet_lin(lin, 1);
                self.meet_lin(lin, -1);
            }
            Lit::Div(_, _) => {}
            Lit::NDiv(_, _) => {}
        }
    }

    /// The ranges of the variables below `end` where the literals are true.
    pub fn new(alloc: Global, lits: &[Lit], end: u32) -> Result<Ranges, Memory> {
        let mut each = Vec::with_capacity(alloc, end as usize)?;
        'each: for _ in 0..end {
            each.push(Range {
                least: None,
                most: None,
            })?;
        }
        let mut ranges = Ranges { each };
        'rounds: for _ in 0..ROUNDS {
            for lit in lits {
                ranges.meet_lit(lit);
            }
        }
        Ok(ranges)
    }

    /// What the form is at least and at most, where both are known.
    fn both(&self, lin: &Lin) -> Option<(i128, i128)> {
        let least = self.least(lin, 1, usize::MAX)?;
        let most = self.least(lin, -1, usize::MAX)?.checked_neg()?;
        Some((least, most))
    }

    fn is_above(&self, lin: &Lin, sign: i128) -> bool {
        match self.least(lin, sign, usize::MAX) {
            Some(least) => least > 0,
            None => false,
        }
    }

    /// Whether no multiple of the divisor is among what the form can be.
    fn has_no_multiple(&self, n: Divisor, lin: &Lin) -> bool {
        let Some((least, most)) = self.both(lin) else {
            return false;
        };
        let n = i128::from(n.get());
        match most.checked_rem_euclid(n) {
            Some(rest) => most.saturating_sub(rest) < least,
            None => false,
        }
    }

    /// Whether the form can only be a multiple of the divisor.
    fn is_multiple(&self, n: Divisor, lin: &Lin) -> bool {
        match self.both(lin) {
            Some((least, most)) => {
                least == most && least.checked_rem_euclid(i128::from(n.get())) == Some(0)
            }
            None => false,
        }
    }

    /// Whether the literal is false wherever variables are in their ranges.
    fn is_false(&self, lit: &Lit) -> bool {
        match lit {
            Lit::Le(lin) => self.is_above(lin, 1),
            Lit::Eq(lin) => self.is_above(lin, 1) || self.is_above(lin, -1),
            Lit::Div(n, lin) => self.has_no_multiple(*n, lin),
            Lit::NDiv(n, lin) => self.is_multiple(*n, lin),
        }
    }

    /// Whether a literal that must be true where the form is true is false.
    #[cycle(shut)]
    fn shuts(&self, form: &Form) -> bool {
        match form {
            Form::True => false,
            Form::False => true,
            Form::Lit(lit) => self.is_false(lit),
            Form::And(parts) => self.shuts_one(parts.as_slice()),
            Form::Or(_) => false,
        }
    }

    #[cycle(shut)]
    fn shuts_one(&self, parts: &[Form]) -> bool {
        for part in parts {
            if self.shuts(part) {
                return true;
            }
        }
        false
    }

    /// How many parts of the disjunction are left.
    pub fn left(&self, case: &Case, seen: &Seen) -> usize {
        let (parts, number) = case;
        let mut first = number.saturating_add(1);
        let mut count: usize = 0;
        for part in parts.as_slice() {
            if !seen.is_shut(first) && !self.shuts(part) {
                count = count.saturating_add(1);
            }
            first = first.saturating_add(size(part));
        }
        count
    }
}
