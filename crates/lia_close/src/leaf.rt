//! A leaf in the making, with the roundings above it.

ghost use Rattle.std.specs.Prelude.{◌≡◌, ◌<◌, pos, IfOk, OnOk, true, false};
ghost use Rattle.lin_atoms.specs.Linear.{is_short};
ghost use Rattle.int_rows.specs.Ready.{has_no_variable};
ghost use Rattle.refutation_trees.specs.declared.tree.Refutation.TheVariants.{Leaf as IsLeaf};
ghost use Rattle.lia_close.specs.machinery.Closing.{divisor_of, multiplier_of, under, with_taken};

use crate::content::content;
use crate::numbers::{numbered, numbered_sum};
use crate::side::Side;
use base::{Boxed, Items, Memory};
use lin_atoms::Lit;
use refutation_trees::Refutation;
use std::alloc::Global;

/// One literal, with a sign, is divided and rounded.
#[derive(Clone, Copy)]
pub(crate) struct Rounding {
    pub(crate) number: u32,
    pub(crate) sign: i64,
    pub(crate) divisor: i64,
}

/// The roundings, and the multipliers of the leaf below them.
#[derive(Drop)]
pub(crate) struct Leaf {
    pub(crate) roundings: Vec<Rounding>,
    pub(crate) multipliers: Vec<(u32, i64)>,
}

/// By which of the literals that give a literal's bounds, and with which sign, a bound is given. A
/// literal `<=` has no lower bound.
fn by_which(lit: &Lit, side: Side) -> (usize, i64)
    ensures { result ≡ multiplier_of lit.now side }
{
    match (lit, side) {
        (Lit::Le(_), _) => (0, 1),
        (Lit::Eq(_), Side::Upper) => (0, 1),
        (Lit::Eq(_), Side::Lower) => (0, -1),
        (Lit::Div(_, _), Side::Upper) => (0, 1),
        (Lit::Div(_, _), Side::Lower) => (0, -1),
        (Lit::NDiv(_, _), Side::Lower) => (0, 1),
        (Lit::NDiv(_, _), Side::Upper) => (1, 1),
    }
}

/// What the literal is divided by before its bounds are integers.
fn divisor(lit: &Lit) -> i64
    requires { has_no_variable lit.now ≡ false }
    ensures is { result ≡ pos (divisor_of lit.now) }
    ensures positive { 0 < divisor_of lit.now }
{
    match lit {
        Lit::Le(lin) => content(lin),
        Lit::Eq(lin) => content(lin),
        Lit::Div(_, _) => 1,
        Lit::NDiv(_, _) => 1,
    }
}

impl Leaf {
    /// Takes a bound of a literal `times` times. What gives the literal's bounds stands from `reason`
    /// on; `known` literals are known above the roundings.
    pub(crate) fn take(
        &mut self,
        lit: &Lit,
        side: Side,
        reason: u32,
        known: usize,
        times: i64,
    ) -> Result<(), Memory>
        requires variable { has_no_variable lit.now ≡ false }
        requires short { is_short times ≡ true }
        ensures { OnOk result ((self.new.roundings.items, self.new.multipliers.items) ≡ with_taken lit.now side reason known times (self.old.roundings.items, self.old.multipliers.items)) }
    {
        let (offset, sign) = by_which(lit, side);
        let number = numbered(reason as usize + offset)?;
        let divisor = divisor(lit);
        if divisor == 1 {
            self.multipliers.push((number, sign * times))?;
        } else {
            let derived = numbered_sum(known, self.roundings.len())?;
            self.roundings.push(Rounding {
                number,
                sign,
                divisor,
            })?;
            self.multipliers.push((derived, times))?;
        }
        Ok(())
    }

    /// The leaf below the roundings.
    pub(crate) fn tree(self, alloc: Global) -> Result<Refutation, Memory>
        ensures { IfOk result (λ tree. tree ≡ under self.roundings.items (IsLeaf self.multipliers.items)) }
    {
        let Leaf {
            mut roundings,
            multipliers,
        } = self;
        let mut tree = Refutation::Leaf {
            multipliers: Items::from_vec(multipliers),
        };
        'under: while let Some(rounding) = roundings.pop() {
            tree = Refutation::Round {
                multipliers: Items::from_slice(alloc, &[(rounding.number, rounding.sign)])?,
                divisor: rounding.divisor,
                sub: Boxed::new(alloc, tree)?,
            };
        }
        Ok(tree)
    }
}
