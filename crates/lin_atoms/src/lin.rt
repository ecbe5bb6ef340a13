ghost use Rattle.std.specs.Prelude.{◌≡◌, ◌<◌, IsTrue, IfOk, OnOk, IsErrOf, IfSome, IsNone, ◌↔◌, nat_abs, true, false};
ghost use Rattle.base.specs.Widths.{long_limit};
ghost use Rattle.lin_atoms.specs.Linear.{Linear, are_ordered, fits, is_linear, lin_is_below, of_constant};
ghost use Rattle.lin_atoms.specs.Algebra.{negated, plus};

use crate::stop::WideStop;
use crate::{terms, wide_terms};
use base::{Copied, Items, Memory, Same};
use std::alloc::Global;
use std::marker::Model;
use thiserror::Error;

/// A linear form: coefficients times variables, added up, and a constant. Variables are numbers
/// and rise; no coefficient is 0; coefficients are below 2^63 and the constant is below 2^64 in
/// magnitude.
pub struct Lin {
    terms: Items<(u32, i64)>,
    constant: i128,
}

impl Drop for Lin {
    fn drop(self) {
        let Lin {
            terms: _,
            constant: _,
        } = self;
    }
}

impl Model for Lin {
    ghost use Rattle.std.specs.Prelude.{IsTrue};
    ghost use Rattle.lin_atoms.specs.Linear.{Linear, are_ordered, are_short, is_long};

    ghost Value = { Linear };

    ghost view = { λ l. record { terms = l.terms; constant = l.constant } };

    ghost invariant = { λ l. IsTrue (are_ordered 0 l.terms) × IsTrue (are_short l.terms) × IsTrue (is_long l.constant) };
}

/// Why terms and a constant are no linear form.
#[derive(Clone, Copy, Debug, PartialEq, Eq, Error)]
pub enum LinStop {
    #[error("variables that don't rise, or a coefficient that is 0")]
    Order,
    #[error("a coefficient of 2^63 or a constant of 2^64 or more in magnitude")]
    Wide,
}

impl Same for Lin {
    fn equals(&self, other: &Lin) -> bool {
        self.constant.equals(&other.constant) && self.terms.equals(&other.terms)
    }
}

impl Copied for Lin {
    fn copy(&self, alloc: Global) -> Result<Lin, Memory> {
        Ok(Lin {
            terms: self.terms.copy(alloc)?,
            constant: self.constant,
        })
    }
}

impl Lin {
    /// The form of these terms, each a variable with its coefficient, and this constant.
    pub fn new(terms: Vec<(u32, i64)>, constant: i128) -> Result<Lin, LinStop>
        ensures made { IfOk result (λ lin. lin ≡ record { terms = terms.items; constant = constant }) }
        ensures legal { OnOk result (is_linear (record { terms = terms.items; constant = constant }) ≡ true) }
        ensures order { IsErrOf result LinStop.Order → are_ordered 0 terms.items ≡ false }
        ensures wide { IsErrOf result LinStop.Wide → (are_ordered 0 terms.items ≡ true) × (fits (record { terms = terms.items; constant = constant }) ≡ false) }
    {
        if !terms::are_ordered(terms.as_slice()) {
            return Err(LinStop::Order);
        }
        if !terms::are_short(terms.as_slice()) || !terms::is_long(constant) {
            return Err(LinStop::Wide);
        }
        Ok(Lin {
            terms: Items::from_vec(terms),
            constant,
        })
    }

    /// The form without a variable.
    pub fn of_constant(alloc: Global, constant: i128) -> Lin
        requires { nat_abs constant < long_limit }
        ensures { result ≡ of_constant constant }
    {
        Lin {
            terms: Items::new(alloc),
            constant,
        }
    }

    /// The variables with their coefficients. The variables rise.
    pub fn terms(&self) -> &[(u32, i64)]
        ensures is { result.now ≡ self.now.terms }
        ensures legal { is_linear self.now ≡ true }
    {
        self.terms.as_slice()
    }

    pub fn constant(&self) -> i128
        ensures is { result ≡ self.now.constant }
        ensures long { nat_abs self.now.constant < long_limit }
        ensures legal { is_linear self.now ≡ true }
    {
        self.constant
    }

    /// Whether each variable that occurs is below `n`, so that a point of that length has them all.
    pub fn is_below(&self, n: usize) -> bool
        ensures { result ≡ lin_is_below n self.now }
    {
        self.terms().iter().all(|term| (term.0 as usize) < n)
    }

    /// The form of terms that are in order, unless a number has no room.
    pub(crate) fn of_wide(
        alloc: Global,
        terms: Vec<(u32, i128)>,
        constant: i128,
    ) -> Result<Lin, WideStop>
        requires { IsTrue (are_ordered 0 terms.items) }
        ensures made { IfOk result (λ made. made ≡ record { terms = terms.items; constant = constant }) }
        ensures within { OnOk result (fits (record { terms = terms.items; constant = constant }) ≡ true) }
        ensures wide { IsErrOf result WideStop.Wide → fits (record { terms = terms.items; constant = constant }) ≡ false }
    {
        if !terms::is_long(constant) {
            return Err(WideStop::Wide);
        }
        let terms = wide_terms::narrowed(alloc, terms.as_slice())?;
        Ok(Lin {
            terms: Items::from_vec(terms),
            constant,
        })
    }

    /// The form of which each value is this form's with the other sign. It always has room.
    pub fn negated(&self, alloc: Global) -> Result<Lin, Memory>
        ensures made { IfOk result (λ made. made ≡ negated self.now) }
    {
        Ok(Lin {
            terms: terms::negated(alloc, self.terms.as_slice())?,
            constant: -self.constant,
        })
    }

    /// The form and a number, unless the constant then has no room.
    pub fn plus(self, k: i64) -> Option<Lin>
        ensures made { IfSome result (λ made. made ≡ plus self k) }
        ensures wide { IsNone result ↔ (fits (plus self k) ≡ false) }
    {
        let constant = self.constant + i128::from(k);
        if !terms::is_long(constant) {
            return None;
        }
        let Lin { terms, constant: _ } = self;
        Some(Lin { terms, constant })
    }
}
