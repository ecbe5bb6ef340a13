ghost use Rattle.std.specs.Prelude.{◌≡◌};
ghost use Rattle.lin_atoms.specs.Denial.{linear_of};
ghost use Rattle.lin_atoms.specs.Truth.{lit_is_below, lit_truth};

use crate::divisor::Divisor;
use crate::lin::Lin;
use base::{Copied, Memory, Same};
use std::alloc::Global;

/// A literal over integer variables.
pub enum Lit {
    /// The form is at most 0.
    Le(Lin),
    /// The form is 0.
    Eq(Lin),
    /// The number divides the form.
    Div(Divisor, Lin),
    /// The number doesn't divide the form.
    NDiv(Divisor, Lin),
}

impl Drop for Lit {
    fn drop(self) {
        match self {
            Lit::Le(_) => {}
            Lit::Eq(_) => {}
            Lit::Div(_, _) => {}
            Lit::NDiv(_, _) => {}
        }
    }
}

impl Same for Lit {
    fn equals(&self, other: &Lit) -> bool {
        match (self, other) {
            (Lit::Le(a), Lit::Le(b)) => a.equals(b),
            (Lit::Eq(a), Lit::Eq(b)) => a.equals(b),
            (Lit::Div(c, a), Lit::Div(d, b)) => c.equals(d) && a.equals(b),
            (Lit::NDiv(c, a), Lit::NDiv(d, b)) => c.equals(d) && a.equals(b),
            _ => false,
        }
    }
}

impl Copied for Lit {
    fn copy(&self, alloc: Global) -> Result<Lit, Memory> {
        let lin = self.linear().copy(alloc)?;
        Ok(match self {
            Lit::Le(_) => Lit::Le(lin),
            Lit::Eq(_) => Lit::Eq(lin),
            Lit::Div(d, _) => Lit::Div(*d, lin),
            Lit::NDiv(d, _) => Lit::NDiv(*d, lin),
        })
    }
}

impl Lit {
    /// Whether the literal is true at the point, exactly. A variable past the point's end stands
    /// for 0.
    pub fn holds(&self, point: &[i64]) -> bool
        ensures { result ≡ lit_truth point.now self.now }
    {
        match self {
            Lit::Le(lin) => lin.sign_at(point) <= 0,
            Lit::Eq(lin) => lin.sign_at(point) == 0,
            Lit::Div(d, lin) => lin.is_multiple_at(*d, point),
            Lit::NDiv(d, lin) => !lin.is_multiple_at(*d, point),
        }
    }

    /// Whether each variable that occurs is below `n`.
    pub fn is_below(&self, n: usize) -> bool
        ensures { result ≡ lit_is_below n self.now }
    {
        match self {
            Lit::Le(lin) => lin.is_below(n),
            Lit::Eq(lin) => lin.is_below(n),
            Lit::Div(_, lin) => lin.is_below(n),
            Lit::NDiv(_, lin) => lin.is_below(n),
        }
    }

    fn linear(&self) -> &Lin
        ensures { result.now ≡ linear_of self.now }
    {
        match self {
            Lit::Le(lin) => lin,
            Lit::Eq(lin) => lin,
            Lit::Div(_, lin) => lin,
            Lit::NDiv(_, lin) => lin,
        }
    }

    /// The form that the literal says something of.
    pub fn into_linear(self) -> Lin
        ensures { result ≡ linear_of self }
    {
        match self {
            Lit::Le(lin) => lin,
            Lit::Eq(lin) => lin,
            Lit::Div(_, lin) => lin,
            Lit::NDiv(_, lin) => lin,
        }
    }
}
