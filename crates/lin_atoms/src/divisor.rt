ghost use Rattle.std.specs.Prelude.{◌≡◌, ◌↔◌, ◌<◌, ◌≤ℤ◌, pos, IfSome, IsNone};
ghost use Rattle.base.specs.Widths.{short_limit};

use base::{Copied, Memory, Same};
use std::alloc::Global;
use std::marker::Model;

/// A positive number below 2^63, by which something is divisible or not.
#[derive(Clone, Copy, PartialEq, Eq)]
pub struct Divisor {
    value: i64,
}

impl Model for Divisor {
    ghost use Rattle.std.specs.Prelude.{ℕ, ◌<ℤ◌, pos, nat_abs};

    ghost Value = { ℕ };

    ghost view = { λ d. nat_abs d.value };

    ghost invariant = { λ d. pos 0 <ℤ d.value };

    ghost inverse = { λ n. record { value = pos n } };
}

impl Divisor {
    /// The divisor of that value, unless it is 0 or negative.
    pub fn new(value: i64) -> Option<Divisor>
        ensures some { IfSome result (λ d. value ≡ pos d) }
        ensures none { IsNone result ↔ (value ≤ℤ pos 0) }
    {
        if value > 0 {
            Some(Divisor { value })
        } else {
            None
        }
    }

    /// The number itself.
    pub fn get(self) -> i64
        ensures value { result ≡ pos self }
        ensures positive { 0 < self }
        ensures short { self < short_limit }
    {
        self.value
    }
}

impl Same for Divisor {
    fn equals(&self, other: &Divisor) -> bool {
        *self == *other
    }
}

impl Copied for Divisor {
    fn copy(&self, _alloc: Global) -> Result<Divisor, Memory> {
        Ok(*self)
    }
}
