ghost use Rattle.std.specs.Prelude.{◌≡◌, pos};
ghost use Rattle.std.specs.Int.{int_signum};
ghost use Rattle.lin_atoms.specs.Multiples.{is_multiple};
ghost use Rattle.lin_atoms.specs.Linear.{value_at, variable_at};

use crate::accumulator::Accumulator;
use crate::divisor::Divisor;
use crate::lin::Lin;

/// What a variable stands for at a point.
fn variable_at(point: &[i64], variable: u32) -> i64
    ensures { result ≡ variable_at point.now variable }
{
    let variable = variable as usize;
    if variable < point.len() {
        point[variable]
    } else {
        0
    }
}

impl Lin {
    /// The sign of the exact value at the point: -1, 0 or 1. A variable past the point's end
    /// stands for 0.
    pub fn sign_at(&self, point: &[i64]) -> i8
        ensures { result ≡ int_signum (value_at point.now self.now) }
    {
        self.total_at(point).sign()
    }

    /// Whether the number divides the exact value at the point.
    pub fn is_multiple_at(&self, divisor: Divisor, point: &[i64]) -> bool
        ensures { result ≡ is_multiple (pos divisor) (value_at point.now self.now) }
    {
        self.total_at(point).is_multiple(divisor.get())
    }

    /// The exact value at the point.
    pub fn total_at(&self, point: &[i64]) -> Accumulator
        ensures { result.value ≡ value_at point.now self.now }
    {
        let mut total = Accumulator::new(self.constant());
        for (variable, coefficient) in self.terms() {
            let value = variable_at(point, *variable);
            total.add(*coefficient, i128::from(value));
        }
        total
    }
}
