ghost use Rattle.std.specs.Prelude.{◌≡◌, IfOk};
ghost use Rattle.cube_forms.specs.Cubes.{tuple_at};
ghost use Rattle.lin_atoms.specs.Linear.{variable_at};

use base::{Copied, Memory, Same};
use smallvec::SmallVec;
use std::alloc::Global;
use std::marker::Model;

/// The values of a predicate's arguments, a Bool value as 0 or 1. Up to four of them lie in the
/// value itself.
pub struct Tuple {
    values: SmallVec<i64, 4>,
}

impl Drop for Tuple {
    fn drop(self) {
        let Tuple { values: _ } = self;
    }
}

impl Model for Tuple {
    ghost use Rattle.std.specs.Prelude.{List, ℤ};

    ghost Value = { List ℤ };

    ghost view = { λ t. t.values.items };
}

/// What a variable stands for at a point.
fn variable_at(point: &[i64], variable: u32) -> i64
    ensures { result ≡ variable_at point.now variable }
{
    let variable = variable as usize;
    if variable < point.len() {
        point[variable]
    } else {
        0
    }
}

impl Tuple {
    /// The tuple of these values.
    pub fn from_slice(alloc: Global, values: &[i64]) -> Result<Tuple, Memory>
        ensures { IfOk result (λ tuple. tuple ≡ values.now) }
    {
        Ok(Tuple {
            values: SmallVec::from_slice(alloc, values)?,
        })
    }

    /// What the variables stand for at the point: the tuple of an atom with these arguments. A
    /// variable past the point's end stands for 0.
    pub fn at(alloc: Global, point: &[i64], args: &[u32]) -> Result<Tuple, Memory>
        ensures { IfOk result (λ tuple. tuple ≡ tuple_at point.now args.now) }
    {
        let mut values = SmallVec::new(alloc);
        for arg in args {
            values.push(variable_at(point, *arg))?;
        }
        Ok(Tuple { values })
    }

    /// The values, in the order of the arguments.
    pub fn as_slice(&self) -> &[i64]
        ensures { result.now ≡ self.now }
    {
        self.values.as_slice()
    }
}

impl Same for Tuple {
    fn equals(&self, other: &Tuple) -> bool {
        self.as_slice() == other.as_slice()
    }
}

impl Copied for Tuple {
    fn copy(&self, alloc: Global) -> Result<Tuple, Memory> {
        Tuple::from_slice(alloc, self.as_slice())
    }
}
