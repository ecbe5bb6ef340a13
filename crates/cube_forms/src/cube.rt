ghost use Rattle.std.specs.Prelude.{◌≡◌, ◌↔◌, true, false, IfOk, OnOk, IsErrOf};
ghost use Rattle.cube_forms.specs.Cubes.{cube_at, cube_holds, cube_is_below, cube_is_short, has_room};

use crate::held::Held;
use crate::placed::lits_at;
use crate::short::are_short;
use crate::stop::CubeStop;
use base::{Copied, Items, Memory, Same};
use lin_atoms::{Lit, WideStop};
use std::alloc::Global;
use std::marker::Model;

/// A conjunction of literals whose variables are places of a predicate's arguments, numbered from
/// 0. Every number in it is below 2^63 in magnitude. A copy shares the literals. Contracts see it as
/// the list of its literals.
pub struct Cube {
    lits: Held<Items<Lit>>,
}

impl Drop for Cube {
    fn drop(self) {
        let Cube { lits: _ } = self;
    }
}

impl Model for Cube {
    ghost use Rattle.std.specs.Prelude.{List, ◌≡◌, true};
    ghost use Rattle.lin_atoms.specs.declared.lit.Lit.{Lit};
    ghost use Rattle.cube_forms.specs.Cubes.{cube_is_short};

    ghost Value = { List Lit };

    ghost view = { λ c. c.lits };

    ghost invariant = { λ c. cube_is_short c.lits ≡ true };
}

/// Whether each of the literals is true at the tuple.
fn all_hold(lits: &[Lit], tuple: &[i64]) -> bool
    ensures { result ≡ cube_holds tuple.now lits.now }
{
    for lit in lits {
        if !lit.holds(tuple) {
            return false;
        }
    }
    true
}

/// Whether each place that occurs is below `n`.
fn are_below(lits: &[Lit], n: usize) -> bool
    ensures { result ≡ cube_is_below n lits.now }
{
    for lit in lits {
        if !lit.is_below(n) {
            return false;
        }
    }
    true
}

impl Cube {
    /// The cube of these literals, in this order. It is `Wide` exactly where a number reaches 2^63.
    pub fn new(alloc: Global, lits: Vec<Lit>) -> Result<Cube, CubeStop>
        ensures made { IfOk result (λ cube. cube ≡ lits.items) }
        ensures short { OnOk result (cube_is_short lits.items ≡ true) }
        ensures wide { IsErrOf result CubeStop.Wide ↔ (cube_is_short lits.items ≡ false) }
    {
        if !are_short(lits.as_slice()) {
            return Err(CubeStop::Wide);
        }
        let lits = Items::from_vec(lits);
        Ok(Cube {
            lits: Held::new(alloc, lits)?,
        })
    }

    /// The literals.
    pub fn lits(&self) -> &[Lit]
        ensures is { result.now ≡ self.now }
        ensures short { cube_is_short self.now ≡ true }
    {
        self.lits.get().as_slice()
    }

    /// Whether the cube holds the tuple: each literal is true there, exactly. A place past the
    /// tuple's end has the value 0.
    pub fn holds(&self, tuple: &[i64]) -> bool
        ensures { result ≡ cube_holds tuple.now self.now }
    {
        all_hold(self.lits.get().as_slice(), tuple)
    }

    /// Whether each place that occurs is below `n`, so that a tuple of that length has them all.
    pub fn is_below(&self, n: usize) -> bool
        ensures { result ≡ cube_is_below n self.now }
    {
        are_below(self.lits.get().as_slice(), n)
    }

    /// The literals with each place replaced by its argument, the coefficients of one variable
    /// added up. A place past the end keeps its number.
    pub fn at(&self, alloc: Global, args: &[u32]) -> Result<Items<Lit>, WideStop>
        ensures made { IfOk result (λ lits. lits ≡ cube_at args.now self.now) }
        ensures within { OnOk result (has_room args.now self.now ≡ true) }
        ensures wide { IsErrOf result WideStop.Wide → has_room args.now self.now ≡ false }
    {
        let lits = lits_at(alloc, self.lits.get().as_slice(), args)?;
        Ok(Items::from_vec(lits))
    }
}

impl Same for Cube {
    fn equals(&self, other: &Cube) -> bool {
        self.lits.get().equals(other.lits.get())
    }
}

impl Copied for Cube {
    fn copy(&self, _alloc: Global) -> Result<Cube, Memory> {
        Ok(Cube {
            lits: self.lits.share()?,
        })
    }
}
