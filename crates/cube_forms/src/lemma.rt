ghost use Rattle.std.specs.Prelude.{◌≡◌, true, false, IsTrue, IfOk, OnOk, IsErrOf};
ghost use Rattle.cube_forms.specs.Cubes.{cube_holds, has_room, lemma_at};

use crate::cube::Cube;
use crate::denying::{denials, or_of};
use base::{Copied, Memory, Same};
use lin_atoms::{Form, WideStop};
use std::alloc::Global;
use std::marker::Model;

/// The denial of a cube: it accepts the tuples that the cube doesn't hold. Contracts see it as the
/// cube's literals. A copy shares them.
pub struct Lemma {
    cube: Cube,
}

impl Drop for Lemma {
    fn drop(self) {
        let Lemma { cube: _ } = self;
    }
}

impl Model for Lemma {
    ghost use Rattle.std.specs.Prelude.{List};
    ghost use Rattle.lin_atoms.specs.declared.lit.Lit.{Lit};

    ghost Value = { List Lit };

    ghost view = { λ l. l.cube };
}

/// The lemma that denies the cube.
pub fn negate(alloc: Global, cube: &Cube) -> Result<Lemma, Memory>
    ensures { IfOk result (λ lemma. lemma ≡ cube.now) }
{
    Ok(Lemma {
        cube: cube.copy(alloc)?,
    })
}

impl Lemma {
    /// The cube that it denies.
    pub fn cube(&self) -> &Cube
        ensures { result.now ≡ self.now }
    {
        &self.cube
    }

    /// Whether the lemma shuts the tuple out: its cube holds it. A place past the tuple's end has
    /// the value 0.
    pub fn excludes(&self, tuple: &[i64]) -> bool
        ensures { result ≡ cube_holds tuple.now self.now }
    {
        self.cube.holds(tuple)
    }

    /// The lemma at arguments: the disjunction of the cube's literals, denied in their order, with
    /// each place replaced by its argument. It is `Wide` where the coefficients of an argument that
    /// stands at several places add up to 2^63 or more.
    pub fn checked_form(&self, alloc: Global, args: &[u32]) -> Result<Form, WideStop>
        ensures made { IfOk result (λ form. form ≡ lemma_at args.now self.now) }
        ensures within { OnOk result (has_room args.now self.now ≡ true) }
        ensures wide { IsErrOf result WideStop.Wide → has_room args.now self.now ≡ false }
    {
        let parts = denials(alloc, self.cube.lits(), args)?;
        Ok(or_of(parts))
    }

    /// The lemma at arguments whose coefficients, added up, are known to have room; where that
    /// isn't known, `checked_form` tells it.
    pub fn form(&self, alloc: Global, args: &[u32]) -> Result<Form, Memory>
        requires { IsTrue (has_room args.now self.now) }
        ensures { IfOk result (λ form. form ≡ lemma_at args.now self.now) }
    {
        match self.checked_form(alloc, args) {
            Ok(form) => Ok(form),
            Err(WideStop::Memory) => Err(Memory),
            Err(WideStop::Wide) => unreachable!(),
        }
    }
}

impl Same for Lemma {
    fn equals(&self, other: &Lemma) -> bool {
        self.cube.equals(&other.cube)
    }
}

impl Copied for Lemma {
    fn copy(&self, alloc: Global) -> Result<Lemma, Memory> {
        negate(alloc, &self.cube)
    }
}
