//! Whether the body of an instance is recorded.

ghost use Rattle.std.specs.Prelude.{◌<◌, ◌^◌, length, IfOk};
ghost use Rattle.step_rules.specs.Views.{facts_of};
ghost use Rattle.book_rules.specs.Instances.{atom_at};
ghost use Rattle.obligation_turn.specs.machinery.Bodies.{ArePremises, IsFactAt};

use base::{Items, Memory};
use clause_form::Atom;
use cube_forms::Tuple;
use derivations::Facts;
use std::alloc::Global;

/// What of an instance's body is recorded.
#[derive(Drop)]
pub(crate) enum Premises {
    /// All of it: the facts, in the order of the atoms.
    Recorded(Items<u32>),
    /// The tuple of this atom isn't.
    Missing(u32),
}

/// The recorded fact that is the atom's tuple at the point.
fn fact_at(alloc: Global, facts: &Facts, atom: &Atom, point: &[i64]) -> Result<Option<u32>, Memory>
    ensures { IfOk result (IsFactAt (facts_of facts.now) (atom_at point.now atom.now)) }
{
    let tuple = Tuple::at(alloc, point, atom.args.as_slice())?;
    let found = facts.find(atom.pred, tuple.as_slice());
    Ok(found)
}

/// The recorded facts of the body at the point, or the first atom whose tuple isn't recorded.
pub(crate) fn premises_at(
    alloc: Global,
    facts: &Facts,
    atoms: &[Atom],
    point: &[i64],
) -> Result<Premises, Memory>
    requires { length atoms.now < 2 ^ 32 }
    ensures { IfOk result (ArePremises (facts_of facts.now) atoms.now point.now) }
{
    let mut premises = Items::new(alloc);
    for (number, atom) in atoms.iter().enumerate() {
        let found = fact_at(alloc, facts, atom, point)?;
        match found {
            Some(fact) => premises.push(fact)?,
            None => return Ok(Premises::Missing(number as u32)),
        }
    }
    Ok(Premises::Recorded(premises))
}
