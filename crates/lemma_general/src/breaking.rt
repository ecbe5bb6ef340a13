//! Instances that kept a cube out.

ghost use Rattle.std.specs.Prelude.{◌≡◌, ◌-◌, Some, OnOk};
ghost use Rattle.std.specs.List.{list_any};
ghost use Rattle.cube_forms.specs.Cubes.{cube_holds};
ghost use Rattle.chc_tokens.specs.declared.goal.Goal.TheVariants.{Holds};
ghost use Rattle.clause_queries.specs.Answers.{IsHit};
ghost use Rattle.lemma_general.specs.machinery.Passes.{AreMet};

use base::{Items, Memory};
use chc_tokens::Seen;
use cube_forms::{Cube, Tuple};
use step_rules::{LemmaPart, Lent};

/// An instance with its body in the frame below, and its head's tuple.
pub(crate) struct Breaking {
    pub(crate) seen: Seen,
    pub(crate) tuple: Tuple,
}

impl Drop for Breaking {
    fn drop(self) {
        let Breaking { seen: _, tuple: _ } = self;
    }
}

/// Whether the head of one of the instances lies in the cube.
pub(crate) fn is_met(met: &[Breaking], cube: &Cube) -> bool
    ensures { result ≡ list_any (λ one. cube_holds one.tuple cube.now) met.now }
{
    for one in met {
        if cube.holds(one.tuple.as_slice()) {
            return true;
        }
    }
    false
}

/// Keeps an instance whose head lies in a cube of the lemma's predicate.
pub(crate) fn keep(
    lent: &Lent,
    met: &mut Items<Breaking>,
    part: &LemmaPart,
    cube: &Cube,
    seen: Seen,
) -> Result<(), Memory>
    requires hit { IsHit lent.now.system lent.now.frames.lemmas (Some part.now.pred) (Holds cube.now) (part.now.level - 1) seen }
    requires met { AreMet lent.now part.now met.old }
    ensures { OnOk result (AreMet lent.now part.now met.new) }
{
    let _part = part;
    let _cube = cube;
    let clause = lent.system.clause(seen.clause() as usize);
    match &clause.head {
        Some(atom) => {
            let tuple = Tuple::at(lent.alloc, seen.point(), atom.args.as_slice())?;
            met.push(Breaking { seen, tuple })?;
            Ok(())
        }
        None => unreachable!(),
    }
}
