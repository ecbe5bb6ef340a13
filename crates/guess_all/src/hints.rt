//! What is guessed of a system before its search.

ghost use Rattle.std.specs.Prelude.{◌≡◌, true, false, None, Some, is_some, IfOk, IfSome, IsOk, OnOk, OnErr};
ghost use Rattle.guess_bounds.specs.Rounds.{IsRenewed, are_due};
ghost use Rattle.guess_all.specs.Hinted.{is_broken, unhinted};

use base::Memory;
use clause_form::System;
use clause_index::IndexedSystem;
use cube_forms::Cube;
use guess_bounds::{Bounds, Walk, walked};
use guess_hulls::{Hulls, hulls_of};
use lin_atoms::Lin;
use std::alloc::Global;
use std::marker::Model;

/// What was found of the predicates of a system, before its search and in rounds beside it: guesses, of
/// which none has to be right.
#[derive(Drop)]
pub struct Hints {
    hulls: Hulls,
    bounds: Bounds,
    /// What running clauses forward met, from the first round on.
    walk: Option<Walk>,
}

/// Contracts see the rounds of the bounds, and whether false follows from what running clauses forward met.
impl Model for Hints {
    ghost use Rattle.std.specs.Option.{option_map};
    ghost use Rattle.guess_all.specs.Hinted.{Hinted};

    ghost Value = { Hinted };

    ghost view = { λ h. record { rounds = h.bounds; broken = option_map (λ w. w.is_broken) h.walk } };
}

/// What is guessed of the tuples of each predicate of the system: equations and residues that they have
/// in common.
pub fn hints_of(alloc: Global, sys: &IndexedSystem) -> Result<Hints, Memory>
    ensures { IfOk result (λ hints. hints ≡ unhinted) }
{
    Ok(Hints {
        hulls: hulls_of(alloc, sys.plain())?,
        bounds: Bounds::new(),
        walk: None,
    })
}

/// The hulls of the tuples that running clauses forward met: that they have them in common may rest on bounds,
/// so that no clause keeps them by themselves.
fn met_hulls(alloc: Global, sys: &System, walk: &Walk) -> Result<Hulls, Memory> {
    let mut hulls = Hulls::unknown(alloc, sys)?;
    for met in walk.first() {
        hulls.take(alloc, met.pred, met.tuple.as_slice())?;
    }
    Ok(hulls)
}

/// For each predicate no form.
fn no_forms(alloc: Global, sys: &System) -> Result<Vec<Vec<Lin>>, Memory> {
    let mut forms = Vec::new(alloc);
    for _ in sys.preds() {
        forms.push(Vec::new(alloc))?;
    }
    Ok(forms)
}

/// For each predicate the forms of equations that its tuples have in common, and that pairs of places
/// don't have, and the same of those that running clauses forward met.
fn shared_forms(
    alloc: Global,
    sys: &System,
    hulls: &Hulls,
    walk: &Walk,
) -> Result<Vec<Vec<Lin>>, Memory> {
    let met = met_hulls(alloc, sys, walk)?;
    let mut forms = no_forms(alloc, sys)?;
    hulls.push_long_forms(alloc, &mut forms)?;
    met.push_long_forms(alloc, &mut forms)?;
    Ok(forms)
}

impl Hints {
    /// Runs clauses forward, the first time.
    fn walk(&mut self, alloc: Global, sys: &IndexedSystem) -> Result<Walk, Memory>
        ensures met { IfOk result (λ met. IfSome self.old.broken (λ b. met.is_broken ≡ b)) }
        ensures rounds { self.new.rounds ≡ self.old.rounds }
    {
        if let Some(met) = self.walk.take() {
            return Ok(met);
        }
        walked(alloc, sys)
    }

    /// Looks for bounds that hold together, where the level of the book and the units that were spent say
    /// so. Clauses are run forward for the first round.
    pub fn renew(
        &mut self,
        alloc: Global,
        sys: &IndexedSystem,
        level: u32,
        units: u32,
    ) -> Result<(), Memory>
        ensures waits { are_due level units self.old.rounds ≡ false → IsOk result × (self.new ≡ self.old) }
        ensures walked { are_due level units self.old.rounds ≡ true → OnOk result (is_some self.new.broken ≡ true) }
        ensures kept { OnOk result (IfSome self.old.broken (λ b. self.new.broken ≡ Some b)) }
        ensures renewed { are_due level units self.old.rounds ≡ true → OnOk result (IsRenewed (is_broken self.new) units self.old.rounds self.new.rounds) }
        ensures err { OnErr result (self.new.rounds ≡ self.old.rounds) }
    {
        if !self.bounds.are_due(level, units) {
            return Ok(());
        }
        let met = self.walk(alloc, sys)?;
        let shared = shared_forms(alloc, sys.plain(), &self.hulls, &met)?;
        self.bounds
            .renew(alloc, sys, shared.as_slice(), &met, level, units)?;
        self.walk = Some(met);
        Ok(())
    }

    /// The bounds that were found so far.
    pub fn bounds(&self) -> &Bounds
        ensures { result.now ≡ self.now.rounds }
    {
        &self.bounds
    }

    /// Cubes that hold the point, and in which no tuple of the predicate lies as far as is known: by the
    /// equations, and by the residues where these are asked for, too.
    pub fn cubes(
        &self,
        alloc: Global,
        pred: u32,
        point: &[i64],
        whole: bool,
    ) -> Result<Vec<Cube>, Memory> {
        self.hulls.cubes(alloc, pred, point, whole)
    }
}
