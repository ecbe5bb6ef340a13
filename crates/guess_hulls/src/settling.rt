//! Hulls of all predicates: what each clause keeps, found by asking it for tuples that break it
//! (Karr, "Affine relationships among variables of a program", for the equations).

ghost use Rattle.std.specs.Prelude.{◌≡◌, ◌≢◌, ◌<◌, [], ℕ, length, unwrap_or, slice_index_or, IfOk, IsSome, None, OnOk};
ghost use Rattle.guess_hulls.specs.Hulls.{unknown};

use crate::hull::{Known, MOST_WITH_RESIDUES};
use crate::hull_queries::{Verdict, visit_divisibilities, visit_equations};
use crate::shutting::broken_at;
use base::Memory;
use clause_form::{Atom, Clause, System};
use cube_forms::Cube;
use lin_atoms::Lin;
use std::alloc::Global;
use std::marker::Model;

/// How many queries are asked.
const MOST_QUERIES: u32 = 3_000;

/// What the tuples of each predicate of a system have in common: equations, and residues of simple forms.
/// Contracts see it as a list of the forms that are 0, for each predicate of which a tuple was met.
#[derive(Drop)]
pub struct Hulls {
    known: Vec<Known>,
}

impl Model for Hulls {
    ghost use Rattle.std.specs.Prelude.{List, Option, map};
    ghost use Rattle.lin_atoms.specs.Linear.{Linear};
    ghost use Rattle.guess_hulls.specs.Hulls.{equations_of};

    ghost Value = { List (Option (List Linear)) };

    ghost view = { λ h. map equations_of h.known.items };
}

/// Whether a tuple of each atom's predicate was met.
fn are_reached(known: &[Known], atoms: &[Atom]) -> bool {
    for atom in atoms {
        match known.get(atom.pred as usize) {
            Some(Known::Common(_)) => {}
            _ => return false,
        }
    }
    true
}

/// What clauses are asked about.
#[derive(Clone, Copy)]
enum Stage {
    /// Equations, by the equations of the body's tuples.
    Equations,
    /// Equations, by all that is known of the body's tuples.
    Both,
    /// Divisibilities, by all that is known.
    Divisibilities,
}

/// Lets a literal of the predicate's hull go: a divisibility or an equation.
fn lose(known: &mut Vec<Known>, pred: u32, at: usize, stage: Stage) {
    if let Some(place) = known.as_mut_slice().get_mut(pred as usize) {
        if let Known::Common(hull) = place {
            match stage {
                Stage::Divisibilities => hull.drop_divisibility(at),
                _ => hull.drop_equation(at),
            }
        }
    }
}

/// Asks a clause once; whether anything changed.
fn step(
    alloc: Global,
    hulls: &mut Hulls,
    clause: &Clause,
    head: &Atom,
    stage: Stage,
    left: &mut u32,
) -> Result<bool, Memory> {
    let found = match stage {
        Stage::Equations => {
            visit_equations(alloc, hulls.known.as_slice(), clause, head, false, left)?
        }
        Stage::Both => visit_equations(alloc, hulls.known.as_slice(), clause, head, true, left)?,
        Stage::Divisibilities => {
            visit_divisibilities(alloc, hulls.known.as_slice(), clause, head, left)?
        }
    };
    match found {
        Verdict::Kept => Ok(false),
        Verdict::Met(tuple) => {
            hulls.take(alloc, head.pred, tuple.as_slice())?;
            Ok(true)
        }
        Verdict::Lost(at) => {
            lose(&mut hulls.known, head.pred, at, stage);
            Ok(true)
        }
    }
}

/// Asks a clause until what is known of its head stands; whether that changed.
fn settle(
    alloc: Global,
    hulls: &mut Hulls,
    clause: &Clause,
    head: &Atom,
    stage: Stage,
    left: &mut u32,
) -> Result<bool, Memory> {
    if !are_reached(hulls.known.as_slice(), clause.atoms.as_slice()) {
        return Ok(false);
    }
    for at in 0..MOST_QUERIES {
        if *left == 0 || !step(alloc, hulls, clause, head, stage, left)? {
            return Ok(at > 0);
        }
    }
    Ok(true)
}

/// Asks each clause with a head; whether anything changed.
fn round(
    alloc: Global,
    hulls: &mut Hulls,
    sys: &System,
    stage: Stage,
    left: &mut u32,
) -> Result<bool, Memory> {
    let mut changed = false;
    for clause in sys.clauses() {
        if let Some(head) = &clause.head {
            if settle(alloc, hulls, clause, head, stage, left)? {
                changed = true;
            }
        }
    }
    Ok(changed)
}

/// Asks round after round until nothing changes; whether it came to that.
fn rounds(alloc: Global, hulls: &mut Hulls, sys: &System, stage: Stage) -> Result<bool, Memory> {
    let mut left = MOST_QUERIES;
    for _ in 0..MOST_QUERIES {
        if left == 0 {
            return Ok(false);
        }
        if !round(alloc, hulls, sys, stage, &mut left)? {
            return Ok(left > 0);
        }
    }
    Ok(false)
}

/// Lets all that is known go.
fn lose_all(known: &mut Vec<Known>) {
    for one in known.iter_mut() {
        *one = Known::Nothing;
    }
}

/// Lets all divisibilities go.
fn lose_divisibilities(alloc: Global, known: &mut Vec<Known>) {
    for one in known.iter_mut() {
        match one {
            Known::Nothing => {}
            Known::Common(hull) => hull.drop_divisibilities(alloc),
        }
    }
}

/// Whether a predicate has few enough places for residues.
fn may_have_residues(sys: &System) -> bool {
    for sorts in sys.preds() {
        if sorts.len() > 0 && sorts.len() <= MOST_WITH_RESIDUES {
            return true;
        }
    }
    false
}

/// Finds equations and residues beside each other; whether it came to an end.
fn settle_both(alloc: Global, hulls: &mut Hulls, sys: &System) -> Result<bool, Memory> {
    if !rounds(alloc, hulls, sys, Stage::Both)? {
        return Ok(false);
    }
    rounds(alloc, hulls, sys, Stage::Divisibilities)
}

/// Puts the residues of one hull in the place of those of another.
fn put_residues(known: &mut Known, other: &mut Known) {
    if let Known::Common(hull) = known {
        if let Known::Common(other) = other {
            hull.swap_residues(other);
        }
    }
}

/// Puts the residues of each predicate's other hull in the place of those of its hull.
fn put_each(known: &mut Vec<Known>, others: &mut Vec<Known>) {
    for (at, other) in others.iter_mut().enumerate() {
        if let Some(one) = known.as_mut_slice().get_mut(at) {
            put_residues(one, other);
        }
    }
}

/// Has residues that are met among tuples that have them, where that comes to an end; whether it does.
fn put_beside(alloc: Global, hulls: &mut Hulls, sys: &System) -> Result<bool, Memory> {
    if !may_have_residues(sys) {
        return Ok(false);
    }
    let mut others = Hulls::unknown(alloc, sys)?;
    let is_settled = settle_both(alloc, &mut others, sys)?;
    if is_settled {
        put_each(&mut hulls.known, &mut others.known);
    }
    Ok(is_settled)
}

/// Finds equations, and divisibilities beside or behind them.
fn settle_all(alloc: Global, hulls: &mut Hulls, sys: &System) -> Result<(), Memory> {
    if !rounds(alloc, hulls, sys, Stage::Equations)? {
        lose_all(&mut hulls.known);
        return Ok(());
    }
    if put_beside(alloc, hulls, sys)? {
        return Ok(());
    }
    if !rounds(alloc, hulls, sys, Stage::Divisibilities)? {
        lose_divisibilities(alloc, &mut hulls.known);
    }
    Ok(())
}

/// What the tuples of each predicate have in common, as far as it was found: equations, and divisibilities
/// beside them; neither where a few thousand queries didn't settle it. Where divisibilities can't be
/// found beside the equations, they are looked for behind them, among the tuples that were met.
pub fn hulls_of(alloc: Global, sys: &System) -> Result<Hulls, Memory> {
    let mut hulls = Hulls::unknown(alloc, sys)?;
    settle_all(alloc, &mut hulls, sys)?;
    Ok(hulls)
}

impl Hulls {
    /// The hulls of predicates of which no tuple was met.
    pub fn unknown(alloc: Global, sys: &System) -> Result<Hulls, Memory>
        ensures { IfOk result (λ hulls. hulls ≡ unknown sys.now.preds) }
    {
        let mut known = Vec::new(alloc);
        for _ in sys.preds() {
            known.push(Known::Nothing)?;
        }
        Ok(Hulls { known })
    }

    /// Takes a tuple of the predicate in. Of other predicates nothing changes.
    pub fn take(&mut self, alloc: Global, pred: u32, tuple: &[i64]) -> Result<(), Memory>
        ensures met { OnOk result (pred < length self.old → IsSome (slice_index_or self.new pred None)) }
        ensures others { (n : ℕ) → n ≢ pred → slice_index_or self.new n None ≡ slice_index_or self.old n None }
        ensures length { length self.new ≡ length self.old }
    {
        let at = pred as usize;
        if at >= self.known.len() {
            return Ok(());
        }
        self.known[at].take(alloc, tuple)
    }

    /// Adds to each predicate's list the forms of equations that its tuples have in common, and that pairs of
    /// places don't have.
    pub fn push_long_forms(&self, alloc: Global, forms: &mut Vec<Vec<Lin>>) -> Result<(), Memory> {
        for (at, own) in forms.iter_mut().enumerate() {
            if let Some(Known::Common(hull)) = self.known.as_slice().get(at) {
                hull.push_long_forms(alloc, own)?;
            }
        }
        Ok(())
    }

    /// The forms that are 0 at each tuple of the predicate.
    pub fn equations(&self, pred: u32) -> &[Lin]
        ensures { result.now ≡ unwrap_or (slice_index_or self.now pred None) [] }
    {
        let at = pred as usize;
        if at >= self.known.len() {
            return &[];
        }
        self.known[at].equations()
    }

    /// Cubes that hold the point, and in which no tuple of the predicate lies as far as is known: by the
    /// equations, and by the residues where these are asked for, too.
    pub fn cubes(
        &self,
        alloc: Global,
        pred: u32,
        point: &[i64],
        whole: bool,
    ) -> Result<Vec<Cube>, Memory> {
        match self.known.as_slice().get(pred as usize) {
            Some(Known::Common(hull)) => {
                let lits = hull.literals(alloc, whole)?;
                broken_at(alloc, lits.as_slice(), point)
            }
            _ => Ok(Vec::new(alloc)),
        }
    }
}
