//! The rules of Open. Each answers what breaks it, if anything.

ghost use Rattle.std.specs.Prelude.{◌≡◌, ◌&&◌, ◌||◌, ◌<◌, ◌≤◌, ◌-◌, length, slice_get, IfOk, option_map, Some, None, true};
ghost use Rattle.book_rules.specs.declared.by.By.TheVariants.{Step};
ghost use Rattle.book_rules.specs.Instances.{head_at};
ghost use Rattle.chc_tokens.specs.Kept.{seen_point};
ghost use Rattle.base.specs.Limits.{most_arguments};
ghost use Rattle.book_rules.specs.OpenRules.{atom_fits, clause_fits, has_fact_in, is_cube, rule_1, rule_2, rule_3, rule_4, rule_5, rule_6, rule_9, tuple_of, unknown, atom_of};
ghost use Rattle.std.specs.List.{list_all, list_any};
ghost use Rattle.lin_atoms.specs.Denial.{lit_fits};
ghost use Rattle.book_rules.specs.Walks.{first_told, has};
ghost use Rattle.step_rules.specs.machinery.Walks.{is_unknown};
ghost use Rattle.step_rules.specs.machinery.Told.{low_told, misfit_told, shut_told, unheld_told, unknown_told};
ghost use Rattle.step_rules.specs.Taken.{open_of};
ghost use Rattle.cube_rules.specs.Views.{framed_at, lemmas_of};
ghost use Rattle.cube_rules.specs.machinery.Walks.{passes_at};
ghost use Rattle.step_rules.specs.Views.{facts_of, fresh_of};
ghost use Rattle.step_rules.specs.Standing.{standing_state};
ghost use Rattle.cube_forms.specs.Cubes.{cube_holds};
ghost use Rattle.book_rules.specs.Same.{same_cube};
ghost use Rattle.book_rules.specs.State.{holds};
ghost use Rattle.book_rules.specs.Areas.{is_wide, point_cube};
ghost use Rattle.clause_form.specs.System.{is_clause};

use crate::conclusions::holds;
use crate::lent::Lent;
use crate::levels::{below, unless_live};
use crate::lookups::{fact_in, has_fact_in};
use crate::open_step::part::OpenPart;
use base::Memory;
use book_rules::By;
use clause_form::{Atom, Clause};
use cube_forms::Tuple;
use cube_rules::{
    atom_at, body_shut_out, have_room, head_at, is_area, is_head, is_wide, knows, point_cube,
    projected_cube, same_cube,
};
use derivations::{Fact, Facts};
use lemma_frames::Frames;
use lin_atoms::Lit;
use obligation_tree::Obligation;
use std::alloc::Global;

/// 1: the parent is live.
pub(crate) fn open_rule_1_parent_is_live(parts: &Lent, step: &OpenPart) -> Option<By>
    ensures { result ≡ rule_1 (standing_state parts.now) (open_of step.now) }
{
    unless_live(parts.tree, step.parent)
}

/// What is told of a parent by its level.
fn told_of_level(step: &OpenPart, parent: &Obligation) -> Option<By>
    ensures { result ≡ low_told (open_of step.now) (fresh_of parent.now) }
{
    if parent.level < 2 {
        return Some(By::Obligation(step.parent));
    }
    None
}

/// 2: the parent's level is at least 2.
pub(crate) fn open_rule_2_parent_level_is_at_least_2(parts: &Lent, step: &OpenPart) -> Option<By>
    ensures { result ≡ rule_2 (standing_state parts.now) (open_of step.now) }
{
    if step.parent >= parts.tree.count() {
        return None;
    }
    told_of_level(step, parts.tree.obligation(step.parent))
}

/// Whether the step's cube has these literals, in this order.
fn is_same_cube(step: &OpenPart, lits: &[Lit]) -> bool
    ensures { result ≡ same_cube step.now.cube lits.now }
{
    same_cube(step.cube.lits(), lits)
}

/// Tells that the literals of the step's cube have room.
fn cube_has_room(step: &OpenPart)
    ensures { list_all lit_fits step.now.cube ≡ true }
{
    have_room(step.cube.lits());
}

/// Whether the step's cube is the tuple's.
fn is_point(alloc: Global, step: &OpenPart, tuple: &[i64]) -> Result<bool, Memory>
    requires { length tuple.now ≤ most_arguments }
    ensures { IfOk result (λ b. b ≡ same_cube step.now.cube (point_cube tuple.now)) }
{
    let point = point_cube(alloc, tuple)?;
    Ok(is_same_cube(step, point.as_slice()))
}

/// Whether the step's cube is that of the atom's tuple.
fn is_of_point(alloc: Global, step: &OpenPart, atom: &Atom) -> Result<bool, Memory>
    requires { length atom.now.args ≤ most_arguments }
    ensures { IfOk result (λ b. b ≡ same_cube step.now.cube (point_cube (tuple_of (open_of step.now) atom.now))) }
{
    let tuple = Tuple::at(alloc, step.seen.point(), atom.args.as_slice())?;
    let is = is_point(alloc, step, tuple.as_slice())?;
    Ok(is)
}

/// Whether the tuple's cube may stand for these literals: they hold a recorded fact, or are wide.
fn may_be_point(parts: &Lent, pred: u32, lits: &[Lit]) -> bool
    ensures { result ≡ (has_fact_in (facts_of parts.now.facts) pred lits.now || is_wide lits.now) }
{
    has_fact_in(parts.facts, pred, lits) || is_wide(lits)
}

/// Whether the step's cube has these literals, or is the atom's tuple where it may stand for them.
fn is_cube_of(parts: &Lent, step: &OpenPart, atom: &Atom, lits: &[Lit]) -> Result<bool, Memory>
    requires { length atom.now.args ≤ most_arguments }
    ensures { IfOk result (λ b. b ≡ (same_cube step.now.cube lits.now || (same_cube step.now.cube (point_cube (tuple_of (open_of step.now) atom.now))
        && (has_fact_in (facts_of parts.now.facts) atom.now.pred lits.now || is_wide lits.now)))) }
{
    if is_same_cube(step, lits) {
        return Ok(true);
    }
    if !may_be_point(parts, atom.pred, lits) {
        return Ok(false);
    }
    let is = is_of_point(parts.alloc, step, atom)?;
    Ok(is)
}

/// Whether the step's cube is the area's over the atom's places, or the atom's tuple where that cube
/// holds a recorded fact or is wide.
fn is_cube(parts: &Lent, step: &OpenPart, atom: &Atom) -> Result<bool, Memory>
    requires { length atom.now.args ≤ most_arguments }
    ensures { IfOk result (λ b. b ≡ is_cube (standing_state parts.now) (open_of step.now) atom.now) }
{
    match projected_cube(parts.alloc, atom, &step.area)? {
        None => {
            cube_has_room(step);
            let is = is_of_point(parts.alloc, step, atom)?;
            Ok(is)
        }
        Some(lits) => {
            let is = is_cube_of(parts, step, atom, lits.as_slice())?;
            Ok(is)
        }
    }
}

/// Whether the area is of this atom and the cube of both.
fn atom_fits(
    parts: &Lent,
    step: &OpenPart,
    parent: &Obligation,
    clause: &Clause,
    atom: &Atom,
) -> Result<bool, Memory>
    requires { length atom.now.args ≤ most_arguments }
    ensures { IfOk result (λ b. b ≡ atom_fits (standing_state parts.now) (open_of step.now) (fresh_of parent.now) clause.now atom.now) }
{
    let k = below(parent.level);
    if !is_area(
        parts.alloc,
        &step.area,
        step.seen.point(),
        clause,
        atom,
        &parent.cube,
        parts.frames,
        k,
    )? {
        return Ok(false);
    }
    is_cube(parts, step, atom)
}

/// Whether the clause's head is of the parent's predicate, and the atom is there and fits.
fn clause_fits(
    parts: &Lent,
    step: &OpenPart,
    parent: &Obligation,
    clause: &Clause,
) -> Result<bool, Memory>
    requires { is_clause parts.now.system.preds clause.now ≡ true }
    ensures { IfOk result (λ b. b ≡ clause_fits (standing_state parts.now) (open_of step.now) (fresh_of parent.now) clause.now) }
{
    if !is_head(parent.pred, &clause.head) {
        return Ok(false);
    }
    match clause.atoms.as_slice().get(step.atom as usize) {
        Some(atom) => atom_fits(parts, step, parent, clause, atom),
        None => Ok(false),
    }
}

/// What is told of a parent by rule 3.
fn misfit(parts: &Lent, step: &OpenPart, parent: &Obligation) -> Result<Option<By>, Memory>
    ensures { IfOk result (λ by. by ≡ misfit_told parts.now.system (standing_state parts.now) (open_of step.now) (fresh_of parent.now)) }
{
    match parts.system.clauses().get(step.seen.clause() as usize) {
        Some(clause) => {
            if clause_fits(parts, step, parent, clause)? {
                Ok(None)
            } else {
                Ok(Some(By::Step))
            }
        }
        None => Ok(Some(By::Step)),
    }
}

/// 3: the clause's head is of the parent's predicate, the atom is there, the area is of that atom,
/// clause and parent, and the cube is of that area and atom.
pub(crate) fn open_rule_3_clause_area_and_cube_fit(
    parts: &Lent,
    step: &OpenPart,
) -> Result<Option<By>, Memory>
    ensures { IfOk result (λ by. by ≡ rule_3 parts.now.system (standing_state parts.now) (open_of step.now)) }
{
    if step.parent >= parts.tree.count() {
        return Ok(None);
    }
    let by = misfit(parts, step, parts.tree.obligation(step.parent))?;
    Ok(by)
}

/// Whether the parent holds the instance's head, and the step's cube the atom's tuple.
fn is_held(
    alloc: Global,
    step: &OpenPart,
    parent: &Obligation,
    clause: &Clause,
) -> Result<bool, Memory>
    ensures { IfOk result (λ b. b ≡ (holds (fresh_of parent.now) (head_at (seen_point step.now.seen) clause.now)
        && has (slice_get clause.now.atoms step.now.atom) (λ atom. cube_holds (tuple_of (open_of step.now) atom) step.now.cube))) }
{
    let head = head_at(alloc, step.seen.point(), clause)?;
    if !holds(parent, &head) {
        return Ok(false);
    }
    match clause.atoms.as_slice().get(step.atom as usize) {
        Some(atom) => {
            let pair = atom_at(alloc, step.seen.point(), atom)?;
            Ok(step.cube.holds(pair.1.as_slice()))
        }
        None => Ok(false),
    }
}

/// What is told of a parent by rule 4.
fn unheld(parts: &Lent, step: &OpenPart, parent: &Obligation) -> Result<Option<By>, Memory>
    ensures { IfOk result (λ by. by ≡ unheld_told parts.now.system (open_of step.now) (fresh_of parent.now)) }
{
    match parts.system.clauses().get(step.seen.clause() as usize) {
        Some(clause) => {
            if is_held(parts.alloc, step, parent, clause)? {
                Ok(None)
            } else {
                Ok(Some(By::Obligation(step.parent)))
            }
        }
        None => Ok(Some(By::Obligation(step.parent))),
    }
}

/// 4: the parent holds the instance's head, and the cube holds the atom's tuple.
pub(crate) fn open_rule_4_parent_holds_head(
    parts: &Lent,
    step: &OpenPart,
) -> Result<Option<By>, Memory>
    ensures { IfOk result (λ by. by ≡ rule_4 parts.now.system (standing_state parts.now) (open_of step.now)) }
{
    if step.parent >= parts.tree.count() {
        return Ok(None);
    }
    let by = unheld(parts, step, parts.tree.obligation(step.parent))?;
    Ok(by)
}

/// What is told of a parent by rule 5.
fn shut_below(parts: &Lent, step: &OpenPart, parent: &Obligation) -> Result<Option<By>, Memory>
    ensures { IfOk result (λ by. by ≡ shut_told parts.now.system (standing_state parts.now) (open_of step.now) (fresh_of parent.now)) }
{
    let k = below(parent.level);
    match parts.system.clauses().get(step.seen.clause() as usize) {
        Some(clause) => body_shut_out(parts.alloc, parts.frames, k, step.seen.point(), clause),
        None => Ok(None),
    }
}

/// 5: no lemma of the frame below the parent shuts a body tuple of the instance out.
pub(crate) fn open_rule_5_no_lemma_shuts_body_out(
    parts: &Lent,
    step: &OpenPart,
) -> Result<Option<By>, Memory>
    ensures { IfOk result (λ by. by ≡ rule_5 parts.now.system (standing_state parts.now) (open_of step.now)) }
{
    if step.parent >= parts.tree.count() {
        return Ok(None);
    }
    let by = shut_below(parts, step, parts.tree.obligation(step.parent))?;
    Ok(by)
}

/// The step's atom, where it is there.
pub(crate) fn atom_of<'a>(parts: &'a Lent, step: &OpenPart) -> Option<&'a Atom>
    ensures { option_map (λ atom. atom.now) result ≡ atom_of parts.now.system (open_of step.now) }
{
    match parts.system.clauses().get(step.seen.clause() as usize) {
        Some(clause) => clause.atoms.as_slice().get(step.atom as usize),
        None => None,
    }
}

/// 6: no recorded fact of the atom's predicate lies in the cube.
pub(crate) fn open_rule_6_no_fact_lies_in_cube(parts: &Lent, step: &OpenPart) -> Option<By>
    ensures { result ≡ rule_6 parts.now.system (standing_state parts.now) (open_of step.now) }
{
    match atom_of(parts, step) {
        Some(atom) => {
            match fact_in(parts.facts, atom.pred, step.cube.lits()) {
                Some(id) => Some(By::Fact(id)),
                None => None,
            }
        }
        None => None,
    }
}

/// Whether a lemma is of this level or more, on the atom's predicate, and the area doesn't know it
/// on the atom.
fn is_unknown(
    alloc: Global,
    frames: &Frames,
    id: u32,
    k: u32,
    step: &OpenPart,
    atom: &Atom,
) -> Result<bool, Memory>
    requires { id < length frames.now.lemmas }
    ensures { IfOk result (λ b. b ≡ is_unknown k step.now.area atom.now (framed_at frames.now.lemmas id)) }
{
    if frames.level_of(id) < k || frames.pred_of(id) != atom.pred {
        return Ok(false);
    }
    let known = knows(alloc, &step.area, atom, frames.lemma(id))?;
    Ok(!known)
}

/// Whether one of the lemmas of these numbers is there and is such a one.
fn any_unknown(
    alloc: Global,
    frames: &Frames,
    numbers: &[u32],
    k: u32,
    step: &OpenPart,
    atom: &Atom,
) -> Result<bool, Memory>
    ensures { IfOk result (λ b. b ≡ list_any (passes_at (is_unknown k step.now.area atom.now) frames.now.lemmas) numbers.now) }
{
    for id in numbers {
        let is_one = *id < frames.count() && is_unknown(alloc, frames, *id, k, step, atom)?;
        if is_one {
            return Ok(true);
        }
    }
    Ok(false)
}

/// Whether no lemma is such a one, by a look at those on the atom's predicate. It is false, too, of level
/// 0 and of a predicate that isn't there.
fn none_unknown(
    alloc: Global,
    frames: &Frames,
    k: u32,
    step: &OpenPart,
    atom: &Atom,
) -> Result<bool, Memory>
    ensures { IfOk result (λ b. b ≡ true → unknown (lemmas_of frames.now.lemmas) k (open_of step.now) atom.now ≡ None) }
{
    if k == 0 || atom.pred as usize >= frames.preds() {
        return Ok(false);
    }
    let any = any_unknown(alloc, frames, frames.upper(atom.pred, k), k, step, atom)?;
    Ok(!any)
}

/// The first lemma of this level or more on the atom's predicate that the area doesn't know on it.
fn unknown(
    alloc: Global,
    frames: &Frames,
    k: u32,
    step: &OpenPart,
    atom: &Atom,
) -> Result<Option<By>, Memory>
    ensures { IfOk result (λ by. by ≡ unknown (lemmas_of frames.now.lemmas) k (open_of step.now) atom.now) }
{
    if none_unknown(alloc, frames, k, step, atom)? {
        return Ok(None);
    }
    for id in 0..frames.count() {
        let unknown = is_unknown(alloc, frames, id, k, step, atom)?;
        if unknown {
            return Ok(Some(By::Lemma(id)));
        }
    }
    Ok(None)
}

/// The first such, of those of the first atom that has one.
fn first_unknown(
    alloc: Global,
    frames: &Frames,
    k: u32,
    step: &OpenPart,
    atoms: &[Atom],
) -> Result<Option<By>, Memory>
    ensures { IfOk result (λ by. by ≡ first_told (unknown (lemmas_of frames.now.lemmas) k (open_of step.now)) atoms.now) }
{
    for atom in atoms {
        match unknown(alloc, frames, k, step, atom)? {
            Some(by) => return Ok(Some(by)),
            None => {}
        }
    }
    Ok(None)
}

/// What is told of a parent by rule 9.
fn unknown_below(parts: &Lent, step: &OpenPart, parent: &Obligation) -> Result<Option<By>, Memory>
    ensures { IfOk result (λ by. by ≡ unknown_told parts.now.system (standing_state parts.now) (open_of step.now) (fresh_of parent.now)) }
{
    let k = below(parent.level);
    match parts.system.clauses().get(step.seen.clause() as usize) {
        Some(clause) => {
            first_unknown(parts.alloc, parts.frames, k, step, clause.atoms.as_slice())
        }
        None => Ok(None),
    }
}

/// 9: on each body atom the area knows each lemma of the frame below the parent on its predicate.
pub(crate) fn open_rule_9_area_knows_frame_below(
    parts: &Lent,
    step: &OpenPart,
) -> Result<Option<By>, Memory>
    ensures { IfOk result (λ by. by ≡ rule_9 parts.now.system (standing_state parts.now) (open_of step.now)) }
{
    if step.parent >= parts.tree.count() {
        return Ok(None);
    }
    let by = unknown_below(parts, step, parts.tree.obligation(step.parent))?;
    Ok(by)
}
