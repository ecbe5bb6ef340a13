//! The rules of Stall. Each answers what breaks it, if anything.

ghost use Rattle.std.specs.Prelude.{◌≡◌, ◌==◌, ◌&&◌, ◌||◌, ◌-◌, not, [], slice_get, None, IfOk, if◌then◌else◌, true, Some};
ghost use Rattle.book_rules.specs.declared.by.By.TheVariants.{Obligation as ByObligation, Step};
ghost use Rattle.book_rules.specs.Proofs.{all_may_use};
ghost use Rattle.refutation_trees.specs.KeptEvidence.{given_form};
ghost use Rattle.book_rules.specs.Queries.{query};
ghost use Rattle.book_rules.specs.Same.{same_form};
ghost use Rattle.book_rules.specs.StallRules.{has_used_atoms, is_live_child, query_fits, rule_50, rule_51, rule_52, rule_53, rule_54};
ghost use Rattle.book_rules.specs.Places.{has_places, obligation_fits};
ghost use Rattle.step_rules.specs.machinery.Told.{misused_told, unfit_told};
ghost use Rattle.step_rules.specs.Taken.{stall_of, step_of};
ghost use Rattle.step_rules.specs.Tokens.{all_used};
ghost use Rattle.step_rules.specs.Views.{fresh_of, obligations_of};
ghost use Rattle.step_rules.specs.Standing.{standing_state};
ghost use Rattle.step_rules.specs.declared.step.Step.TheVariants.{StallStep};
ghost use Rattle.step_rules.specs.Standing.{IsStanding};
ghost use Rattle.clause_form.specs.System.{is_clause};
ghost use Rattle.step_rules.specs.machinery.Claims.{goal_for};
ghost use Rattle.step_rules.specs.machinery.Literals.{lemmas_are_short};
ghost use Rattle.book_rules.specs.Proofs.{is_empty, is_head};
ghost use Rattle.chc_tokens.specs.Queries.{query_at};
ghost use Rattle.cube_rules.specs.machinery.Literals.{form_fits};
ghost use Rattle.std.specs.List.{find};
ghost use Rattle.book_rules.specs.Walks.{first_number};
ghost use Rattle.step_rules.specs.machinery.Walks.{child_at};

use crate::children::is_child;
use crate::claim::Claim;
use crate::lent::Lent;
use crate::levels::{below, unless_live};
use crate::proving::all_may_use;
use crate::stall_step::part::StallPart;
use base::Memory;
use book_rules::By;
use chc_tokens::{Goal, Used, checked_query_of};
use clause_form::Clause;
use cube_forms::negate;
use cube_rules::{form_has_room, is_head, same_form};
use lin_atoms::Form;
use obligation_tree::{Obligation, Tree};
use std::alloc::Global;

/// 50: the target is live.
pub(crate) fn stall_rule_50_target_is_live(parts: &Lent, step: &StallPart) -> Option<By>
    ensures { result ≡ rule_50 (standing_state parts.now) (stall_of step.now) }
{
    unless_live(parts.tree, step.target)
}

/// The first of the numbers that is a live child.
fn first_child(tree: &Tree, numbers: &[u32], parent: u32) -> Option<u32>
    ensures { result ≡ find (child_at tree.now.nodes parent) numbers.now }
{
    for id in numbers {
        if is_child(tree, *id, parent) {
            return Some(*id);
        }
    }
    None
}

/// The first live child of the obligation of that number.
fn live_child(tree: &Tree, parent: u32) -> Option<u32>
    ensures { result ≡ first_number (is_live_child parent) (obligations_of tree.now.nodes) }
{
    first_child(tree, tree.live(), parent)
}

/// 51: the target has no live child; the oldest is told.
pub(crate) fn stall_rule_51_target_has_no_child(parts: &Lent, step: &StallPart) -> Option<By>
    ensures { result ≡ rule_51 (standing_state parts.now) (stall_of step.now) }
{
    match live_child(parts.tree, step.target) {
        Some(id) => Some(By::Obligation(id)),
        None => None,
    }
}

/// What is asked of a clause for an obligation: that its head lies in the cube; nothing for the root,
/// whose cube has no literal.
fn goal_of(alloc: Global, obligation: &Obligation) -> Result<Goal, Memory>
    ensures { IfOk result (λ goal. goal ≡ goal_for obligation.now.pred obligation.now.cube) }
{
    match obligation.pred {
        Some(_) => Ok(Goal::Holds(negate(alloc, &obligation.cube)?)),
        None => Ok(Goal::Query),
    }
}

/// Tells that the numbers of used lemmas are short.
fn are_short(used: &[Used])
    ensures { lemmas_are_short used.now ≡ true }
{
    for one in used {
        let _lits = one.lemma.cube().lits();
    }
}

/// The query of the step's clause and used lemmas, and the goal; none where it isn't there or has no
/// room.
fn asked(parts: &Lent, step: &StallPart, goal: &Goal) -> Result<Option<Form>, Memory>
    ensures { IfOk result (λ found. found ≡ query_at parts.now.system step.now.clause goal.now step.now.used) }
{
    let used = step.used.as_slice();
    let found = checked_query_of(parts.alloc, parts.system.plain(), step.clause, goal, used)?;
    Ok(found)
}

/// Whether the evidence is of this form.
fn is_of(step: &StallPart, query: &Form) -> bool
    ensures { result ≡ same_form (given_form step.now.evidence) query.now }
{
    same_form(step.evidence.form(), query)
}

/// Tells that the literals of the evidence's form have room.
fn evidence_has_room(step: &StallPart)
    ensures { form_fits (given_form step.now.evidence) ≡ true }
{
    form_has_room(step.evidence.form());
}

/// Tells that the numbers of the step's used lemmas are short.
fn used_are_short(step: &StallPart)
    ensures { lemmas_are_short step.now.used ≡ true }
{
    are_short(step.used.as_slice());
}

/// Whether the used atoms are there, and the evidence is of the query of clause, used lemmas and
/// cube. A query in which a number has no room is equal to no form that is kept.
fn is_asked(
    parts: &Lent,
    step: &StallPart,
    obligation: &Obligation,
    clause: &Clause,
) -> Result<bool, Memory>
    requires there { slice_get parts.now.system.clauses step.now.clause ≡ Some clause.now }
    requires legal { is_clause parts.now.system.preds clause.now ≡ true }
    requires head { is_head obligation.now.pred clause.now.head ≡ true }
    requires cube { obligation.now.pred ≡ None → obligation.now.cube ≡ [] }
    requires asked { obligation_fits parts.now.system.preds (fresh_of obligation.now) ≡ true }
    requires places { has_places parts.now.system (step_of (StallStep step.now)) ≡ true }
    ensures { IfOk result (λ b. b ≡ (has_used_atoms clause.now (all_used step.now.used) && same_form (given_form step.now.evidence) (query clause.now obligation.now.cube (all_used step.now.used)))) }
{
    let goal = goal_of(parts.alloc, obligation)?;
    match asked(parts, step, &goal)? {
        Some(query) => Ok(is_of(step, &query)),
        None => {
            evidence_has_room(step);
            used_are_short(step);
            Ok(false)
        }
    }
}

/// Whether the obligation is of level 1, where the clause has a body atom.
fn is_too_low(obligation: &Obligation, clause: &Clause) -> bool
    ensures { result ≡ not (not (obligation.now.level == 1) || is_empty clause.now.atoms) }
{
    obligation.level == 1 && clause.atoms.len() > 0
}

/// Whether the evidence is of a query of the obligation through the clause.
fn query_fits(
    parts: &Lent,
    step: &StallPart,
    obligation: &Obligation,
    clause: &Clause,
) -> Result<bool, Memory>
    requires there { slice_get parts.now.system.clauses step.now.clause ≡ Some clause.now }
    requires legal { is_clause parts.now.system.preds clause.now ≡ true }
    requires cube { obligation.now.pred ≡ None → obligation.now.cube ≡ [] }
    requires asked { obligation_fits parts.now.system.preds (fresh_of obligation.now) ≡ true }
    requires places { has_places parts.now.system (step_of (StallStep step.now)) ≡ true }
    ensures { IfOk result (λ b. b ≡ query_fits (stall_of step.now) (fresh_of obligation.now) clause.now) }
{
    if !is_head(obligation.pred, &clause.head) {
        return Ok(false);
    }
    if is_too_low(obligation, clause) {
        return Ok(false);
    }
    let is = is_asked(parts, step, obligation, clause)?;
    Ok(is)
}

/// What is told of a target by rule 52.
fn unfit(parts: &Lent, step: &StallPart, target: &Obligation) -> Result<Option<By>, Memory>
    requires cube { target.now.pred ≡ None → target.now.cube ≡ [] }
    requires asked { obligation_fits parts.now.system.preds (fresh_of target.now) ≡ true }
    requires places { has_places parts.now.system (step_of (StallStep step.now)) ≡ true }
    ensures { IfOk result (λ by. by ≡ unfit_told parts.now.system (stall_of step.now) (fresh_of target.now)) }
{
    match parts.system.clauses().get(step.clause as usize) {
        Some(clause) => {
            if query_fits(parts, step, target, clause)? {
                Ok(None)
            } else {
                Ok(Some(By::Step))
            }
        }
        None => Ok(Some(By::Step)),
    }
}

/// 52: the clause and the used atoms are there, its head is of the target's predicate, and the
/// evidence is of the query of clause, used lemmas and cube; at level 1 the clause has no body atom.
pub(crate) fn stall_rule_52_evidence_fits_target(
    parts: &Lent,
    step: &StallPart,
) -> Result<Option<By>, Memory>
    requires kept { IsStanding parts.now }
    requires places { has_places parts.now.system (step_of (StallStep step.now)) ≡ true }
    ensures { IfOk result (λ by. by ≡ rule_52 parts.now.system (standing_state parts.now) (stall_of step.now)) }
{
    if step.target >= parts.tree.count() {
        return Ok(None);
    }
    let by = unfit(parts, step, parts.tree.obligation(step.target))?;
    Ok(by)
}

/// What is told of a target by rule 53.
fn misused_below(parts: &Lent, step: &StallPart, target: &Obligation) -> Option<By>
    ensures { result ≡ misused_told parts.now.system (standing_state parts.now) (stall_of step.now) (fresh_of target.now) }
{
    let k = below(target.level);
    let (sys, own) = (parts.system.plain(), Claim::False);
    let used = step.used.as_slice();
    if all_may_use(sys, parts.frames, k, &own, step.clause, used) {
        return None;
    }
    Some(By::Clause(step.clause))
}

/// 53: each used lemma is in the frame below the target.
pub(crate) fn stall_rule_53_used_lemmas_are_below(parts: &Lent, step: &StallPart) -> Option<By>
    ensures { result ≡ rule_53 parts.now.system (standing_state parts.now) (stall_of step.now) }
{
    if step.target >= parts.tree.count() {
        return None;
    }
    misused_below(parts, step, parts.tree.obligation(step.target))
}

/// What is told of a target of a number that is stalled, or isn't.
fn told_of_mark(id: u32, stalled: bool) -> Option<By>
    ensures { result ≡ (if stalled then Some (ByObligation id) else None) }
{
    if stalled {
        return Some(By::Obligation(id));
    }
    None
}

/// 54: the target isn't stalled.
pub(crate) fn stall_rule_54_target_is_not_stalled(parts: &Lent, step: &StallPart) -> Option<By>
    ensures { result ≡ rule_54 (standing_state parts.now) (stall_of step.now) }
{
    if step.target >= parts.tree.count() {
        return None;
    }
    told_of_mark(step.target, parts.tree.is_stalled(step.target))
}
