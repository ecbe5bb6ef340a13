//! The first rule that a step breaks. The rules of a kind of step are tried in the order of their
//! numbers.

ghost use Rattle.std.specs.Prelude.{◌≡◌, IfOk, true};
ghost use Rattle.book_rules.specs.Rules.{broken, broken_derive, broken_fact, broken_lemma, broken_lift, broken_open, broken_raise, broken_stall, broken_strengthen};
ghost use Rattle.book_rules.specs.Places.{has_places};
ghost use Rattle.step_rules.specs.Taken.{derive_of, record_of, learn_of, lift_of, open_of, raise_of, stall_of, step_of, strengthen_of};
ghost use Rattle.step_rules.specs.Standing.{standing_state};
ghost use Rattle.step_rules.specs.declared.step.Step.TheVariants.{StallStep};
ghost use Rattle.step_rules.specs.Standing.{IsStanding};

use crate::derive_step::part::DerivePart;
use crate::derive_step::rules::{
    derive_rule_70_premises_are_body, derive_rule_71_conclusion_is_new,
};
use crate::fact_step::part::FactPart;
use crate::fact_step::rules::{
    fact_rule_20_premises_are_body, fact_rule_21_conclusion_is_new, fact_rule_22_target_is_live,
    fact_rule_23_target_holds_conclusion,
};
use crate::lemma_step::part::LemmaPart;
use crate::lemma_step::rules::{
    lemma_rule_10_level_is_in_book, lemma_rule_11_each_clause_has_proof,
    lemma_rule_12_used_lemmas_are_below, lemma_rule_13_target_is_live,
    lemma_rule_14_target_point_is_excluded,
};
use crate::lent::Lent;
use crate::lift_step::part::LiftPart;
use crate::lift_step::rules::{
    lift_rule_30_lemma_has_level, lift_rule_31_level_above_is_in_book,
    lift_rule_32_each_clause_has_proof, lift_rule_33_used_lemmas_are_in_frame,
};
use crate::open_step::part::OpenPart;
use crate::open_step::rivals::{
    open_rule_7_no_sibling_holds_point, open_rule_8_fewer_than_four_children,
};
use crate::open_step::rules::{
    open_rule_1_parent_is_live, open_rule_2_parent_level_is_at_least_2,
    open_rule_3_clause_area_and_cube_fit, open_rule_4_parent_holds_head,
    open_rule_5_no_lemma_shuts_body_out, open_rule_6_no_fact_lies_in_cube,
    open_rule_9_area_knows_frame_below,
};
use crate::raise_step::part::RaisePart;
use crate::raise_step::rules::{
    raise_rule_40_each_query_has_proof, raise_rule_41_used_lemmas_are_in_frame,
    raise_rule_42_each_lower_lemma_has_no_lift, raise_rule_43_no_lemma_shuts_instance_out,
    raise_rule_44_evidence_uses_frame,
};
use crate::stall_step::part::StallPart;
use crate::stall_step::rules::{
    stall_rule_50_target_is_live, stall_rule_51_target_has_no_child,
    stall_rule_52_evidence_fits_target, stall_rule_53_used_lemmas_are_below,
    stall_rule_54_target_is_not_stalled,
};
use crate::step::Step;
use crate::strengthen_step::part::StrengthenPart;
use crate::strengthen_step::rules::{
    strengthen_rule_80_lemma_is_over_predicate, strengthen_rule_81_level_is_in_book,
    strengthen_rule_82_each_clause_has_proof, strengthen_rule_83_used_lemmas_are_below,
};
use base::Memory;
use book_rules::By;

/// Of an Open.
fn broken_open(parts: &Lent, step: &OpenPart) -> Result<Option<(u8, By)>, Memory>
    requires kept { IsStanding parts.now }
    ensures { IfOk result (λ b. b ≡ broken_open parts.now.system (standing_state parts.now) (open_of step.now)) }
{
    if let Some(by) = open_rule_1_parent_is_live(parts, step) {
        return Ok(Some((1, by)));
    }
    if let Some(by) = open_rule_2_parent_level_is_at_least_2(parts, step) {
        return Ok(Some((2, by)));
    }
    if let Some(by) = open_rule_3_clause_area_and_cube_fit(parts, step)? {
        return Ok(Some((3, by)));
    }
    if let Some(by) = open_rule_4_parent_holds_head(parts, step)? {
        return Ok(Some((4, by)));
    }
    if let Some(by) = open_rule_5_no_lemma_shuts_body_out(parts, step)? {
        return Ok(Some((5, by)));
    }
    if let Some(by) = open_rule_6_no_fact_lies_in_cube(parts, step) {
        return Ok(Some((6, by)));
    }
    if let Some(by) = open_rule_7_no_sibling_holds_point(parts, step)? {
        return Ok(Some((7, by)));
    }
    if let Some(by) = open_rule_8_fewer_than_four_children(parts, step) {
        return Ok(Some((8, by)));
    }
    if let Some(by) = open_rule_9_area_knows_frame_below(parts, step)? {
        return Ok(Some((9, by)));
    }
    Ok(None)
}

/// Of a Lemma.
fn broken_lemma(parts: &Lent, step: &LemmaPart) -> Result<Option<(u8, By)>, Memory>
    requires kept { IsStanding parts.now }
    ensures { IfOk result (λ b. b ≡ broken_lemma parts.now.system (standing_state parts.now) (learn_of step.now)) }
{
    if let Some(by) = lemma_rule_10_level_is_in_book(parts, step) {
        return Ok(Some((10, by)));
    }
    if let Some(by) = lemma_rule_11_each_clause_has_proof(parts, step)? {
        return Ok(Some((11, by)));
    }
    if let Some(by) = lemma_rule_12_used_lemmas_are_below(parts, step)? {
        return Ok(Some((12, by)));
    }
    if let Some(by) = lemma_rule_13_target_is_live(parts, step) {
        return Ok(Some((13, by)));
    }
    if let Some(by) = lemma_rule_14_target_point_is_excluded(parts, step) {
        return Ok(Some((14, by)));
    }
    Ok(None)
}

/// Of a Fact.
fn broken_fact(parts: &Lent, step: &FactPart) -> Result<Option<(u8, By)>, Memory>
    requires kept { IsStanding parts.now }
    ensures { IfOk result (λ b. b ≡ broken_fact parts.now.system (standing_state parts.now) (record_of step.now)) }
{
    if let Some(by) = fact_rule_20_premises_are_body(parts, step)? {
        return Ok(Some((20, by)));
    }
    if let Some(by) = fact_rule_21_conclusion_is_new(parts, step)? {
        return Ok(Some((21, by)));
    }
    if let Some(by) = fact_rule_22_target_is_live(parts, step)? {
        return Ok(Some((22, by)));
    }
    if let Some(by) = fact_rule_23_target_holds_conclusion(parts, step)? {
        return Ok(Some((23, by)));
    }
    Ok(None)
}

/// Of a Lift.
fn broken_lift(parts: &Lent, step: &LiftPart) -> Result<Option<(u8, By)>, Memory>
    requires kept { IsStanding parts.now }
    ensures { IfOk result (λ b. b ≡ broken_lift parts.now.system (standing_state parts.now) (lift_of step.now)) }
{
    if let Some(by) = lift_rule_30_lemma_has_level(parts, step) {
        return Ok(Some((30, by)));
    }
    if let Some(by) = lift_rule_31_level_above_is_in_book(parts, step) {
        return Ok(Some((31, by)));
    }
    if let Some(by) = lift_rule_32_each_clause_has_proof(parts, step)? {
        return Ok(Some((32, by)));
    }
    if let Some(by) = lift_rule_33_used_lemmas_are_in_frame(parts, step) {
        return Ok(Some((33, by)));
    }
    Ok(None)
}

/// Of a Raise.
fn broken_raise(parts: &Lent, step: &RaisePart) -> Result<Option<(u8, By)>, Memory>
    requires kept { IsStanding parts.now }
    ensures { IfOk result (λ b. b ≡ broken_raise parts.now.system (standing_state parts.now) (raise_of step.now)) }
{
    if let Some(by) = raise_rule_40_each_query_has_proof(parts, step) {
        return Ok(Some((40, by)));
    }
    if let Some(by) = raise_rule_41_used_lemmas_are_in_frame(parts, step) {
        return Ok(Some((41, by)));
    }
    if let Some(by) = raise_rule_42_each_lower_lemma_has_no_lift(parts, step) {
        return Ok(Some((42, by)));
    }
    if let Some(by) = raise_rule_43_no_lemma_shuts_instance_out(parts, step)? {
        return Ok(Some((43, by)));
    }
    if let Some(by) = raise_rule_44_evidence_uses_frame(parts, step) {
        return Ok(Some((44, by)));
    }
    Ok(None)
}

/// Of a Stall.
fn broken_stall(parts: &Lent, step: &StallPart) -> Result<Option<(u8, By)>, Memory>
    requires kept { IsStanding parts.now }
    requires places { has_places parts.now.system (step_of (StallStep step.now)) ≡ true }
    ensures { IfOk result (λ b. b ≡ broken_stall parts.now.system (standing_state parts.now) (stall_of step.now)) }
{
    if let Some(by) = stall_rule_50_target_is_live(parts, step) {
        return Ok(Some((50, by)));
    }
    if let Some(by) = stall_rule_51_target_has_no_child(parts, step) {
        return Ok(Some((51, by)));
    }
    if let Some(by) = stall_rule_52_evidence_fits_target(parts, step)? {
        return Ok(Some((52, by)));
    }
    if let Some(by) = stall_rule_53_used_lemmas_are_below(parts, step) {
        return Ok(Some((53, by)));
    }
    if let Some(by) = stall_rule_54_target_is_not_stalled(parts, step) {
        return Ok(Some((54, by)));
    }
    Ok(None)
}

/// Of a Derive.
fn broken_derive(parts: &Lent, step: &DerivePart) -> Result<Option<(u8, By)>, Memory>
    requires kept { IsStanding parts.now }
    ensures { IfOk result (λ b. b ≡ broken_derive parts.now.system (standing_state parts.now) (derive_of step.now)) }
{
    if let Some(by) = derive_rule_70_premises_are_body(parts, step)? {
        return Ok(Some((70, by)));
    }
    if let Some(by) = derive_rule_71_conclusion_is_new(parts, step)? {
        return Ok(Some((71, by)));
    }
    Ok(None)
}

/// Of a Strengthen.
fn broken_strengthen(parts: &Lent, step: &StrengthenPart) -> Result<Option<(u8, By)>, Memory>
    requires kept { IsStanding parts.now }
    ensures { IfOk result (λ b. b ≡ broken_strengthen parts.now.system (standing_state parts.now) (strengthen_of step.now)) }
{
    if let Some(by) = strengthen_rule_80_lemma_is_over_predicate(parts, step) {
        return Ok(Some((80, by)));
    }
    if let Some(by) = strengthen_rule_81_level_is_in_book(parts, step) {
        return Ok(Some((81, by)));
    }
    if let Some(by) = strengthen_rule_82_each_clause_has_proof(parts, step)? {
        return Ok(Some((82, by)));
    }
    if let Some(by) = strengthen_rule_83_used_lemmas_are_below(parts, step)? {
        return Ok(Some((83, by)));
    }
    Ok(None)
}

/// The number of the first rule that the step breaks, and what breaks it.
pub fn broken_step(parts: &Lent, step: &Step) -> Result<Option<(u8, By)>, Memory>
    requires kept { IsStanding parts.now }
    requires places { has_places parts.now.system (step_of step.now) ≡ true }
    ensures { IfOk result (λ b. b ≡ broken parts.now.system (standing_state parts.now) (step_of step.now)) }
{
    match step {
        Step::OpenStep(step) => broken_open(parts, step),
        Step::LemmaStep(step) => broken_lemma(parts, step),
        Step::FactStep(step) => broken_fact(parts, step),
        Step::LiftStep(step) => broken_lift(parts, step),
        Step::RaiseStep(step) => broken_raise(parts, step),
        Step::StallStep(step) => broken_stall(parts, step),
        Step::DeriveStep(step) => broken_derive(parts, step),
        Step::StrengthenStep(step) => broken_strengthen(parts, step),
    }
}
