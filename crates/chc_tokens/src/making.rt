ghost use Rattle.std.specs.Prelude.{◌≡◌, ◌↔◌, Some, IfOk, IsErrOf, is_some, true, false};
ghost use Rattle.std.specs.List.{list_all};
ghost use Rattle.base.specs.Widths.{is_short};
ghost use Rattle.chc_tokens.specs.Kept.{seen_clause, seen_point, shown_clause, shown_goal, shown_proof, shown_used};
ghost use Rattle.chc_tokens.specs.Queries.{query_at};
ghost use Rattle.chc_tokens.specs.Instances.{is_instance_of, is_point_of};
ghost use Rattle.chc_tokens.specs.Tokens.{IsShownToken, is_seen};
ghost use Rattle.farkas_proof.specs.Kept.{form_of};

use crate::asking::query_of;
use crate::goal::Goal;
use crate::refuting::Shown;
use crate::seeing::Seen;
use crate::stop::TokenStop;
use crate::used::Used;
use base::{Items, Same};
use clause_form::System;
use farkas_proof::Refuted;
use lin_atoms::holds;
use std::alloc::Global;

/// Keeps a query with a refutation of its form, and makes that form to compare the two. It is
/// `OtherForm` exactly where the proof is of another form.
pub fn shown(
    alloc: Global,
    sys: &System,
    clause: u32,
    goal: Goal,
    used: Vec<Used>,
    proof: Refuted,
) -> Result<Shown, TokenStop>
    requires { is_some (query_at sys.now clause goal used.items) ≡ true }
    ensures clause { IfOk result (λ s. shown_clause s ≡ clause) }
    ensures goal { IfOk result (λ s. shown_goal s ≡ goal) }
    ensures used { IfOk result (λ s. shown_used s ≡ used.items) }
    ensures proof { IfOk result (λ s. shown_proof s ≡ proof) }
    ensures shown { IfOk result (λ s. IsShownToken sys.now s) }
    ensures other { IsErrOf result TokenStop.OtherForm → query_at sys.now clause goal used.items ≡ Some (form_of proof) → ⊥ }
    ensures stops { (IsErrOf result TokenStop.NoInstance → ⊥) × (IsErrOf result TokenStop.NotBroken → ⊥) }
{
    let query = query_of(alloc, sys, clause, &goal, used.as_slice())?;
    if !query.equals(proof.form()) {
        return Err(TokenStop::OtherForm);
    }
    Ok(Shown {
        clause,
        goal,
        used: Items::from_vec(used),
        proof,
    })
}

/// Keeps a query with a proof that is known to refute its form, as when that very form was made by
/// `query_of` and then refuted. The form isn't made again, and nothing is compared.
pub fn shown_by(sys: &System, clause: u32, goal: Goal, used: Vec<Used>, proof: Refuted) -> Shown
    requires { query_at sys.now clause goal used.items ≡ Some (form_of proof) }
    ensures clause { shown_clause result ≡ clause }
    ensures goal { shown_goal result ≡ goal }
    ensures used { shown_used result ≡ used.items }
    ensures proof { shown_proof result ≡ proof }
    ensures shown { IsShownToken sys.now result }
{
    let _sys = sys;
    Shown {
        clause,
        goal,
        used: Items::from_vec(used),
        proof,
    }
}

/// Whether the point has a value for each variable of the clause, and the guard holds there.
fn is_instance(sys: &System, clause: u32, point: &[i64]) -> bool
    ensures { result ≡ is_instance_of sys.now clause point.now }
{
    match sys.clauses().get(clause as usize) {
        Some(found) => point.len() == found.sorts.len() && holds(&found.guard, point),
        None => false,
    }
}

/// Keeps an instance of the clause. It is `NoInstance` exactly where the guard doesn't hold at the
/// point. The values are below 2^63 in magnitude, as in every model, fact and tuple; `are_short` tells
/// that. It takes no memory.
pub fn seen(sys: &System, clause: u32, point: Vec<i64>) -> Result<Seen, TokenStop>
    requires point { is_point_of sys.now clause point.items ≡ true }
    requires short { list_all is_short point.items ≡ true }
    ensures clause { IfOk result (λ s. seen_clause s ≡ clause) }
    ensures point { IfOk result (λ s. seen_point s ≡ point.items) }
    ensures seen { IfOk result (λ s. is_seen sys.now s ≡ true) }
    ensures none { IsErrOf result TokenStop.NoInstance ↔ (is_instance_of sys.now clause point.items ≡ false) }
    ensures stops { (IsErrOf result TokenStop.OtherForm → ⊥) × (IsErrOf result TokenStop.NotBroken → ⊥) × (IsErrOf result TokenStop.Memory → ⊥) }
{
    if !is_instance(sys, clause, point.as_slice()) {
        return Err(TokenStop::NoInstance);
    }
    Ok(Seen {
        clause,
        point: Items::from_vec(point),
    })
}
