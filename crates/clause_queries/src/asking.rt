//! One query about a clause.

ghost use Rattle.std.specs.Prelude.{◌≡◌, ◌<◌, ◌≤◌, Some, length, true, IfOk, IfSome};
ghost use Rattle.std.specs.List.{list_all};
ghost use Rattle.base.specs.Widths.{is_short};
ghost use Rattle.base.specs.Limits.{most_variables};
ghost use Rattle.farkas_proof.specs.Kept.{form_of};
ghost use Rattle.chc_tokens.specs.Instances.{is_instance_of, is_point_of};
ghost use Rattle.chc_tokens.specs.Kept.{seen_clause, seen_point};
ghost use Rattle.chc_tokens.specs.Queries.{query_at};
ghost use Rattle.chc_tokens.specs.Tokens.{is_seen};
ghost use Rattle.clause_queries.specs.machinery.Asking.{IsAnswer, MayAsk};

use crate::lost::Lost;
use base::{Items, Memory};
use chc_tokens::{
    Goal, Seen, Shown, TokenStop, Used, base_of, checked_query_of, forms_of, seen, shown_by,
};
use clause_form::{Clause, System};
use farkas_proof::{CheckStop, Refuted, check_owned};
use lia_cases::{Decision, decide_owned};
use lin_atoms::Form;
use refutation_trees::Refutation;
use std::alloc::Global;

/// What was found of a query.
#[derive(Drop)]
pub(crate) enum Asked {
    /// An instance that meets the goal, whose body the used lemmas accept.
    Instance(Seen),
    /// There is none.
    Refuted(Shown),
    /// The search was given up.
    GivenUp(Lost),
}

/// Keeps a model of a query as an instance of its clause.
fn instance(sys: &System, clause: u32, point: Vec<i64>) -> Seen
    requires point { is_point_of sys.now clause point.items ≡ true }
    requires short { list_all is_short point.items ≡ true }
    requires guard { is_instance_of sys.now clause point.items ≡ true }
    ensures clause { seen_clause result ≡ clause }
    ensures point { seen_point result ≡ point.items }
    ensures seen { is_seen sys.now result ≡ true }
{
    match seen(sys, clause, point) {
        Ok(seen) => seen,
        Err(TokenStop::NoInstance) => unreachable!(),
        Err(TokenStop::OtherForm) => unreachable!(),
        Err(TokenStop::NotBroken) => unreachable!(),
        Err(TokenStop::Memory) => unreachable!(),
    }
}

/// How many variables the clause has.
fn variables(clause: &Clause) -> u32
    requires { length clause.now.sorts ≤ most_variables }
    ensures { result ≡ length clause.now.sorts }
{
    clause.sorts.len() as u32
}

/// Asks whether the clause has an instance that meets the goal and whose body the used lemmas accept.
pub(crate) fn ask(
    alloc: Global,
    sys: &System,
    clause: u32,
    goal: Goal,
    used: Vec<Used>,
    nodes: u32,
) -> Result<Asked, Memory>
    requires asks { MayAsk sys.now clause goal used.items }
    requires some { 0 < nodes }
    ensures { IfOk result (IsAnswer sys.now clause goal used.items nodes) }
{
    let base = base_of(alloc, sys, clause, &goal)?;
    let forms = forms_of(alloc, sys, clause, used.as_slice())?;
    let own = sys.clause(clause as usize);
    let vars = variables(own);
    let decision = decide_owned(alloc, base, forms, vars, nodes)?;
    match decision {
        Decision::Model(point) => Ok(Asked::Instance(instance(sys, clause, point))),
        Decision::Refuted(proof) => Ok(Asked::Refuted(shown_by(sys, clause, goal, used, proof))),
        Decision::GaveUp(evidence) => {
            let used = Items::from_vec(used);
            Ok(Asked::GivenUp(Lost {
                clause,
                used,
                evidence,
            }))
        }
    }
}

/// The form's refutation by this tree, if it is one.
fn checked(alloc: Global, form: Form, tree: Refutation) -> Result<Option<Refuted>, Memory>
    ensures { IfOk result (λ found. IfSome found (λ proof. form_of proof ≡ form)) }
{
    match check_owned(alloc, form, tree) {
        Ok(proof) => Ok(Some(proof)),
        Err(CheckStop::Memory) => Err(Memory),
        Err(CheckStop::NoProof { node }) => {
            let _node = node;
            Ok(None)
        }
        Err(CheckStop::SumWide { node }) => {
            let _node = node;
            Ok(None)
        }
    }
}

/// The query's refutation by this tree, if it is one.
fn refuted_by(
    alloc: Global,
    sys: &System,
    clause: u32,
    goal: &Goal,
    used: &[Used],
    tree: Refutation,
) -> Result<Option<Refuted>, Memory>
    ensures { IfOk result (λ found. IfSome found (λ proof. query_at sys.now clause goal.now used.now ≡ Some (form_of proof))) }
{
    match checked_query_of(alloc, sys, clause, goal, used)? {
        Some(query) => {
            let found = checked(alloc, query, tree)?;
            match found {
                Some(proof) => Ok(Some(proof)),
                None => Ok(None),
            }
        }
        None => Ok(None),
    }
}

/// Asks whether the clause has an instance that meets the goal and whose body the used lemmas accept. A
/// tree that may refute the query is looked at before the search, which is made where there is none or
/// it is no refutation.
pub(crate) fn ask_by(
    alloc: Global,
    sys: &System,
    clause: u32,
    goal: Goal,
    used: Vec<Used>,
    nodes: u32,
    tree: Option<Refutation>,
) -> Result<Asked, Memory>
    requires asks { MayAsk sys.now clause goal used.items }
    requires some { 0 < nodes }
    ensures { IfOk result (IsAnswer sys.now clause goal used.items nodes) }
{
    let tree = match tree {
        Some(tree) => tree,
        None => return ask(alloc, sys, clause, goal, used, nodes),
    };
    match refuted_by(alloc, sys, clause, &goal, used.as_slice(), tree)? {
        Some(proof) => Ok(Asked::Refuted(shown_by(sys, clause, goal, used, proof))),
        None => ask(alloc, sys, clause, goal, used, nodes),
    }
}
