ghost use Rattle.std.specs.Prelude.{◌≡◌, ◌↔◌, ◌<◌, ℕ, length, map, true, false, IfOk, OnOk, IsErrOf, IsTrue, option_map, Some, None, slice_index_or, Option};
ghost use Rattle.std.specs.Ordering.{nat_cmp};
ghost use Rattle.term_tree.specs.declared.scalar.Value.TheVariants.{Bool as Truth};
ghost use Rattle.term_tree.specs.Operators.{divides, integer};
ghost use Rattle.term_tree.specs.Subterms.{IsSubterm};
ghost use Rattle.term_tree.specs.Value.{environment_of, node_worth, value_of};
ghost use Rattle.term_tree.specs.machinery.Walk.{has_number, IsClosed};
ghost use Rattle.term_tree.specs.Width.{is_wide, IsWideTerm};
ghost use Rattle.term_tree.specs.machinery.Known.{known_worth, fitting_worth, AreKnown};

use crate::arithmetic::remainder;
use crate::logic::integer;
use crate::node::{Node, TermId};
use crate::operators::apply;
use crate::scalar::Value;
use crate::subterms::subterms;
use crate::terms::Terms;
use base::Memory;
use std::alloc::Global;
use std::collections::BTreeMap;
use thiserror::Error;

/// Why a term has no value here.
#[derive(Debug, Drop, Error)]
pub enum ValueStop {
    #[error("out of memory")]
    Memory,
    /// The exact value of this subterm, or of a prefix of its sum, product or difference, doesn't fit
    /// 128 bits.
    #[error("a value past 128 bits")]
    ValueWide { term: TermId },
}

impl From<Memory> for ValueStop {
    ghost use Rattle.std.specs.Prelude.{◌≡◌};
    ghost use Rattle.term_tree.specs.declared.evaluation.ValueStop.TheVariants.{Memory as OutOfMemory};

    ghost from_gives = { λ _ e. e ≡ OutOfMemory };

    fn from(_: Memory) -> ValueStop {
        ValueStop::Memory
    }
}

/// The value of a term where its variables have these values; a variable past their end is false. It
/// is meant for terms without predicates and quantifiers, which count as false here. Each subterm is
/// evaluated once.
pub fn value(alloc: Global, terms: &Terms, id: TermId, env: &[Value]) -> Result<Value, ValueStop>
    requires { id.0 < length terms.now.nodes }
    ensures value { IfOk result (λ v. v ≡ value_of terms.now.nodes id.0 (environment_of env.now)) }
    ensures fitting { OnOk result ((part : ℕ) → IsSubterm terms.now.nodes id.0 part → IsWideTerm terms.now.nodes part (environment_of env.now) → ⊥) }
    ensures wide { (term : TermId) → IsErrOf result (ValueStop.ValueWide term) → IsSubterm terms.now.nodes id.0 term.0 × IsWideTerm terms.now.nodes term.0 (environment_of env.now) }
{
    let ids = subterms(alloc, terms, id)?;
    let known = values(alloc, terms, ids.as_slice(), env)?;
    Ok(looked_up(&known, id))
}

/// The values of these terms, each before its parts, by number.
fn values(
    alloc: Global,
    terms: &Terms,
    ids: &[u32],
    env: &[Value],
) -> Result<BTreeMap<u32, Value>, ValueStop>
    requires there { (q : ℕ) → has_number q ids.now ≡ true → q < length terms.now.nodes }
    requires closed { IsClosed terms.now.nodes (λ q. false) ids.now }
    ensures known { IfOk result (λ known. AreKnown terms.now.nodes (environment_of env.now) known ids.now) }
    ensures fitting { OnOk result ((q : ℕ) → has_number q ids.now ≡ true → IsWideTerm terms.now.nodes q (environment_of env.now) → ⊥) }
    ensures wide { (term : TermId) → IsErrOf result (ValueStop.ValueWide term) → (has_number term.0 ids.now ≡ true) × IsWideTerm terms.now.nodes term.0 (environment_of env.now) }
{
    let mut known = BTreeMap::new(alloc);
    let mut at = ids.len();
    while at > 0 {
        at -= 1;
        let id = TermId(ids[at]);
        let Some(value) = node_value(alloc, terms.node(id), &known, env)? else {
            return Err(ValueStop::ValueWide { term: id });
        };
        put(&mut known, id, value)?;
    }
    Ok(known)
}

fn put(known: &mut BTreeMap<u32, Value>, id: TermId, value: Value) -> Result<(), Memory>
    ensures at { OnOk result (known_worth known.new id.0 ≡ value) }
    ensures others { OnOk result ((q : ℕ) → (id.0 ≡ q → ⊥) → known_worth known.new q ≡ known_worth known.old q) }
{
    known.insert(id.0, value)?;
    Ok(())
}

/// The value of that term; false if it isn't known.
fn looked_up(known: &BTreeMap<u32, Value>, id: TermId) -> Value
    ensures { result ≡ known_worth known.now id.0 }
{
    known.get(&id.0).copied().unwrap_or(Value::Bool(false))
}

fn all_looked_up(
    alloc: Global,
    known: &BTreeMap<u32, Value>,
    ids: &[TermId],
) -> Result<Vec<Value>, Memory>
    ensures { IfOk result (λ values. values.items ≡ map (λ id. known_worth known.now id.0) ids.now) }
{
    let mut values = Vec::with_capacity(alloc, ids.len())?;
    for id in ids {
        values.push(looked_up(known, *id))?;
    }
    Ok(values)
}

fn variable(env: &[Value], binder: u32) -> Value
    ensures { result ≡ environment_of env.now binder }
{
    let place = binder as usize;
    if place < env.len() {
        env[place]
    } else {
        Value::Bool(false)
    }
}

/// The value of a node over the known values of its parts, unless it is wide.
fn node_value(
    alloc: Global,
    node: &Node,
    known: &BTreeMap<u32, Value>,
    env: &[Value],
) -> Result<Option<Value>, Memory>
    ensures { IfOk result (λ value. value ≡ fitting_worth (λ q e. known_worth known.now q) node.now (environment_of env.now)) }
{
    let value = match node {
        Node::Num(n) => Value::Int(i128::from(*n)),
        Node::True => Value::Bool(true),
        Node::False => Value::Bool(false),
        Node::Var { binder, .. } => variable(env, *binder),
        Node::LetVar { bound } => looked_up(known, *bound),
        Node::Pred { .. } => Value::Bool(false),
        Node::Op { op, args } => {
            let values = all_looked_up(alloc, known, args.as_slice())?;
            return Ok(apply(*op, values.as_slice()));
        }
        Node::Divisible { by, arg } => Value::Bool(is_divisible(*by, &looked_up(known, *arg))),
        Node::Let { body, .. } => looked_up(known, *body),
        Node::Forall { .. } | Node::Exists { .. } => Value::Bool(false),
    };
    Ok(Some(value))
}

fn is_divisible(by: i64, value: &Value) -> bool
    ensures { result ≡ divides by (integer value.now) }
{
    remainder(integer(value), i128::from(by)) == 0
}
