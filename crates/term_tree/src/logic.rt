ghost use Rattle.std.specs.Prelude.{◌≡◌, map, not};
ghost use Rattle.std.specs.List.{list_all, list_any};
ghost use Rattle.term_tree.specs.Operators.{truth, integer, same_value, chained, pairwise, implied, exclusive, negation_of, choice_of};
ghost use Rattle.term_tree.specs.Relations.{relation_of};

use crate::node::OpKind;
use crate::scalar::Value;

/// The truth value; false for an integer.
pub(crate) fn truth(value: &Value) -> bool
    ensures { result ≡ truth value.now }
{
    match value {
        Value::Int(_) => false,
        Value::Bool(b) => *b,
    }
}

/// The integer; 0 for a truth value.
pub(crate) fn integer(value: &Value) -> i128
    ensures { result ≡ integer value.now }
{
    match value {
        Value::Int(n) => *n,
        Value::Bool(_) => 0,
    }
}

fn same(x: &Value, y: &Value) -> bool
    ensures { result ≡ same_value x.now y.now }
{
    match (x, y) {
        (Value::Int(m), Value::Int(n)) => *m == *n,
        (Value::Bool(a), Value::Bool(b)) => *a == *b,
        _ => false,
    }
}

/// Whether neighbours with these values stand in the operator's relation.
fn holds(op: OpKind, x: &Value, y: &Value) -> bool
    ensures { result ≡ relation_of op x.now y.now }
{
    match op {
        OpKind::Eq => same(x, y),
        OpKind::Le => integer(x) <= integer(y),
        OpKind::Lt => integer(x) < integer(y),
        OpKind::Ge => integer(y) <= integer(x),
        OpKind::Gt => integer(y) < integer(x),
        _ => false,
    }
}

pub(crate) fn is_chained(op: OpKind, values: &[Value]) -> bool
    ensures { result ≡ chained (relation_of op) values.now }
{
    for i in 1..values.len() {
        if !holds(op, &values[i - 1], &values[i]) {
            return false;
        }
    }
    true
}

fn differs_from_all(value: &Value, others: &[Value]) -> bool
    ensures { result ≡ list_all (λ y. not (same_value value.now y)) others.now }
{
    others.iter().all(|other| !same(value, other))
}

pub(crate) fn is_distinct(values: &[Value]) -> bool
    ensures { result ≡ pairwise (λ x y. not (same_value x y)) values.now }
{
    for (i, value) in values.iter().enumerate() {
        if !differs_from_all(value, &values[i + 1..]) {
            return false;
        }
    }
    true
}

pub(crate) fn is_negated(values: &[Value]) -> bool
    ensures { result ≡ negation_of (map truth values.now) }
{
    !values.is_empty() && !truth(&values[0])
}

pub(crate) fn are_all(values: &[Value]) -> bool
    ensures { result ≡ list_all truth values.now }
{
    values.iter().all(|value| truth(value))
}

pub(crate) fn is_any(values: &[Value]) -> bool
    ensures { result ≡ list_any truth values.now }
{
    values.iter().any(|value| truth(value))
}

pub(crate) fn is_exclusive(values: &[Value]) -> bool
    ensures { result ≡ exclusive (map truth values.now) }
{
    let mut so_far = false;
    for value in values {
        so_far = so_far != truth(value);
    }
    so_far
}

/// Associated to the right: true where a part before the last is false, or the last is true.
pub(crate) fn is_implied(values: &[Value]) -> bool
    ensures { result ≡ implied (map truth values.now) }
{
    for (i, value) in values.iter().enumerate() {
        let holds = truth(value);
        if i + 1 == values.len() {
            return holds;
        }
        if !holds {
            return true;
        }
    }
    true
}

pub(crate) fn choice(values: &[Value]) -> Value
    ensures { result ≡ choice_of values.now }
{
    if values.len() < 3 {
        return Value::Bool(false);
    }
    if truth(&values[0]) {
        values[1]
    } else {
        values[2]
    }
}
