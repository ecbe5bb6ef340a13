//! Values of the variables of a clause.

ghost use Rattle.std.specs.Prelude.{◌≡◌};
ghost use Rattle.term_tree.specs.Operators.{same_value, truth};
ghost use Rattle.term_tree.specs.Value.{environment_of};
ghost use Rattle.check_derivation.specs.machinery.Tests.{agree, fits};

use term_tree::{Sort, Value};

/// Whether the value is of the sort.
fn fits(sort: Sort, given: Value) -> bool
    ensures { result ≡ fits sort given }
{
    match (sort, given) {
        (Sort::Int, Value::Int(_)) => true,
        (Sort::Bool, Value::Bool(_)) => true,
        _ => false,
    }
}

/// Whether there is a value of its sort for each of the sorts.
pub(crate) fn all_fit(sorts: &[Sort], values: &[Value]) -> bool
    ensures { result ≡ agree fits sorts.now values.now }
{
    if sorts.len() != values.len() {
        return false;
    }
    for (i, sort) in sorts.iter().enumerate() {
        if !fits(*sort, values[i]) {
            return false;
        }
    }
    true
}

/// The value of the variable of that number; past their end it is false.
pub(crate) fn variable(values: &[Value], binder: u32) -> Value
    ensures { result ≡ environment_of values.now binder }
{
    let place = binder as usize;
    if place < values.len() {
        values[place]
    } else {
        Value::Bool(false)
    }
}

/// The truth value; false for an integer.
pub(crate) fn truth(given: &Value) -> bool
    ensures { result ≡ truth given.now }
{
    match given {
        Value::Int(_) => false,
        Value::Bool(b) => *b,
    }
}

/// Whether the two are one value.
pub(crate) fn same(x: &Value, y: &Value) -> bool
    ensures { result ≡ same_value x.now y.now }
{
    match (x, y) {
        (Value::Int(m), Value::Int(n)) => *m == *n,
        (Value::Bool(a), Value::Bool(b)) => *a == *b,
        _ => false,
    }
}
