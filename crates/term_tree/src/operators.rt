ghost use Rattle.std.specs.Prelude.{◌≡◌, map, option_map};
ghost use Rattle.std.specs.Int.{int_div_euclid, int_rem_euclid};
ghost use Rattle.term_tree.specs.Operators.{integer, on_two};
ghost use Rattle.term_tree.specs.declared.scalar.Value.TheVariants.{Int};
ghost use Rattle.term_tree.specs.Width.{checked, fitting_result};

use crate::arithmetic::{absolute, difference, number, product, quotient, remainder, sum};
use crate::logic::{
    are_all, choice, is_any, is_chained, is_distinct, is_exclusive, is_implied, is_negated,
};
use crate::node::OpKind;
use crate::scalar::Value;

fn as_value(n: Option<i128>) -> Option<Value>
    ensures { result ≡ option_map Int n }
{
    match n {
        None => None,
        Some(n) => Some(Value::Int(n)),
    }
}

/// What the operator gives for these values, where all of its exact results fit 128 bits.
pub(crate) fn apply(op: OpKind, values: &[Value]) -> Option<Value>
    ensures { result ≡ fitting_result op values.now }
{
    match op {
        OpKind::Not => Some(Value::Bool(is_negated(values))),
        OpKind::And => Some(Value::Bool(are_all(values))),
        OpKind::Or => Some(Value::Bool(is_any(values))),
        OpKind::Xor => Some(Value::Bool(is_exclusive(values))),
        OpKind::Implies => Some(Value::Bool(is_implied(values))),
        OpKind::Eq | OpKind::Le | OpKind::Lt | OpKind::Ge | OpKind::Gt => {
            Some(Value::Bool(is_chained(op, values)))
        }
        OpKind::Distinct => Some(Value::Bool(is_distinct(values))),
        OpKind::Ite => Some(choice(values)),
        OpKind::Mod => Some(Value::Int(remainder_of(values))),
        OpKind::Add => as_value(sum(values)),
        OpKind::Mul => as_value(product(values)),
        OpKind::Sub => as_value(difference(values)),
        OpKind::Abs => as_value(absolute(number(values, 0))),
        OpKind::Div => as_value(quotient_of(values)),
    }
}

fn quotient_of(values: &[Value]) -> Option<i128>
    ensures { result ≡ checked (on_two int_div_euclid (map integer values.now)) }
{
    if values.len() < 2 {
        return Some(0);
    }
    quotient(number(values, 0), number(values, 1))
}

fn remainder_of(values: &[Value]) -> i128
    ensures { result ≡ on_two int_rem_euclid (map integer values.now) }
{
    if values.len() < 2 {
        return 0;
    }
    remainder(number(values, 0), number(values, 1))
}
