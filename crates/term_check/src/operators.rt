//! The table of operators: their names, how many arguments they take, and of which sorts.

ghost use Rattle.std.specs.Prelude.{◌≡◌};
ghost use Rattle.term_tree.specs.Constants.{is_arithmetic};
ghost use Rattle.term_tree.specs.Operators.{is_distinct};
ghost use Rattle.term_check.specs.Operators.{core_operator, number_operator, order_operator, operator_named, least_operands, most_operands, wanted, is_division, is_product, is_choice};

use crate::bytes::are_same;
use term_tree::OpKind;

/// Which sorts the arguments of an operator have.
#[derive(Clone, Copy, Debug, PartialEq, Eq)]
pub enum Sorts {
    Bools,
    Ints,
    /// All have one sort.
    Alike,
    /// A Bool, and then two of one sort.
    Choice,
}

fn core_operator(name: &[u8]) -> Option<OpKind>
    ensures { result ≡ core_operator name.now }
{
    if are_same(name, b"not") {
        Some(OpKind::Not)
    } else if are_same(name, b"and") {
        Some(OpKind::And)
    } else if are_same(name, b"or") {
        Some(OpKind::Or)
    } else if are_same(name, b"xor") {
        Some(OpKind::Xor)
    } else if are_same(name, b"=>") {
        Some(OpKind::Implies)
    } else if are_same(name, b"=") {
        Some(OpKind::Eq)
    } else if are_same(name, b"distinct") {
        Some(OpKind::Distinct)
    } else if are_same(name, b"ite") {
        Some(OpKind::Ite)
    } else {
        None
    }
}

fn number_operator(name: &[u8]) -> Option<OpKind>
    ensures { result ≡ number_operator name.now }
{
    if are_same(name, b"+") {
        Some(OpKind::Add)
    } else if are_same(name, b"*") {
        Some(OpKind::Mul)
    } else if are_same(name, b"-") {
        Some(OpKind::Sub)
    } else if are_same(name, b"abs") {
        Some(OpKind::Abs)
    } else if are_same(name, b"div") {
        Some(OpKind::Div)
    } else if are_same(name, b"mod") {
        Some(OpKind::Mod)
    } else {
        None
    }
}

fn order_operator(name: &[u8]) -> Option<OpKind>
    ensures { result ≡ order_operator name.now }
{
    if are_same(name, b"<=") {
        Some(OpKind::Le)
    } else if are_same(name, b"<") {
        Some(OpKind::Lt)
    } else if are_same(name, b">=") {
        Some(OpKind::Ge)
    } else if are_same(name, b">") {
        Some(OpKind::Gt)
    } else {
        None
    }
}

/// The operator of that name.
pub fn operator_named(name: &[u8]) -> Option<OpKind>
    ensures { result ≡ operator_named name.now }
{
    match core_operator(name) {
        Some(op) => Some(op),
        None => match number_operator(name) {
            Some(op) => Some(op),
            None => order_operator(name),
        },
    }
}

/// How many arguments an operator takes at least.
pub fn least_operands(op: OpKind) -> usize
    ensures { result ≡ least_operands op }
{
    match op {
        OpKind::Not | OpKind::And | OpKind::Or | OpKind::Add => 1,
        OpKind::Mul | OpKind::Sub | OpKind::Abs => 1,
        OpKind::Xor | OpKind::Implies | OpKind::Eq | OpKind::Distinct => 2,
        OpKind::Div | OpKind::Mod => 2,
        OpKind::Le | OpKind::Lt | OpKind::Ge | OpKind::Gt => 2,
        OpKind::Ite => 3,
    }
}

/// How many arguments an operator takes at most, if there is a number. That `distinct` is limited
/// is another rule.
pub fn most_operands(op: OpKind) -> Option<usize>
    ensures { result ≡ most_operands op }
{
    match op {
        OpKind::Not | OpKind::Abs => Some(1),
        OpKind::Div | OpKind::Mod => Some(2),
        OpKind::Ite => Some(3),
        _ => None,
    }
}

/// The sorts of the arguments.
pub fn wanted(op: OpKind) -> Sorts
    ensures { result ≡ wanted op }
{
    match op {
        OpKind::Not | OpKind::And | OpKind::Or | OpKind::Xor | OpKind::Implies => Sorts::Bools,
        OpKind::Eq | OpKind::Distinct => Sorts::Alike,
        OpKind::Ite => Sorts::Choice,
        _ => Sorts::Ints,
    }
}

/// Whether the operator gives an integer for integers.
pub fn is_arithmetic(op: OpKind) -> bool
    ensures { result ≡ is_arithmetic op }
{
    match op {
        OpKind::Add | OpKind::Mul | OpKind::Sub | OpKind::Abs | OpKind::Div | OpKind::Mod => true,
        _ => false,
    }
}

/// Whether it is `div` or `mod`.
pub fn is_division(op: OpKind) -> bool
    ensures { result ≡ is_division op }
{
    match op {
        OpKind::Div | OpKind::Mod => true,
        _ => false,
    }
}

pub fn is_product(op: OpKind) -> bool
    ensures { result ≡ is_product op }
{
    match op {
        OpKind::Mul => true,
        _ => false,
    }
}

/// Whether it is `ite`.
pub fn is_choice(op: OpKind) -> bool
    ensures { result ≡ is_choice op }
{
    match op {
        OpKind::Ite => true,
        _ => false,
    }
}

pub fn is_distinct(op: OpKind) -> bool
    ensures { result ≡ is_distinct op }
{
    match op {
        OpKind::Distinct => true,
        _ => false,
    }
}
