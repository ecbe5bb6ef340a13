//! The value of a node that is a constant, over the values of its parts.

ghost use Rattle.std.specs.Prelude.{◌≡◌, ◌<◌, ◌*ℤ◌, nat_abs, pos, map, IfOk, Some, None, if◌then◌else◌};
ghost use Rattle.std.specs.Int.{int_div_euclid, int_rem_euclid};
ghost use Rattle.base.specs.Widths.{long_limit};
ghost use Rattle.term_tree.specs.Constants.{all_constant, is_arithmetic};
ghost use Rattle.term_tree.specs.Operators.{difference_of, on_two, first_of_all, sum_of};
ghost use Rattle.term_tables.specs.machinery.Table.{constant_in, short_integer, short_applied, short_constant, short_kept, short_operation, short_product, signed_sum};

use crate::kept::Kept;
use base::Memory;
use term_tree::{Node, OpKind, TermId};

/// What is known of the term of that number; nothing of one that isn't there.
pub(crate) fn constant_in(known: &[Kept], id: TermId) -> Option<i64>
    ensures { result ≡ constant_in known.now id.0 }
{
    let place = id.0 as usize;
    if place < known.len() {
        known[place].constant()
    } else {
        None
    }
}

/// Puts the values of these terms into a list, in place of what is in it, and answers whether all of
/// them have one. The values behind one without aren't put there.
fn put_constants(known: &[Kept], ids: &[TermId], constants: &mut Vec<i64>) -> Result<bool, Memory>
    ensures { IfOk result (λ all. (if all then Some constants.new.items else None) ≡ all_constant (map (λ id. constant_in known.now id.0) ids.now)) }
{
    constants.clear();
    for id in ids {
        match constant_in(known, *id) {
            Some(n) => constants.push(n)?,
            None => return Ok(false),
        }
    }
    Ok(true)
}

/// The number with 64 bits, where it is below 2^63 in magnitude.
pub(crate) fn if_short(n: i128) -> Option<i64>
    ensures { result ≡ short_integer n }
{
    if n.unsigned_abs() < 1 << 63 {
        Some(n as i64)
    } else {
        None
    }
}

/// What is known, where it is short.
fn short_kept(known: Option<i64>) -> Option<i64>
    ensures { result ≡ short_kept known }
{
    match known {
        None => None,
        Some(n) => if_short(i128::from(n)),
    }
}

fn sum(constants: &[i64]) -> i128
    ensures { result ≡ sum_of constants.now }
{
    let mut total = 0;
    for n in constants {
        total += i128::from(*n);
    }
    total
}

/// What is left of a number when others are taken away.
fn reduced(first: i64, others: &[i64]) -> i128
    ensures { result ≡ signed_sum first others.now }
{
    let mut total = i128::from(first);
    for n in others {
        total -= i128::from(*n);
    }
    total
}

fn difference(constants: &[i64]) -> i128
    ensures { result ≡ difference_of constants.now }
{
    match constants {
        [] => 0,
        [n] => -i128::from(*n),
        [first, others @ ..] => reduced(*first, others),
    }
}

fn exact_product(a: i64, b: i64) -> i128
    ensures { result ≡ a *ℤ b }
{
    i128::from(a) * i128::from(b)
}

/// The product, where each prefix of it is short.
fn product(constants: &[i64]) -> Option<i64>
    ensures { result ≡ short_product constants.now }
{
    let mut total = 1;
    for n in constants {
        match if_short(exact_product(total, *n)) {
            Some(more) => total = more,
            None => return None,
        }
    }
    Some(total)
}

/// Euclid's quotient. No legal term divides by 0.
fn quotient(m: i128, n: i128) -> i128
    requires { nat_abs m < long_limit }
    ensures { result ≡ int_div_euclid m n }
{
    if n == 0 {
        return if m < 0 { -1 } else { 0 };
    }
    if n == -1 {
        return -m;
    }
    m.div_euclid(n)
}

/// Euclid's remainder. No legal term divides by 0.
fn remainder(m: i128, n: i128) -> i128
    ensures { result ≡ int_rem_euclid m n }
{
    if n == 0 {
        return if m < 0 { 0 } else { m };
    }
    if n == -1 {
        return 0;
    }
    m.rem_euclid(n)
}

fn first_quotient(constants: &[i64]) -> i128
    ensures { result ≡ on_two int_div_euclid constants.now }
{
    match constants {
        [m, n, ..] => quotient(i128::from(*m), i128::from(*n)),
        _ => 0,
    }
}

fn first_remainder(constants: &[i64]) -> i128
    ensures { result ≡ on_two int_rem_euclid constants.now }
{
    match constants {
        [m, n, ..] => remainder(i128::from(*m), i128::from(*n)),
        _ => 0,
    }
}

fn first_absolute(constants: &[i64]) -> i128
    ensures { result ≡ pos (nat_abs (first_of_all constants.now)) }
{
    match constants {
        [] => 0,
        [n, ..] => i128::from(*n).abs(),
    }
}

/// What the operator gives for constants, where it and each prefix of a product are short.
fn short_applied(op: OpKind, constants: &[i64]) -> Option<i64>
    ensures { result ≡ short_applied op constants.now }
{
    match op {
        OpKind::Add => if_short(sum(constants)),
        OpKind::Mul => product(constants),
        OpKind::Sub => if_short(difference(constants)),
        OpKind::Abs => if_short(first_absolute(constants)),
        OpKind::Div => if_short(first_quotient(constants)),
        OpKind::Mod => if_short(first_remainder(constants)),
        _ => None,
    }
}

/// Whether the operator gives integers for integers.
fn is_arithmetic(op: OpKind) -> bool
    ensures { result ≡ is_arithmetic op }
{
    match op {
        OpKind::Add | OpKind::Mul | OpKind::Sub => true,
        OpKind::Abs | OpKind::Div | OpKind::Mod => true,
        _ => false,
    }
}

/// What the operator gives for terms that are all constant.
fn short_operation(
    op: OpKind,
    args: &[TermId],
    known: &[Kept],
    constants: &mut Vec<i64>,
) -> Result<Option<i64>, Memory>
    ensures { IfOk result (λ constant. constant ≡ short_operation op (all_constant (map (λ arg. constant_in known.now arg.0) args.now))) }
{
    if !is_arithmetic(op) {
        return Ok(None);
    }
    if !put_constants(known, args, constants)? {
        return Ok(None);
    }
    Ok(short_applied(op, constants.as_slice()))
}

/// The value of a node that is a constant, where it and the parts that it is made of are short. The
/// list serves one node after the other.
pub(crate) fn node_constant(
    node: &Node,
    known: &[Kept],
    constants: &mut Vec<i64>,
) -> Result<Option<i64>, Memory>
    ensures { IfOk result (λ constant. constant ≡ short_constant (constant_in known.now) node.now) }
{
    let constant = match node {
        Node::Num(n) => if_short(i128::from(*n)),
        Node::LetVar { bound } => short_kept(constant_in(known, *bound)),
        Node::Let { body, .. } => short_kept(constant_in(known, *body)),
        Node::Op { op, args } => short_operation(*op, args.as_slice(), known, constants)?,
        _ => None,
    };
    Ok(constant)
}
