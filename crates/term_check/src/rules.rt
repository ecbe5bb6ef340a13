//! What an application owes to its arguments, in the order of checking.

ghost use Rattle.std.specs.Prelude.{ℕ, ℤ, pos, ◌≡◌, ◌+◌, ◌^◌, ◌≤◌, length, ◌≤ℤ◌, ◌-◌, nat_abs};
ghost use Rattle.term_tree.specs.Sorts.{same_sort};
ghost use Rattle.term_check.specs.Rules.{fault, number_fault, first_not, first_unlike, choice_fault, sort_fault, second_sort, result_sort, varying, divisor_fault, product_fault, linear_fault, if_short, product_if_short, wide_unless, product_constant, operator_constant, applied, divisibility_fault, divisible_fault, declared_fault};
ghost use Rattle.term_check.specs.machinery.Reading.{divisor_of};

use crate::operators::{
    Sorts, is_arithmetic, is_choice, is_distinct, is_division, is_product, least_operands,
    most_operands, wanted,
};
use crate::part::{Fault, Part};
use crate::values::{product_if_short, value_if_short, varying};
use base::MOST_DISTINCT;
use term_tree::{Kind, OpKind, Sort};

/// The fault of that kind at an offset.
pub fn fault(kind: Kind, offset: u32) -> Fault
    ensures { result ≡ fault kind offset }
{
    Fault { kind, offset }
}

/// Whether `number` arguments are too few or too many for an operator that starts there.
pub fn number_fault(op: OpKind, start: u32, number: usize) -> Option<Fault>
    ensures { result ≡ number_fault op start number }
{
    if number < least_operands(op) {
        return Some(fault(Kind::Arity, start));
    }
    match most_operands(op) {
        Some(most) if most < number => Some(fault(Kind::Arity, start)),
        _ if is_distinct(op) && MOST_DISTINCT < number => Some(fault(Kind::Count, start)),
        _ => None,
    }
}

/// Whether the sorts are the same.
pub fn same_sort(a: Sort, b: Sort) -> bool
    ensures { result ≡ same_sort a b }
{
    match (a, b) {
        (Sort::Int, Sort::Int) | (Sort::Bool, Sort::Bool) => true,
        _ => false,
    }
}

fn first_not(sort: Sort, parts: &[Part]) -> Option<Fault>
    ensures { result ≡ first_not sort parts.now }
{
    for part in parts {
        if !same_sort(part.sort, sort) {
            return Some(fault(Kind::SortMismatch, part.start));
        }
    }
    None
}

fn first_unlike(parts: &[Part]) -> Option<Fault>
    ensures { result ≡ first_unlike parts.now }
{
    match parts {
        [] => None,
        [first, rest @ ..] => first_not(first.sort, rest),
    }
}

fn choice_fault(parts: &[Part]) -> Option<Fault>
    ensures { result ≡ choice_fault parts.now }
{
    match parts {
        [] => None,
        [condition, rest @ ..] => {
            if same_sort(condition.sort, Sort::Bool) {
                first_unlike(rest)
            } else {
                Some(fault(Kind::SortMismatch, condition.start))
            }
        }
    }
}

/// The first argument that is of a wrong sort.
fn sort_fault(wanted: Sorts, parts: &[Part]) -> Option<Fault>
    ensures { result ≡ sort_fault wanted parts.now }
{
    match wanted {
        Sorts::Bools => first_not(Sort::Bool, parts),
        Sorts::Ints => first_not(Sort::Int, parts),
        Sorts::Alike => first_unlike(parts),
        Sorts::Choice => choice_fault(parts),
    }
}

fn second_sort(parts: &[Part]) -> Sort
    ensures { result ≡ second_sort parts.now }
{
    match parts {
        [_, second, ..] => second.sort,
        _ => Sort::Bool,
    }
}

fn result_sort(op: OpKind, parts: &[Part]) -> Sort
    ensures { result ≡ result_sort op parts.now }
{
    if is_choice(op) {
        second_sort(parts)
    } else if is_arithmetic(op) {
        Sort::Int
    } else {
        Sort::Bool
    }
}

fn divisor_fault(start: u32, parts: &[Part]) -> Option<Fault>
    ensures { result ≡ divisor_fault start parts.now }
{
    match parts {
        [_, divisor, ..] => match divisor.constant {
            None => Some(fault(Kind::NotLinear, start)),
            Some(0) => Some(fault(Kind::ZeroDivisor, start)),
            Some(_) => None,
        },
        _ => None,
    }
}

fn product_fault(start: u32, parts: &[Part]) -> Option<Fault>
    ensures { result ≡ product_fault start parts.now }
{
    if varying(parts) > 1 {
        Some(fault(Kind::NotLinear, start))
    } else {
        None
    }
}

fn linear_fault(op: OpKind, start: u32, parts: &[Part]) -> Option<Fault>
    ensures { result ≡ linear_fault op start parts.now }
{
    if is_product(op) {
        product_fault(start, parts)
    } else if is_division(op) {
        divisor_fault(start, parts)
    } else {
        None
    }
}

fn wide_unless(start: u32, value: Option<i64>) -> Result<Option<i64>, Fault>
    ensures { result ≡ wide_unless start value }
{
    match value {
        Some(value) => Ok(Some(value)),
        None => Err(fault(Kind::TooWide, start)),
    }
}

fn product_constant(start: u32, parts: &[Part]) -> Result<Option<i64>, Fault>
    ensures { result ≡ product_constant start parts.now }
{
    match product_if_short(parts) {
        None => Err(fault(Kind::TooWide, start)),
        Some(product) => {
            if varying(parts) == 0 {
                Ok(Some(product))
            } else {
                Ok(None)
            }
        }
    }
}

fn constant_of(op: OpKind, start: u32, parts: &[Part]) -> Result<Option<i64>, Fault>
    ensures { result ≡ operator_constant op start parts.now }
{
    if is_product(op) {
        product_constant(start, parts)
    } else if is_arithmetic(op) && varying(parts) == 0 {
        wide_unless(start, value_if_short(op, parts))
    } else {
        Ok(None)
    }
}

/// What an operator at these arguments, whose number is right, is in its turn, or the first rule that
/// it breaks.
pub fn applied(op: OpKind, start: u32, parts: &[Part]) -> Result<Part, Fault>
    ensures { result ≡ applied op start parts.now }
{
    if let Some(fault) = sort_fault(wanted(op), parts) {
        return Err(fault);
    }
    if let Some(fault) = linear_fault(op, start, parts) {
        return Err(fault);
    }
    match constant_of(op, start, parts) {
        Ok(constant) => Ok(Part {
            start,
            sort: result_sort(op, parts),
            constant,
        }),
        Err(fault) => Err(fault),
    }
}

/// The rule that a predicate's arguments break first, as many as it was declared with.
pub fn declared_fault(sorts: &[Sort], parts: &[Part]) -> Option<Fault>
    ensures { result ≡ declared_fault sorts.now parts.now }
{
    let mut i = 0;
    while i < sorts.len() && i < parts.len() {
        let part = parts[i];
        if !same_sort(part.sort, sorts[i]) {
            return Some(fault(Kind::SortMismatch, part.start));
        }
        i += 1;
    }
    None
}

fn divisibility_fault(start: u32, by: Option<u64>) -> Option<Fault>
    ensures { result ≡ divisibility_fault start by }
{
    match by {
        None => Some(fault(Kind::TooWide, start)),
        Some(0) => Some(fault(Kind::ZeroDivisor, start)),
        Some(by) => {
            if by < 1 << 63 {
                None
            } else {
                Some(fault(Kind::TooWide, start))
            }
        }
    }
}

fn divisible_fault(by: Option<u64>, start: u32, parts: &[Part]) -> Option<Fault>
    ensures { result ≡ divisible_fault by start parts.now }
{
    match first_not(Sort::Int, parts) {
        Some(fault) => Some(fault),
        None => divisibility_fault(start, by),
    }
}

/// The divisor of `(_ divisible n)` at its argument, or the rule that it breaks first.
pub fn divisor(by: Option<u64>, start: u32, parts: &[Part]) -> Result<i64, Fault>
    ensures { result ≡ divisor_of by start parts.now }
{
    match divisible_fault(by, start, parts) {
        Some(fault) => Err(fault),
        None => match by {
            Some(by) => Ok(by as i64),
            None => Ok(0),
        },
    }
}
