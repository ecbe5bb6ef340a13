//! Relations of sides.

ghost use Rattle.std.specs.Prelude.{◌≡◌, ◌++◌, map, not, IfOk, OnOk, IsTrue, false, true, if◌then◌else◌};
ghost use Rattle.std.specs.List.{list_any};
ghost use Rattle.term_tree.specs.declared.node.OpKind.TheVariants.{Ge, Gt, Le as AtMost, Lt};
ghost use Rattle.term_tree.specs.Operators.{is_distinct};
ghost use Rattle.lin_atoms.specs.Algebra.{added};
ghost use Rattle.linear_terms.specs.Linear.{is_narrow, less};
ghost use Rattle.linear_terms.specs.Formula.{equal, joined, neighbours, pairs, related, same_bits, sides};
ghost use Rattle.linear_terms.specs.Width.{is_relation};
ghost use Rattle.term_widths.specs.Sides.{is_wide_pair};
ghost use Rattle.term_formulas.specs.machinery.Parts.{AreBits, IsBit};

use crate::literals::{eq, equal, joined, le, one_minus, one_more};
use base::{Copied, Items, Memory};
use lin_atoms::{Form, Lin, WideStop};
use linear_terms::less;
use std::alloc::Global;
use term_tree::OpKind;
use term_widths::is_relation;

/// A difference that has room.
pub(crate) fn narrow_less(alloc: Global, a: &Lin, b: &Lin) -> Result<Lin, Memory>
    requires { IsTrue (is_narrow (less a.now b.now)) }
    ensures is { IfOk result (λ d. d ≡ less a.now b.now) }
{
    match less(alloc, a, b) {
        Ok(d) => Ok(d),
        Err(WideStop::Memory) => Err(Memory),
        Err(WideStop::Wide) => unreachable!(),
    }
}

fn at_most(alloc: Global, sign: bool, d: Lin) -> Result<Form, Memory>
    requires { IsTrue (is_narrow d) }
    ensures { IfOk result (λ form. form ≡ related AtMost sign d) }
{
    if sign {
        return Ok(le(d));
    }
    Ok(le(one_minus(alloc, &d)?))
}

fn below(alloc: Global, sign: bool, d: Lin) -> Result<Form, Memory>
    requires { IsTrue (is_narrow d) }
    ensures { IfOk result (λ form. form ≡ related Lt sign d) }
{
    if sign {
        return Ok(le(one_more(d)));
    }
    Ok(le(d.negated(alloc)?))
}

fn at_least(alloc: Global, sign: bool, d: Lin) -> Result<Form, Memory>
    requires { IsTrue (is_narrow d) }
    ensures { IfOk result (λ form. form ≡ related Ge sign d) }
{
    if sign {
        return Ok(le(d.negated(alloc)?));
    }
    Ok(le(one_more(d)))
}

fn above(alloc: Global, sign: bool, d: Lin) -> Result<Form, Memory>
    requires { IsTrue (is_narrow d) }
    ensures { IfOk result (λ form. form ≡ related Gt sign d) }
{
    if sign {
        return Ok(le(one_minus(alloc, &d)?));
    }
    Ok(le(d))
}

/// The relation of two sides with this difference, or its denial.
pub(crate) fn by_difference(alloc: Global, op: OpKind, sign: bool, d: Lin) -> Result<Form, Memory>
    requires { IsTrue (is_narrow d) }
    ensures { IfOk result (λ form. form ≡ related op sign d) }
{
    match op {
        OpKind::Eq => equal(alloc, sign, d),
        OpKind::Distinct => equal(alloc, !sign, d),
        OpKind::Le => at_most(alloc, sign, d),
        OpKind::Lt => below(alloc, sign, d),
        OpKind::Ge => at_least(alloc, sign, d),
        OpKind::Gt => above(alloc, sign, d),
        _ => Ok(Form::False),
    }
}

/// A formula, and its denial.
pub(crate) struct Both {
    pub(crate) holds: Form,
    pub(crate) fails: Form,
}

/// A difference is 0, and isn't.
fn equal_or_not(alloc: Global, d: Lin) -> Result<Both, Memory>
    requires { IsTrue (is_narrow d) }
    ensures holds { IfOk result (λ both. both.holds ≡ equal true d) }
    ensures fails { IfOk result (λ both. both.fails ≡ equal false d) }
{
    let holds = eq(d.copy(alloc)?);
    let fails = equal(alloc, false, d)?;
    Ok(Both { holds, fails })
}

/// The relation of two sides with this difference, and its denial.
pub(crate) fn both_by_difference(alloc: Global, op: OpKind, d: Lin) -> Result<Both, Memory>
    requires { IsTrue (is_narrow d) }
    ensures holds { IfOk result (λ both. both.holds ≡ related op true d) }
    ensures fails { IfOk result (λ both. both.fails ≡ related op false d) }
{
    match op {
        OpKind::Eq => equal_or_not(alloc, d),
        OpKind::Distinct => {
            let Both { holds, fails } = equal_or_not(alloc, d)?;
            Ok(Both {
                holds: fails,
                fails: holds,
            })
        }
        OpKind::Le => {
            let fails = le(one_minus(alloc, &d)?);
            Ok(Both {
                holds: le(d),
                fails,
            })
        }
        OpKind::Lt => {
            let fails = le(d.negated(alloc)?);
            Ok(Both {
                holds: le(one_more(d)),
                fails,
            })
        }
        OpKind::Ge => {
            let holds = le(d.negated(alloc)?);
            Ok(Both {
                holds,
                fails: le(one_more(d)),
            })
        }
        OpKind::Gt => {
            let holds = le(one_minus(alloc, &d)?);
            Ok(Both {
                holds,
                fails: le(d),
            })
        }
        _ => Ok(Both {
            holds: Form::False,
            fails: Form::False,
        }),
    }
}

/// The relation of two sides, or its denial.
fn related(alloc: Global, op: OpKind, sign: bool, a: &Lin, b: &Lin) -> Result<Form, Memory>
    requires { IsTrue (is_relation op) → IsTrue (is_narrow (less a.now b.now)) }
    ensures { IfOk result (λ form. form ≡ related op sign (less a.now b.now)) }
{
    if !is_relation(op) {
        return Ok(Form::False);
    }
    let d = narrow_less(alloc, a, b)?;
    by_difference(alloc, op, sign, d)
}

fn related_with(
    alloc: Global,
    op: OpKind,
    sign: bool,
    first: &Lin,
    others: &[Lin],
    out: &mut Items<Form>,
) -> Result<(), Memory>
    requires { IsTrue (is_relation op) → list_any is_wide_pair (map (λ other. (first.now, other)) others.now) ≡ false }
    ensures { OnOk result (out.new ≡ out.old ++ map (λ other. related op sign (less first.now other)) others.now) }
{
    for other in others {
        out.push(related(alloc, op, sign, first, other)?)?;
    }
    Ok(())
}

/// The relations of all pairs of sides, by the first side and then by the second.
fn related_pairs(
    alloc: Global,
    op: OpKind,
    sign: bool,
    forms: &[Lin],
) -> Result<Items<Form>, Memory>
    requires { IsTrue (is_relation op) → list_any is_wide_pair (pairs forms.now) ≡ false }
    ensures { IfOk result (λ parts. parts ≡ map (λ p. related op sign (less p.0 p.1)) (pairs forms.now)) }
{
    let mut parts = Items::new(alloc);
    for i in 0..forms.len() {
        related_with(alloc, op, sign, &forms[i], &forms[i + 1..], &mut parts)?;
    }
    Ok(parts)
}

/// The relations of neighbours.
fn related_neighbours(
    alloc: Global,
    op: OpKind,
    sign: bool,
    forms: &[Lin],
) -> Result<Items<Form>, Memory>
    requires { IsTrue (is_relation op) → list_any is_wide_pair (neighbours forms.now) ≡ false }
    ensures { IfOk result (λ parts. parts ≡ map (λ p. related op sign (less p.0 p.1)) (neighbours forms.now)) }
{
    let mut parts = Items::from_vec(Vec::with_capacity(alloc, forms.len().saturating_sub(1))?);
    for i in 1..forms.len() {
        parts.push(related(alloc, op, sign, &forms[i - 1], &forms[i])?)?;
    }
    Ok(parts)
}

/// A relation of integer terms with these forms, or its denial.
pub(crate) fn compared_numbers(
    alloc: Global,
    op: OpKind,
    sign: bool,
    forms: &[Lin],
) -> Result<Form, Memory>
    requires { IsTrue (is_relation op) → list_any is_wide_pair (sides op forms.now) ≡ false }
    ensures { IfOk result (λ form. form ≡ joined sign (map (λ p. related op sign (less p.0 p.1)) (sides op forms.now))) }
{
    match op {
        OpKind::Distinct => Ok(joined(sign, related_pairs(alloc, op, sign, forms)?)),
        _ => Ok(joined(sign, related_neighbours(alloc, op, sign, forms)?)),
    }
}

/// The sum of two bits, which has room.
fn sum_of_two(alloc: Global, a: &Lin, b: &Lin) -> Result<Lin, Memory>
    requires { IsBit a.now × IsBit b.now }
    ensures { IfOk result (λ sum. sum ≡ added a.now b.now) }
{
    match a.added(alloc, b) {
        Ok(sum) => Ok(sum),
        Err(WideStop::Memory) => Err(Memory),
        Err(WideStop::Wide) => unreachable!(),
    }
}

/// One of two bits is 1, and not the other.
fn other_bit(alloc: Global, a: &Lin, b: &Lin) -> Result<Form, Memory>
    requires { IsBit a.now × IsBit b.now }
    ensures { IfOk result (λ form. form ≡ same_bits false a.now b.now) }
{
    let sum = sum_of_two(alloc, a, b)?;
    match sum.plus(-1) {
        Some(less) => Ok(eq(less)),
        None => unreachable!(),
    }
}

/// Two bits are the same, or not. A bit is a variable, 0 or 1.
fn same_bits(alloc: Global, sign: bool, a: &Lin, b: &Lin) -> Result<Form, Memory>
    requires { IsBit a.now × IsBit b.now }
    ensures { IfOk result (λ form. form ≡ same_bits sign a.now b.now) }
{
    if sign {
        return Ok(eq(narrow_less(alloc, a, b)?));
    }
    other_bit(alloc, a, b)
}

fn same_with(
    alloc: Global,
    sign: bool,
    first: &Lin,
    others: &[Lin],
    out: &mut Items<Form>,
) -> Result<(), Memory>
    requires { IsBit first.now × AreBits others.now }
    ensures { OnOk result (out.new ≡ out.old ++ map (λ other. same_bits sign first.now other) others.now) }
{
    for other in others {
        out.push(same_bits(alloc, sign, first, other)?)?;
    }
    Ok(())
}

fn same_pairs(alloc: Global, sign: bool, bits: &[Lin]) -> Result<Items<Form>, Memory>
    requires { AreBits bits.now }
    ensures { IfOk result (λ parts. parts ≡ map (λ p. same_bits sign p.0 p.1) (pairs bits.now)) }
{
    let mut parts = Items::new(alloc);
    for i in 0..bits.len() {
        same_with(alloc, sign, &bits[i], &bits[i + 1..], &mut parts)?;
    }
    Ok(parts)
}

fn same_neighbours(alloc: Global, sign: bool, bits: &[Lin]) -> Result<Items<Form>, Memory>
    requires { AreBits bits.now }
    ensures { IfOk result (λ parts. parts ≡ map (λ p. same_bits sign p.0 p.1) (neighbours bits.now)) }
{
    let mut parts = Items::from_vec(Vec::with_capacity(alloc, bits.len().saturating_sub(1))?);
    for i in 1..bits.len() {
        parts.push(same_bits(alloc, sign, &bits[i - 1], &bits[i])?)?;
    }
    Ok(parts)
}

/// A relation of Bool terms with these bits, or its denial.
pub(crate) fn compared_bits(
    alloc: Global,
    op: OpKind,
    sign: bool,
    bits: &[Lin],
) -> Result<Form, Memory>
    requires { AreBits bits.now }
    ensures { IfOk result (λ form. form ≡ joined sign (map (λ p. same_bits (if is_distinct op then not sign else sign) p.0 p.1) (sides op bits.now))) }
{
    match op {
        OpKind::Distinct => Ok(joined(sign, same_pairs(alloc, !sign, bits)?)),
        _ => Ok(joined(sign, same_neighbours(alloc, sign, bits)?)),
    }
}
