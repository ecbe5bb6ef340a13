//! Bool terms as integers, 1 for true and 0 for false.

ghost use Rattle.std.specs.Prelude.{◌≡◌, ◌<◌, length, map, IfOk, IsTrue, true};
ghost use Rattle.std.specs.List.{list_all};
ghost use Rattle.term_tree.specs.Arena.{is_below};
ghost use Rattle.linear_terms.specs.Formula.{is_one};
ghost use Rattle.linear_terms.specs.Linear.{bit_of, is_narrow, sum_form, variable_form};
ghost use Rattle.term_formulas.specs.Written.{naming_by};
ghost use Rattle.term_formulas.specs.machinery.Bits.{bit_form};
ghost use Rattle.term_formulas.specs.machinery.Parts.{AreBits};

use crate::kinds::constant_less;
use crate::literals::{is_one, le};
use base::Memory;
use lin_atoms::{Form, Lin, WideStop};
use linear_terms::sum_form;
use std::alloc::Global;
use term_forms::{Names, auxiliary_of, name_of, variable_form};
use term_tree::{Node, TermId, Terms};

/// What stands for a Bool term as an integer: a variable, or 1 or 0.
#[derive(Clone, Copy)]
pub(crate) enum Bit {
    Variable(u32),
    Truth(bool),
}

/// What stands for the term: its auxiliary variable, or what stands for a variable, a truth value, or
/// the term that a name is bound to.
fn found_bit(terms: &Terms, names: &Names, id: TermId) -> Bit
    requires { id.0 < length terms.now.nodes }
    ensures { bit_form result ≡ bit_of (naming_by names.now) terms.now.nodes id.0 }
{
    let mut at = id;
    loop {
        let node = terms.node(at);
        if let Some(variable) = auxiliary_of(names, at) {
            return Bit::Variable(variable);
        }
        match node {
            Node::True => return Bit::Truth(true),
            Node::Var { binder, .. } => return Bit::Variable(name_of(names, *binder)),
            Node::LetVar { bound } => at = *bound,
            _ => return Bit::Truth(false),
        }
    }
}

fn form_of(alloc: Global, bit: Bit) -> Result<Lin, Memory>
    ensures { IfOk result (λ form. form ≡ bit_form bit) }
{
    match bit {
        Bit::Variable(v) => variable_form(alloc, v),
        Bit::Truth(true) => Ok(Lin::of_constant(alloc, 1)),
        Bit::Truth(false) => Ok(Lin::of_constant(alloc, 0)),
    }
}

/// The bit of the term.
pub(crate) fn bit_of(alloc: Global, terms: &Terms, names: &Names, id: TermId) -> Result<Lin, Memory>
    requires { id.0 < length terms.now.nodes }
    ensures is { IfOk result (λ form. form ≡ bit_of (naming_by names.now) terms.now.nodes id.0) }
    ensures narrow { is_narrow (bit_of (naming_by names.now) terms.now.nodes id.0) ≡ true }
{
    terms.arena_law();
    let bit = found_bit(terms, names, id);
    form_of(alloc, bit)
}

/// A variable is 1, or 0.
pub(crate) fn variable_is_one(alloc: Global, v: u32, sign: bool) -> Result<Form, Memory>
    ensures { IfOk result (λ form. form ≡ is_one sign (variable_form v)) }
{
    if sign {
        Ok(le(constant_less(alloc, v, 1)?))
    } else {
        Ok(le(variable_form(alloc, v)?))
    }
}

fn one_form(alloc: Global, bit: Bit, sign: bool) -> Result<Form, Memory>
    ensures { IfOk result (λ form. form ≡ is_one sign (bit_form bit)) }
{
    match bit {
        Bit::Variable(v) => variable_is_one(alloc, v, sign),
        Bit::Truth(true) => is_one(alloc, sign, Lin::of_constant(alloc, 1)),
        Bit::Truth(false) => is_one(alloc, sign, Lin::of_constant(alloc, 0)),
    }
}

/// The bit of the term is 1, or 0.
pub(crate) fn bit_is_one(
    alloc: Global,
    terms: &Terms,
    names: &Names,
    id: TermId,
    sign: bool,
) -> Result<Form, Memory>
    requires { id.0 < length terms.now.nodes }
    ensures { IfOk result (λ form. form ≡ is_one sign (bit_of (naming_by names.now) terms.now.nodes id.0)) }
{
    let bit = found_bit(terms, names, id);
    one_form(alloc, bit, sign)
}

/// The bits of these terms, in order.
pub(crate) fn bits_of(
    alloc: Global,
    terms: &Terms,
    names: &Names,
    ids: &[TermId],
) -> Result<Vec<Lin>, Memory>
    requires { IsTrue (list_all (is_below (length terms.now.nodes)) ids.now) }
    ensures are { IfOk result (λ bits. bits.items ≡ map (λ id. bit_of (naming_by names.now) terms.now.nodes id.0) ids.now) }
    ensures bits { AreBits (map (λ id. bit_of (naming_by names.now) terms.now.nodes id.0) ids.now) }
{
    terms.arena_law();
    let mut bits = Vec::with_capacity(alloc, ids.len())?;
    for id in ids {
        bits.push(bit_of(alloc, terms, names, *id)?)?;
    }
    Ok(bits)
}

/// The sum of the bits of these terms. It has room: no number in it is above how many they are.
pub(crate) fn sum_of_bits(
    alloc: Global,
    terms: &Terms,
    names: &Names,
    ids: &[TermId],
) -> Result<Lin, Memory>
    requires { IsTrue (list_all (is_below (length terms.now.nodes)) ids.now) }
    ensures is { IfOk result (λ sum. sum ≡ sum_form (map (λ id. bit_of (naming_by names.now) terms.now.nodes id.0) ids.now)) }
    ensures narrow { IfOk result (λ sum. IsTrue (is_narrow sum)) }
{
    let bits = bits_of(alloc, terms, names, ids)?;
    match sum_form(alloc, bits.as_slice()) {
        Ok(sum) => Ok(sum),
        Err(WideStop::Memory) => Err(Memory),
        Err(WideStop::Wide) => unreachable!(),
    }
}
