//! Where a Bool term is true, or where it is false.

ghost use Rattle.std.specs.Prelude.{◌≡◌, ◌<◌, ◌<ℤ◌, Some, [], ◌∷◌, length, map, pos, nat_abs, slice_get, IfOk, OnOk, IsTrue, if◌then◌else◌};
ghost use Rattle.lin_atoms.specs.declared.lit.Lit.TheVariants.{Div, NDiv};
ghost use Rattle.lin_atoms.specs.declared.form.Form.TheVariants.{Lit as Literal};
ghost use Rattle.lin_atoms.specs.declared.form.Form.TheViews.{And, Or};
ghost use Rattle.linear_terms.specs.Text.{are_truths, is_truth};
ghost use Rattle.linear_terms.specs.Linear.{bit_of, is_narrow, variable_form};
ghost use Rattle.linear_terms.specs.Formula.{choice, comparison, denied, implication_forms, is_one, le, node_formula, complement_of, operation};
ghost use Rattle.term_tables.specs.machinery.Table.{constant_in, sort_in};
ghost use Rattle.term_forms.specs.Found.{AreFound, form_by};
ghost use Rattle.term_widths.specs.machinery.Seen.{IsNarrowTerm};
ghost use Rattle.term_formulas.specs.Written.{HasRoom, formula_by, naming_by, reading_by};
ghost use Rattle.term_formulas.specs.machinery.Parts.{ComparesWithRoom, HaveRoom, each};

use crate::bits::{bit_is_one, bit_of, bits_of, sum_of_bits, variable_is_one};
use crate::literals::{both, either, joined, le, odd, one_minus, truth};
use crate::relations::{compared_bits, compared_numbers};
use crate::sides::of_sides;
use base::{Items, Memory};
use lin_atoms::{Divisor, Form, Lin, Lit};
use std::alloc::Global;
use std::collections::BTreeMap;
use term_forms::{Names, name_of};
use term_tables::{ConstantTable, SortTable};
use term_tree::{Node, OpKind, Sort, TermId, Terms};
use term_widths::{narrow_form, narrow_forms};

pub(crate) fn is_truth(sorts: &SortTable, id: TermId) -> bool
    ensures { result ≡ is_truth (sort_in sorts.now) id.0 }
{
    match sorts.sort(id) {
        Some(Sort::Bool) => true,
        _ => false,
    }
}

pub(crate) fn are_truths(sorts: &SortTable, ids: &[TermId]) -> bool
    ensures { result ≡ are_truths (sort_in sorts.now) ids.now }
{
    match ids {
        [] => false,
        [id, ..] => is_truth(sorts, *id),
    }
}

/// The number divides the term, or doesn't.
fn divisible(by: i64, lin: Lin, sign: bool) -> Form
    requires { pos 0 <ℤ by }
    ensures { result ≡ (if sign then Literal (Div (nat_abs by) lin) else Literal (NDiv (nat_abs by) lin)) }
{
    let Some(divisor) = Divisor::new(by) else {
        unreachable!()
    };
    if sign {
        Form::Lit(Lit::Div(divisor, lin))
    } else {
        Form::Lit(Lit::NDiv(divisor, lin))
    }
}

/// A variable is 1, or 0.
fn of_variable(alloc: Global, names: &Names, binder: u32, sign: bool) -> Result<Form, Memory>
    ensures { IfOk result (λ form. form ≡ is_one sign (variable_form ((naming_by names.now).own binder))) }
{
    variable_is_one(alloc, name_of(names, binder), sign)
}

/// The number divides the term of that number, or doesn't.
fn of_divisible(
    alloc: Global,
    terms: &Terms,
    constants: &ConstantTable,
    names: &Names,
    known: &mut BTreeMap<u32, Lin>,
    by: i64,
    arg: TermId,
    sign: bool,
) -> Result<Form, Memory>
    requires some { pos 0 <ℤ by }
    requires there { arg.0 < length terms.now.nodes }
    requires narrow { IsNarrowTerm (constant_in constants.now) (naming_by names.now) terms.now.nodes arg.0 }
    requires known { AreFound (constant_in constants.now) (naming_by names.now) terms.now.nodes known.old }
    ensures is { IfOk result (λ form. form ≡ (if sign then Literal (Div (nat_abs by)
        (form_by (constant_in constants.now) (naming_by names.now) terms.now.nodes arg.0)) else Literal
        (NDiv (nat_abs by) (form_by (constant_in constants.now) (naming_by names.now) terms.now.nodes arg.0)))) }
    ensures known { OnOk result (AreFound (constant_in constants.now) (naming_by names.now) terms.now.nodes known.new) }
{
    let lin = narrow_form(alloc, terms, constants, names, known, arg)?;
    Ok(divisible(by, lin, sign))
}

/// Where the Bool term is true, or where it is false. A name stands as the bit of its term, and so the
/// formula is no larger than the text of the term up to names.
#[cycle(write)]
pub fn formula(
    alloc: Global,
    terms: &Terms,
    sorts: &SortTable,
    constants: &ConstantTable,
    names: &Names,
    known: &mut BTreeMap<u32, Lin>,
    id: TermId,
    sign: bool,
) -> Result<Form, Memory>
    requires room { HasRoom (constant_in constants.now) (naming_by names.now) terms.now.nodes id.0 }
    requires known { AreFound (constant_in constants.now) (naming_by names.now) terms.now.nodes known.old }
    ensures is { IfOk result (λ form. form ≡ formula_by (constant_in constants.now) (sort_in sorts.now) (naming_by names.now) terms.now.nodes id.0 sign) }
    ensures known { OnOk result (AreFound (constant_in constants.now) (naming_by names.now) terms.now.nodes known.new) }
{
    let node = terms.node(id);
    let made = of_node(alloc, terms, sorts, constants, names, known, id, node, sign)?;
    Ok(made)
}

/// Where the Bool term of that number is true, or where it is false, by its node.
#[cycle(write)]
fn of_node(
    alloc: Global,
    terms: &Terms,
    sorts: &SortTable,
    constants: &ConstantTable,
    names: &Names,
    known: &mut BTreeMap<u32, Lin>,
    id: TermId,
    node: &Node,
    sign: bool,
) -> Result<Form, Memory>
    requires node { slice_get terms.now.nodes id.0 ≡ Some node.now }
    requires room { HasRoom (constant_in constants.now) (naming_by names.now) terms.now.nodes id.0 }
    requires known { AreFound (constant_in constants.now) (naming_by names.now) terms.now.nodes known.old }
    ensures is { IfOk result (λ form. form ≡ node_formula (reading_by (constant_in constants.now) (sort_in sorts.now) (naming_by names.now) terms.now.nodes)
        (naming_by names.now) (formula_by (constant_in constants.now) (sort_in sorts.now) (naming_by names.now) terms.now.nodes) node.now sign) }
    ensures known { OnOk result (AreFound (constant_in constants.now) (naming_by names.now) terms.now.nodes known.new) }
{
    terms.arena_law();
    match node {
        Node::True => Ok(truth(sign)),
        Node::False => Ok(truth(!sign)),
        Node::Var { binder, .. } => of_variable(alloc, names, *binder, sign),
        Node::LetVar { bound } => bit_is_one(alloc, terms, names, *bound, sign),
        Node::Op { op, args } => operation(
            alloc,
            terms,
            sorts,
            constants,
            names,
            known,
            id,
            *op,
            args.as_slice(),
            sign,
        ),
        Node::Divisible { by, arg } => {
            of_divisible(alloc, terms, constants, names, known, *by, *arg, sign)
        }
        Node::Let { body, .. } => {
            formula(alloc, terms, sorts, constants, names, known, *body, sign)
        }
        Node::Num(_) => Ok(Form::False),
        Node::Pred { .. } => Ok(Form::False),
        Node::Forall { .. } => Ok(Form::False),
        Node::Exists { .. } => Ok(Form::False),
    }
}

/// Where the Bool term of that number is true, or where it is false, by its operator and its arguments.
#[cycle(write)]
fn operation(
    alloc: Global,
    terms: &Terms,
    sorts: &SortTable,
    constants: &ConstantTable,
    names: &Names,
    known: &mut BTreeMap<u32, Lin>,
    id: TermId,
    op: OpKind,
    args: &[TermId],
    sign: bool,
) -> Result<Form, Memory>
    requires room { HaveRoom (constant_in constants.now) (naming_by names.now) terms.now.nodes id.0 args.now }
    requires sides { ComparesWithRoom (constant_in constants.now) (naming_by names.now) terms.now.nodes op args.now }
    requires known { AreFound (constant_in constants.now) (naming_by names.now) terms.now.nodes known.old }
    ensures is { IfOk result (λ form. form ≡ operation (reading_by (constant_in constants.now) (sort_in sorts.now) (naming_by names.now) terms.now.nodes)
        (formula_by (constant_in constants.now) (sort_in sorts.now) (naming_by names.now) terms.now.nodes) op args.now sign) }
    ensures known { OnOk result (AreFound (constant_in constants.now) (naming_by names.now) terms.now.nodes known.new) }
{
    match op {
        OpKind::Not => denied(alloc, terms, sorts, constants, names, known, id, args, sign),
        OpKind::And => {
            let parts = each(alloc, terms, sorts, constants, names, known, id, args, sign)?;
            Ok(joined(sign, parts))
        }
        OpKind::Or => {
            let parts = each(alloc, terms, sorts, constants, names, known, id, args, sign)?;
            Ok(joined(!sign, parts))
        }
        OpKind::Implies => {
            let parts = implied(alloc, terms, sorts, constants, names, known, id, args, sign)?;
            Ok(joined(!sign, parts))
        }
        OpKind::Xor => Ok(odd(sign, sum_of_bits(alloc, terms, names, args)?)),
        OpKind::Ite => choice(alloc, terms, sorts, constants, names, known, id, args, sign),
        _ => comparison(alloc, terms, sorts, constants, names, known, op, args, sign),
    }
}

/// A relation of Bool terms by their bits, or of integer terms by their differences.
fn comparison(
    alloc: Global,
    terms: &Terms,
    sorts: &SortTable,
    constants: &ConstantTable,
    names: &Names,
    known: &mut BTreeMap<u32, Lin>,
    op: OpKind,
    args: &[TermId],
    sign: bool,
) -> Result<Form, Memory>
    requires sides { ComparesWithRoom (constant_in constants.now) (naming_by names.now) terms.now.nodes op args.now }
    requires known { AreFound (constant_in constants.now) (naming_by names.now) terms.now.nodes known.old }
    ensures is { IfOk result (λ form. form ≡ comparison op (are_truths (sort_in sorts.now) args.now) sign (map
        (λ arg. bit_of (naming_by names.now) terms.now.nodes arg.0) args.now) (map
        (λ arg. form_by (constant_in constants.now) (naming_by names.now) terms.now.nodes arg.0) args.now)) }
    ensures known { OnOk result (AreFound (constant_in constants.now) (naming_by names.now) terms.now.nodes known.new) }
{
    if are_truths(sorts, args) {
        let bits = bits_of(alloc, terms, names, args)?;
        compared_bits(alloc, op, sign, bits.as_slice())
    } else if let [a, b] = args {
        of_sides(alloc, terms, constants, names, known, op, *a, *b, sign)
    } else {
        let forms = narrow_forms(alloc, terms, constants, names, known, args)?;
        compared_numbers(alloc, op, sign, forms.as_slice())
    }
}

/// The formulas of some parts of the term of that number, in order.
#[cycle(write)]
fn each(
    alloc: Global,
    terms: &Terms,
    sorts: &SortTable,
    constants: &ConstantTable,
    names: &Names,
    known: &mut BTreeMap<u32, Lin>,
    above: TermId,
    ids: &[TermId],
    sign: bool,
) -> Result<Items<Form>, Memory>
    requires room { HaveRoom (constant_in constants.now) (naming_by names.now) terms.now.nodes above.0 ids.now }
    requires known { AreFound (constant_in constants.now) (naming_by names.now) terms.now.nodes known.old }
    ensures is { IfOk result (λ forms. forms ≡ each (formula_by (constant_in constants.now) (sort_in sorts.now) (naming_by names.now) terms.now.nodes) sign ids.now) }
    ensures known { OnOk result (AreFound (constant_in constants.now) (naming_by names.now) terms.now.nodes known.new) }
{
    let mut forms = Items::from_vec(Vec::with_capacity(alloc, ids.len())?);
    for id in ids {
        let form = formula(alloc, terms, sorts, constants, names, known, *id, sign)?;
        forms.push(form)?;
    }
    Ok(forms)
}

/// Where the first of these is false, or true.
#[cycle(write)]
fn denied(
    alloc: Global,
    terms: &Terms,
    sorts: &SortTable,
    constants: &ConstantTable,
    names: &Names,
    known: &mut BTreeMap<u32, Lin>,
    above: TermId,
    ids: &[TermId],
    sign: bool,
) -> Result<Form, Memory>
    requires room { HaveRoom (constant_in constants.now) (naming_by names.now) terms.now.nodes above.0 ids.now }
    requires known { AreFound (constant_in constants.now) (naming_by names.now) terms.now.nodes known.old }
    ensures is { IfOk result (λ form. form ≡ denied (formula_by (constant_in constants.now) (sort_in sorts.now) (naming_by names.now) terms.now.nodes) sign ids.now) }
    ensures known { OnOk result (AreFound (constant_in constants.now) (naming_by names.now) terms.now.nodes known.new) }
{
    match ids {
        [] => Ok(Form::False),
        [id, ..] => formula(alloc, terms, sorts, constants, names, known, *id, !sign),
    }
}

/// The parts of an implication: not those before the last, or the last.
#[cycle(write)]
fn implied(
    alloc: Global,
    terms: &Terms,
    sorts: &SortTable,
    constants: &ConstantTable,
    names: &Names,
    known: &mut BTreeMap<u32, Lin>,
    above: TermId,
    ids: &[TermId],
    sign: bool,
) -> Result<Items<Form>, Memory>
    requires room { HaveRoom (constant_in constants.now) (naming_by names.now) terms.now.nodes above.0 ids.now }
    requires known { AreFound (constant_in constants.now) (naming_by names.now) terms.now.nodes known.old }
    ensures is { IfOk result (λ forms. forms ≡ implication_forms (formula_by (constant_in constants.now) (sort_in sorts.now) (naming_by names.now) terms.now.nodes) sign ids.now) }
    ensures known { OnOk result (AreFound (constant_in constants.now) (naming_by names.now) terms.now.nodes known.new) }
{
    match ids {
        [] => Ok(Items::new(alloc)),
        [before @ .., last] => {
            let mut forms = each(
                alloc, terms, sorts, constants, names, known, above, before, !sign,
            )?;
            let form = formula(alloc, terms, sorts, constants, names, known, *last, sign)?;
            forms.push(form)?;
            Ok(forms)
        }
    }
}

/// A choice between two Bool terms: the one where the condition's bit is 1, and the other where it is
/// 0.
#[cycle(write)]
fn choice(
    alloc: Global,
    terms: &Terms,
    sorts: &SortTable,
    constants: &ConstantTable,
    names: &Names,
    known: &mut BTreeMap<u32, Lin>,
    above: TermId,
    ids: &[TermId],
    sign: bool,
) -> Result<Form, Memory>
    requires room { HaveRoom (constant_in constants.now) (naming_by names.now) terms.now.nodes above.0 ids.now }
    requires known { AreFound (constant_in constants.now) (naming_by names.now) terms.now.nodes known.old }
    ensures is { IfOk result (λ form. form ≡ choice (formula_by (constant_in constants.now) (sort_in sorts.now) (naming_by names.now) terms.now.nodes)
        (bit_of (naming_by names.now) terms.now.nodes) sign ids.now) }
    ensures known { OnOk result (AreFound (constant_in constants.now) (naming_by names.now) terms.now.nodes known.new) }
{
    match ids {
        [c, s, r] => {
            branches(
                alloc, terms, sorts, constants, names, known, above, *c, *s, *r, sign,
            )
        }
        _ => Ok(Form::False),
    }
}

/// A choice between two Bool terms by the condition and the branches: the one where the condition's bit
/// is 1, and the other where it is 0.
#[cycle(write)]
fn branches(
    alloc: Global,
    terms: &Terms,
    sorts: &SortTable,
    constants: &ConstantTable,
    names: &Names,
    known: &mut BTreeMap<u32, Lin>,
    above: TermId,
    c: TermId,
    s: TermId,
    r: TermId,
    sign: bool,
) -> Result<Form, Memory>
    requires bit { c.0 < length terms.now.nodes }
    requires smaller { s.0 < above.0 }
    requires chosen { HasRoom (constant_in constants.now) (naming_by names.now) terms.now.nodes s.0 }
    requires less { r.0 < above.0 }
    requires other { HasRoom (constant_in constants.now) (naming_by names.now) terms.now.nodes r.0 }
    requires known { AreFound (constant_in constants.now) (naming_by names.now) terms.now.nodes known.old }
    ensures is { IfOk result (λ form. form ≡ choice (formula_by (constant_in constants.now) (sort_in sorts.now) (naming_by names.now) terms.now.nodes)
        (bit_of (naming_by names.now) terms.now.nodes) sign (c ∷ s ∷ r ∷ [])) }
    ensures known { OnOk result (AreFound (constant_in constants.now) (naming_by names.now) terms.now.nodes known.new) }
{
    let bit = bit_of(alloc, terms, names, c)?;
    let chosen = formula(alloc, terms, sorts, constants, names, known, s, sign)?;
    let other = formula(alloc, terms, sorts, constants, names, known, r, sign)?;
    of_choice(alloc, bit, chosen, other)
}

fn of_choice(alloc: Global, bit: Lin, chosen: Form, other: Form) -> Result<Form, Memory>
    requires { IsTrue (is_narrow bit) }
    ensures { IfOk result (λ form. form ≡ And (Or (le bit ∷ chosen ∷ []) ∷ Or (le (complement_of bit) ∷ other ∷ []) ∷ [])) }
{
    let not_one = one_minus(alloc, &bit)?;
    let one = either(alloc, le(bit), chosen)?;
    let two = either(alloc, le(not_one), other)?;
    both(alloc, one, two)
}
