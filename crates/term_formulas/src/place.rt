//! What determines auxiliary variables.

ghost use Rattle.std.specs.Prelude.{◌≡◌, ◌<◌, ◌+◌, ◌++◌, ◌^◌, length, nat_abs, slice_get, Some, IfOk, OnOk, IsTrue, false};
ghost use Rattle.term_tree.specs.declared.node.OpKind.TheVariants.{Abs, Div as Quotient, Ite, Mod as Remainder};
ghost use Rattle.term_tree.specs.declared.node.Node.TheVariants.{Op};
ghost use Rattle.linear_terms.specs.Linear.{bit_of, less, variable_form};
ghost use Rattle.linear_terms.specs.Formula.{eq};
ghost use Rattle.linear_terms.specs.Place.{abs_place, choice_place, integer_place, quotient_place, remainder_place};
ghost use Rattle.lin_atoms.specs.Linear.{is_short};
ghost use Rattle.term_tables.specs.machinery.Table.{constant_in, sort_in};
ghost use Rattle.term_forms.specs.Found.{AreFound, form_by};
ghost use Rattle.term_formulas.specs.Written.{HasRoom, naming_by, place_form_by, place_forms_by, value_by};
ghost use Rattle.term_formulas.specs.machinery.Fresh.{IsFresh};
ghost use Rattle.term_formulas.specs.machinery.Parts.{ArePlaces, IsApart, IsMadeOf, is_shaped, is_unit_node};

use crate::bits::bit_of;
use crate::kinds::{
    abs_place, choice_place, quotient_place, remainder_place, truth_place, variable_less,
};
use crate::literals::eq;
use crate::relations::Both;
use crate::sides::less_leaf;
use crate::truths::formulas;
use crate::writing::is_truth;
use base::{Items, Memory};
use lin_atoms::{Form, Lin};
use std::alloc::Global;
use std::collections::BTreeMap;
use term_forms::Names;
use term_tables::{ConstantTable, SortTable};
use term_tree::{Node, OpKind, TermId, Terms};
use term_widths::narrow_form;

/// The value of a divisor, which is a constant.
fn value_of(constants: &ConstantTable, id: TermId) -> i64
    ensures { result ≡ value_by (constant_in constants.now) id.0 }
{
    constants.constant(id).unwrap_or(0)
}

/// The form of a term that the place is made of. The place's variable isn't in it.
fn part_form(
    alloc: Global,
    terms: &Terms,
    constants: &ConstantTable,
    names: &Names,
    known: &mut BTreeMap<u32, Lin>,
    v: u32,
    id: TermId,
    part: TermId,
) -> Result<Lin, Memory>
    requires part { IsMadeOf terms.now.nodes id.0 part.0 }
    requires room { HasRoom (constant_in constants.now) (naming_by names.now) terms.now.nodes id.0 }
    requires fresh { IsFresh terms.now.nodes (naming_by names.now) v id.0 }
    requires known { AreFound (constant_in constants.now) (naming_by names.now) terms.now.nodes known.old }
    ensures is { IfOk result (λ form. form ≡ form_by (constant_in constants.now) (naming_by names.now) terms.now.nodes part.0) }
    ensures apart { IfOk result (λ form. IsApart v form) }
    ensures known { OnOk result (AreFound (constant_in constants.now) (naming_by names.now) terms.now.nodes known.new) }
{
    terms.arena_law();
    let form = narrow_form(alloc, terms, constants, names, known, part)?;
    Ok(form)
}

/// The place's variable less a term that the place is made of.
fn part_less(
    alloc: Global,
    terms: &Terms,
    constants: &ConstantTable,
    names: &Names,
    known: &mut BTreeMap<u32, Lin>,
    v: u32,
    id: TermId,
    part: TermId,
) -> Result<Lin, Memory>
    requires part { IsMadeOf terms.now.nodes id.0 part.0 }
    requires room { HasRoom (constant_in constants.now) (naming_by names.now) terms.now.nodes id.0 }
    requires fresh { IsFresh terms.now.nodes (naming_by names.now) v id.0 }
    requires known { AreFound (constant_in constants.now) (naming_by names.now) terms.now.nodes known.old }
    ensures is { IfOk result (λ d. d ≡ less (variable_form v) (form_by (constant_in constants.now) (naming_by names.now) terms.now.nodes part.0)) }
    ensures known { OnOk result (AreFound (constant_in constants.now) (naming_by names.now) terms.now.nodes known.new) }
{
    terms.arena_law();
    if let Some(d) = less_leaf(alloc, terms, names, v, part)? {
        return Ok(d);
    }
    let form = part_form(alloc, terms, constants, names, known, v, id, part)?;
    variable_less(alloc, v, &form)
}

/// A choice, by its condition and its two integer terms.
fn choice_of(
    alloc: Global,
    terms: &Terms,
    constants: &ConstantTable,
    names: &Names,
    known: &mut BTreeMap<u32, Lin>,
    v: u32,
    id: TermId,
    c: TermId,
    s: TermId,
    r: TermId,
) -> Result<Form, Memory>
    requires bit { c.0 < length terms.now.nodes }
    requires chosen { IsMadeOf terms.now.nodes id.0 s.0 }
    requires other { IsMadeOf terms.now.nodes id.0 r.0 }
    requires room { HasRoom (constant_in constants.now) (naming_by names.now) terms.now.nodes id.0 }
    requires fresh { IsFresh terms.now.nodes (naming_by names.now) v id.0 }
    requires known { AreFound (constant_in constants.now) (naming_by names.now) terms.now.nodes known.old }
    ensures is { IfOk result (λ form. form ≡ choice_place (variable_form v) (bit_of (naming_by names.now) terms.now.nodes c.0)
        (form_by (constant_in constants.now) (naming_by names.now) terms.now.nodes s.0)
        (form_by (constant_in constants.now) (naming_by names.now) terms.now.nodes r.0)) }
    ensures known { OnOk result (AreFound (constant_in constants.now) (naming_by names.now) terms.now.nodes known.new) }
{
    let bit = bit_of(alloc, terms, names, c)?;
    let chosen = part_less(alloc, terms, constants, names, known, v, id, s)?;
    let other = part_less(alloc, terms, constants, names, known, v, id, r)?;
    choice_place(alloc, bit, chosen, other)
}

/// A choice between two integer terms.
fn of_choice(
    alloc: Global,
    terms: &Terms,
    constants: &ConstantTable,
    names: &Names,
    known: &mut BTreeMap<u32, Lin>,
    v: u32,
    id: TermId,
    args: &[TermId],
) -> Result<Form, Memory>
    requires node { slice_get terms.now.nodes id.0 ≡ Some (Op Ite args.now) }
    requires shaped { length args.now ≡ 3 }
    requires room { HasRoom (constant_in constants.now) (naming_by names.now) terms.now.nodes id.0 }
    requires fresh { IsFresh terms.now.nodes (naming_by names.now) v id.0 }
    requires known { AreFound (constant_in constants.now) (naming_by names.now) terms.now.nodes known.old }
    ensures is { IfOk result (λ form. form ≡ integer_place (bit_of (naming_by names.now) terms.now.nodes)
        (form_by (constant_in constants.now) (naming_by names.now) terms.now.nodes) (value_by (constant_in constants.now)) (variable_form v) id.0
        (Some (Op Ite args.now))) }
    ensures known { OnOk result (AreFound (constant_in constants.now) (naming_by names.now) terms.now.nodes known.new) }
{
    terms.arena_law();
    match args {
        [c, s, r] => { choice_of(alloc, terms, constants, names, known, v, id, *c, *s, *r) }
        _ => unreachable!(),
    }
}

/// The magnitude of that term.
fn abs_of(
    alloc: Global,
    terms: &Terms,
    constants: &ConstantTable,
    names: &Names,
    known: &mut BTreeMap<u32, Lin>,
    v: u32,
    id: TermId,
    a: TermId,
) -> Result<Form, Memory>
    requires part { IsMadeOf terms.now.nodes id.0 a.0 }
    requires room { HasRoom (constant_in constants.now) (naming_by names.now) terms.now.nodes id.0 }
    requires fresh { IsFresh terms.now.nodes (naming_by names.now) v id.0 }
    requires known { AreFound (constant_in constants.now) (naming_by names.now) terms.now.nodes known.old }
    ensures is { IfOk result (λ form. form ≡ abs_place (variable_form v) (form_by (constant_in constants.now) (naming_by names.now) terms.now.nodes a.0)) }
    ensures known { OnOk result (AreFound (constant_in constants.now) (naming_by names.now) terms.now.nodes known.new) }
{
    let lin = part_form(alloc, terms, constants, names, known, v, id, a)?;
    abs_place(alloc, v, lin)
}

/// The magnitude of an integer term.
fn of_abs(
    alloc: Global,
    terms: &Terms,
    constants: &ConstantTable,
    names: &Names,
    known: &mut BTreeMap<u32, Lin>,
    v: u32,
    id: TermId,
    args: &[TermId],
) -> Result<Form, Memory>
    requires node { slice_get terms.now.nodes id.0 ≡ Some (Op Abs args.now) }
    requires shaped { length args.now ≡ 1 }
    requires room { HasRoom (constant_in constants.now) (naming_by names.now) terms.now.nodes id.0 }
    requires fresh { IsFresh terms.now.nodes (naming_by names.now) v id.0 }
    requires known { AreFound (constant_in constants.now) (naming_by names.now) terms.now.nodes known.old }
    ensures is { IfOk result (λ form. form ≡ integer_place (bit_of (naming_by names.now) terms.now.nodes)
        (form_by (constant_in constants.now) (naming_by names.now) terms.now.nodes) (value_by (constant_in constants.now)) (variable_form v) id.0
        (Some (Op Abs args.now))) }
    ensures known { OnOk result (AreFound (constant_in constants.now) (naming_by names.now) terms.now.nodes known.new) }
{
    match args {
        [a] => { abs_of(alloc, terms, constants, names, known, v, id, *a) }
        _ => unreachable!(),
    }
}

/// The quotient of those terms.
fn quotient_of(
    alloc: Global,
    terms: &Terms,
    constants: &ConstantTable,
    names: &Names,
    known: &mut BTreeMap<u32, Lin>,
    v: u32,
    id: TermId,
    a: TermId,
    n: TermId,
) -> Result<Form, Memory>
    requires part { IsMadeOf terms.now.nodes id.0 a.0 }
    requires short { IsTrue (is_short (value_by (constant_in constants.now) n.0)) }
    requires room { HasRoom (constant_in constants.now) (naming_by names.now) terms.now.nodes id.0 }
    requires fresh { IsFresh terms.now.nodes (naming_by names.now) v id.0 }
    requires known { AreFound (constant_in constants.now) (naming_by names.now) terms.now.nodes known.old }
    ensures is { IfOk result (λ form. form ≡ quotient_place (variable_form v) (form_by (constant_in constants.now) (naming_by names.now) terms.now.nodes a.0)
        (value_by (constant_in constants.now) n.0)) }
    ensures known { OnOk result (AreFound (constant_in constants.now) (naming_by names.now) terms.now.nodes known.new) }
{
    let lin = part_form(alloc, terms, constants, names, known, v, id, a)?;
    quotient_place(alloc, v, &lin, value_of(constants, n))
}

/// The quotient of an integer term by a constant.
fn of_quotient(
    alloc: Global,
    terms: &Terms,
    constants: &ConstantTable,
    names: &Names,
    known: &mut BTreeMap<u32, Lin>,
    v: u32,
    id: TermId,
    args: &[TermId],
) -> Result<Form, Memory>
    requires node { slice_get terms.now.nodes id.0 ≡ Some (Op Quotient args.now) }
    requires shaped { length args.now ≡ 2 }
    requires room { HasRoom (constant_in constants.now) (naming_by names.now) terms.now.nodes id.0 }
    requires fresh { IsFresh terms.now.nodes (naming_by names.now) v id.0 }
    requires known { AreFound (constant_in constants.now) (naming_by names.now) terms.now.nodes known.old }
    ensures is { IfOk result (λ form. form ≡ integer_place (bit_of (naming_by names.now) terms.now.nodes)
        (form_by (constant_in constants.now) (naming_by names.now) terms.now.nodes) (value_by (constant_in constants.now)) (variable_form v) id.0
        (Some (Op Quotient args.now))) }
    ensures known { OnOk result (AreFound (constant_in constants.now) (naming_by names.now) terms.now.nodes known.new) }
{
    terms.arena_law();
    match args {
        [a, n] => { quotient_of(alloc, terms, constants, names, known, v, id, *a, *n) }
        _ => unreachable!(),
    }
}

/// The remainder of those terms.
fn remainder_of(
    alloc: Global,
    terms: &Terms,
    constants: &ConstantTable,
    names: &Names,
    known: &mut BTreeMap<u32, Lin>,
    v: u32,
    id: TermId,
    a: TermId,
    n: TermId,
) -> Result<Form, Memory>
    requires part { IsMadeOf terms.now.nodes id.0 a.0 }
    requires short { IsTrue (is_short (value_by (constant_in constants.now) n.0)) }
    requires some { 0 < nat_abs (value_by (constant_in constants.now) n.0) }
    requires room { HasRoom (constant_in constants.now) (naming_by names.now) terms.now.nodes id.0 }
    requires fresh { IsFresh terms.now.nodes (naming_by names.now) v id.0 }
    requires known { AreFound (constant_in constants.now) (naming_by names.now) terms.now.nodes known.old }
    ensures is { IfOk result (λ form. form ≡ remainder_place (variable_form v) (form_by (constant_in constants.now) (naming_by names.now) terms.now.nodes a.0)
        (value_by (constant_in constants.now) n.0)) }
    ensures known { OnOk result (AreFound (constant_in constants.now) (naming_by names.now) terms.now.nodes known.new) }
{
    let lin = part_form(alloc, terms, constants, names, known, v, id, a)?;
    remainder_place(alloc, v, &lin, value_of(constants, n))
}

/// The remainder of an integer term by a constant.
fn of_remainder(
    alloc: Global,
    terms: &Terms,
    constants: &ConstantTable,
    names: &Names,
    known: &mut BTreeMap<u32, Lin>,
    v: u32,
    id: TermId,
    args: &[TermId],
) -> Result<Form, Memory>
    requires node { slice_get terms.now.nodes id.0 ≡ Some (Op Remainder args.now) }
    requires shaped { length args.now ≡ 2 }
    requires room { HasRoom (constant_in constants.now) (naming_by names.now) terms.now.nodes id.0 }
    requires fresh { IsFresh terms.now.nodes (naming_by names.now) v id.0 }
    requires known { AreFound (constant_in constants.now) (naming_by names.now) terms.now.nodes known.old }
    ensures is { IfOk result (λ form. form ≡ integer_place (bit_of (naming_by names.now) terms.now.nodes)
        (form_by (constant_in constants.now) (naming_by names.now) terms.now.nodes) (value_by (constant_in constants.now)) (variable_form v) id.0
        (Some (Op Remainder args.now))) }
    ensures known { OnOk result (AreFound (constant_in constants.now) (naming_by names.now) terms.now.nodes known.new) }
{
    terms.arena_law();
    match args {
        [a, n] => { remainder_of(alloc, terms, constants, names, known, v, id, *a, *n) }
        _ => unreachable!(),
    }
}

/// Another integer term, which is its linear form.
fn of_form(
    alloc: Global,
    terms: &Terms,
    constants: &ConstantTable,
    names: &Names,
    known: &mut BTreeMap<u32, Lin>,
    v: u32,
    id: TermId,
) -> Result<Form, Memory>
    requires sum { is_unit_node (slice_get terms.now.nodes id.0) ≡ false }
    requires room { HasRoom (constant_in constants.now) (naming_by names.now) terms.now.nodes id.0 }
    requires fresh { IsFresh terms.now.nodes (naming_by names.now) v id.0 }
    requires known { AreFound (constant_in constants.now) (naming_by names.now) terms.now.nodes known.old }
    ensures is { IfOk result (λ form. form ≡ eq (less (variable_form v) (form_by (constant_in constants.now) (naming_by names.now) terms.now.nodes id.0))) }
    ensures known { OnOk result (AreFound (constant_in constants.now) (naming_by names.now) terms.now.nodes known.new) }
{
    terms.arena_law();
    let lin = narrow_form(alloc, terms, constants, names, known, id)?;
    Ok(eq(variable_less(alloc, v, &lin)?))
}

/// What determines the auxiliary variable of the operation that the term of that number is.
fn operation_place(
    alloc: Global,
    terms: &Terms,
    constants: &ConstantTable,
    names: &Names,
    known: &mut BTreeMap<u32, Lin>,
    v: u32,
    id: TermId,
    op: OpKind,
    args: &[TermId],
) -> Result<Form, Memory>
    requires node { slice_get terms.now.nodes id.0 ≡ Some (Op op args.now) }
    requires shaped { IsTrue (is_shaped (Some (Op op args.now))) }
    requires room { HasRoom (constant_in constants.now) (naming_by names.now) terms.now.nodes id.0 }
    requires fresh { IsFresh terms.now.nodes (naming_by names.now) v id.0 }
    requires known { AreFound (constant_in constants.now) (naming_by names.now) terms.now.nodes known.old }
    ensures is { IfOk result (λ form. form ≡ integer_place (bit_of (naming_by names.now) terms.now.nodes)
        (form_by (constant_in constants.now) (naming_by names.now) terms.now.nodes) (value_by (constant_in constants.now)) (variable_form v) id.0
        (Some (Op op args.now))) }
    ensures known { OnOk result (AreFound (constant_in constants.now) (naming_by names.now) terms.now.nodes known.new) }
{
    match op {
        OpKind::Ite => of_choice(alloc, terms, constants, names, known, v, id, args),
        OpKind::Abs => of_abs(alloc, terms, constants, names, known, v, id, args),
        OpKind::Div => of_quotient(alloc, terms, constants, names, known, v, id, args),
        OpKind::Mod => of_remainder(alloc, terms, constants, names, known, v, id, args),
        _ => of_form(alloc, terms, constants, names, known, v, id),
    }
}

/// What determines the auxiliary variable of an integer term.
fn integer_place(
    alloc: Global,
    terms: &Terms,
    constants: &ConstantTable,
    names: &Names,
    known: &mut BTreeMap<u32, Lin>,
    v: u32,
    id: TermId,
) -> Result<Form, Memory>
    requires room { HasRoom (constant_in constants.now) (naming_by names.now) terms.now.nodes id.0 }
    requires fresh { IsFresh terms.now.nodes (naming_by names.now) v id.0 }
    requires shaped { IsTrue (is_shaped (slice_get terms.now.nodes id.0)) }
    requires known { AreFound (constant_in constants.now) (naming_by names.now) terms.now.nodes known.old }
    ensures is { IfOk result (λ form. form ≡ integer_place (bit_of (naming_by names.now) terms.now.nodes)
        (form_by (constant_in constants.now) (naming_by names.now) terms.now.nodes) (value_by (constant_in constants.now)) (variable_form v) id.0
        (slice_get terms.now.nodes id.0)) }
    ensures known { OnOk result (AreFound (constant_in constants.now) (naming_by names.now) terms.now.nodes known.new) }
{
    match terms.node(id) {
        Node::Op { op, args } => operation_place(
            alloc,
            terms,
            constants,
            names,
            known,
            v,
            id,
            *op,
            args.as_slice(),
        ),
        _ => of_form(alloc, terms, constants, names, known, v, id),
    }
}

/// What determines the auxiliary variable of the term: the value of the term, where true is 1 and
/// false is 0.
pub fn place_form(
    alloc: Global,
    terms: &Terms,
    sorts: &SortTable,
    constants: &ConstantTable,
    names: &Names,
    known: &mut BTreeMap<u32, Lin>,
    v: u32,
    id: TermId,
) -> Result<Form, Memory>
    requires room { HasRoom (constant_in constants.now) (naming_by names.now) terms.now.nodes id.0 }
    requires fresh { IsFresh terms.now.nodes (naming_by names.now) v id.0 }
    requires shaped { IsTrue (is_shaped (slice_get terms.now.nodes id.0)) }
    requires known { AreFound (constant_in constants.now) (naming_by names.now) terms.now.nodes known.old }
    ensures is { IfOk result (λ form. form ≡ place_form_by (constant_in constants.now) (sort_in sorts.now) (naming_by names.now) terms.now.nodes v id.0) }
    ensures known { OnOk result (AreFound (constant_in constants.now) (naming_by names.now) terms.now.nodes known.new) }
{
    if !is_truth(sorts, id) {
        return integer_place(alloc, terms, constants, names, known, v, id);
    }
    let Both { holds, fails } = formulas(alloc, terms, sorts, constants, names, known, id)?;
    truth_place(alloc, v, holds, fails)
}

/// Puts what determines the auxiliary variables of these terms, numbered from `first` on, behind other
/// formulas.
pub fn place_forms(
    alloc: Global,
    terms: &Terms,
    sorts: &SortTable,
    constants: &ConstantTable,
    names: &Names,
    known: &mut BTreeMap<u32, Lin>,
    first: u32,
    placed: &[u32],
    out: &mut Items<Form>,
) -> Result<(), Memory>
    requires end { first + length placed.now < 2 ^ 32 }
    requires places { ArePlaces (constant_in constants.now) (naming_by names.now) terms.now.nodes first placed.now }
    requires known { AreFound (constant_in constants.now) (naming_by names.now) terms.now.nodes known.old }
    ensures are { OnOk result (out.new ≡ out.old ++ place_forms_by (constant_in constants.now) (sort_in sorts.now) (naming_by names.now) terms.now.nodes first placed.now) }
    ensures known { OnOk result (AreFound (constant_in constants.now) (naming_by names.now) terms.now.nodes known.new) }
{
    let mut v = first;
    for id in placed {
        let form = place_form(alloc, terms, sorts, constants, names, known, v, TermId(*id))?;
        out.push(form)?;
        v += 1;
    }
    Ok(())
}
