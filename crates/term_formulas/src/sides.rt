//! Relations of two integer terms, by the difference of their forms.

ghost use Rattle.std.specs.Prelude.{◌≡◌, ◌<◌, ◌&&◌, ◌||◌, [], ◌∷◌, ℕ, ℤ, Option, pos, negsuc, is_some, length, map, slice_get, IfOk, IfSome, OnOk, IsTrue, true, false};
ghost use Rattle.lin_atoms.specs.Algebra.{collected};
ghost use Rattle.lin_atoms.specs.Linear.{of_constant};
ghost use Rattle.linear_terms.specs.Linear.{Naming, is_narrow, less, variable_form};
ghost use Rattle.linear_terms.specs.Formula.{joined, related, sides};
ghost use Rattle.linear_terms.specs.Width.{is_relation};
ghost use Rattle.term_tables.specs.machinery.Table.{constant_in};
ghost use Rattle.term_forms.specs.Found.{AreFound, form_by};
ghost use Rattle.term_widths.specs.machinery.Apart.{is_variable_there};
ghost use Rattle.term_widths.specs.machinery.Seen.{IsNarrowTerm};
ghost use Rattle.term_formulas.specs.Written.{naming_by};
ghost use Rattle.term_formulas.specs.machinery.Parts.{ComparesWithRoom, is_number_there};

use crate::relations::{Both, both_by_difference, by_difference, narrow_less};
use base::Memory;
use lin_atoms::{Form, Lin};
use std::alloc::Global;
use std::collections::BTreeMap;
use term_forms::{Names, name_of};
use term_tables::ConstantTable;
use term_tree::{Node, OpKind, TermId, Terms};
use term_widths::{is_relation, narrow_form};

/// The variable that stands for the term, where it is one.
fn variable_of(terms: &Terms, names: &Names, id: TermId) -> Option<u32>
    requires { id.0 < length terms.now.nodes }
    ensures found { is_some result ≡ is_variable_there (slice_get terms.now.nodes id.0) }
    ensures is { (constant : ℕ → Option ℤ) → IfSome result (λ v. form_by constant (naming_by names.now) terms.now.nodes id.0 ≡ variable_form v) }
{
    match terms.node(id) {
        Node::Var { binder, .. } => Some(name_of(names, *binder)),
        _ => None,
    }
}

/// The number that the term is, where it is one.
fn number_of(terms: &Terms, id: TermId) -> Option<i64>
    requires { id.0 < length terms.now.nodes }
    ensures found { is_some result ≡ is_number_there (slice_get terms.now.nodes id.0) }
    ensures is { (constant : ℕ → Option ℤ) (naming : Naming) → IfSome result (λ n. form_by constant naming terms.now.nodes id.0 ≡ of_constant n) }
{
    match terms.node(id) {
        Node::Num(n) => Some(*n),
        _ => None,
    }
}

/// A variable less a number.
fn less_number(alloc: Global, v: u32, n: i64) -> Result<Lin, Memory>
    ensures { IfOk result (λ d. d ≡ less (variable_form v) (of_constant n)) }
{
    let terms = Vec::from_array(alloc, [(v, 1)])?;
    match Lin::new(terms, -i128::from(n)) {
        Ok(d) => Ok(d),
        Err(_) => unreachable!(),
    }
}

/// The terms of a variable less another one.
fn turned_apart(alloc: Global, v: u32, w: u32) -> Result<Vec<(u32, i64)>, Memory>
    ensures { IfOk result (λ terms. terms.items ≡ collected ((v, pos 1) ∷ (w, negsuc 0) ∷ [])) }
{
    let terms = if v < w {
        Vec::from_array(alloc, [(v, 1), (w, -1)])?
    } else if w < v {
        Vec::from_array(alloc, [(w, -1), (v, 1)])?
    } else {
        Vec::new(alloc)
    };
    Ok(terms)
}

/// A variable less another one.
fn variables_apart(alloc: Global, v: u32, w: u32) -> Result<Lin, Memory>
    ensures { IfOk result (λ d. d ≡ less (variable_form v) (variable_form w)) }
{
    let terms = turned_apart(alloc, v, w)?;
    match Lin::new(terms, 0) {
        Ok(d) => Ok(d),
        Err(_) => unreachable!(),
    }
}

/// A variable less a term that is a variable or a number, of which no list is made.
pub(crate) fn less_leaf(
    alloc: Global,
    terms: &Terms,
    names: &Names,
    v: u32,
    id: TermId,
) -> Result<Option<Lin>, Memory>
    requires { id.0 < length terms.now.nodes }
    ensures found { IfOk result (λ found. is_some found ≡ (is_variable_there (slice_get terms.now.nodes id.0) || is_number_there (slice_get terms.now.nodes id.0))) }
    ensures is { (constant : ℕ → Option ℤ) → IfOk result (λ found. IfSome found (λ d.
        d ≡ less (variable_form v) (form_by constant (naming_by names.now) terms.now.nodes id.0))) }
{
    if let Some(w) = variable_of(terms, names, id) {
        return Ok(Some(variables_apart(alloc, v, w)?));
    }
    match number_of(terms, id) {
        Some(n) => Ok(Some(less_number(alloc, v, n)?)),
        None => Ok(None),
    }
}

/// The difference of two sides of which no list is made: a variable, and a variable or a number.
fn leaves_less(
    alloc: Global,
    terms: &Terms,
    names: &Names,
    a: TermId,
    b: TermId,
) -> Result<Option<Lin>, Memory>
    requires first { a.0 < length terms.now.nodes }
    requires second { b.0 < length terms.now.nodes }
    ensures found { IfOk result (λ found. is_some found ≡ (is_variable_there (slice_get terms.now.nodes a.0)
        && (is_variable_there (slice_get terms.now.nodes b.0) || is_number_there (slice_get terms.now.nodes b.0)))) }
    ensures is { (constant : ℕ → Option ℤ) → IfOk result (λ found. IfSome found (λ d.
        d ≡ less (form_by constant (naming_by names.now) terms.now.nodes a.0) (form_by constant (naming_by names.now) terms.now.nodes b.0))) }
{
    match variable_of(terms, names, a) {
        Some(v) => less_leaf(alloc, terms, names, v, b),
        None => Ok(None),
    }
}

/// The difference of two sides, which has room.
fn sides_less(
    alloc: Global,
    terms: &Terms,
    constants: &ConstantTable,
    names: &Names,
    known: &mut BTreeMap<u32, Lin>,
    a: TermId,
    b: TermId,
) -> Result<Lin, Memory>
    requires first { a.0 < length terms.now.nodes }
    requires second { b.0 < length terms.now.nodes }
    requires narrow { IsNarrowTerm (constant_in constants.now) (naming_by names.now) terms.now.nodes a.0 }
    requires other { IsNarrowTerm (constant_in constants.now) (naming_by names.now) terms.now.nodes b.0 }
    requires difference { IsTrue (is_narrow (less (form_by (constant_in constants.now) (naming_by names.now) terms.now.nodes a.0)
        (form_by (constant_in constants.now) (naming_by names.now) terms.now.nodes b.0))) }
    requires known { AreFound (constant_in constants.now) (naming_by names.now) terms.now.nodes known.old }
    ensures is { IfOk result (λ d. d ≡ less (form_by (constant_in constants.now) (naming_by names.now) terms.now.nodes a.0)
        (form_by (constant_in constants.now) (naming_by names.now) terms.now.nodes b.0)) }
    ensures known { OnOk result (AreFound (constant_in constants.now) (naming_by names.now) terms.now.nodes known.new) }
{
    if let Some(d) = leaves_less(alloc, terms, names, a, b)? {
        return Ok(d);
    }
    let first = narrow_form(alloc, terms, constants, names, known, a)?;
    let second = narrow_form(alloc, terms, constants, names, known, b)?;
    narrow_less(alloc, &first, &second)
}

/// A relation of two integer terms, or its denial.
pub(crate) fn of_sides(
    alloc: Global,
    terms: &Terms,
    constants: &ConstantTable,
    names: &Names,
    known: &mut BTreeMap<u32, Lin>,
    op: OpKind,
    a: TermId,
    b: TermId,
    sign: bool,
) -> Result<Form, Memory>
    requires sides { ComparesWithRoom (constant_in constants.now) (naming_by names.now) terms.now.nodes op (a ∷ b ∷ []) }
    requires known { AreFound (constant_in constants.now) (naming_by names.now) terms.now.nodes known.old }
    ensures is { IfOk result (λ form. form ≡ joined sign (map (λ p. related op sign (less p.0 p.1))
        (sides op (form_by (constant_in constants.now) (naming_by names.now) terms.now.nodes a.0 ∷ form_by (constant_in constants.now) (naming_by names.now) terms.now.nodes b.0 ∷ [])))) }
    ensures known { OnOk result (AreFound (constant_in constants.now) (naming_by names.now) terms.now.nodes known.new) }
{
    if !is_relation(op) {
        return Ok(Form::False);
    }
    let d = sides_less(alloc, terms, constants, names, known, a, b)?;
    by_difference(alloc, op, sign, d)
}

/// A relation of two integer terms, and its denial.
pub(crate) fn of_both_sides(
    alloc: Global,
    terms: &Terms,
    constants: &ConstantTable,
    names: &Names,
    known: &mut BTreeMap<u32, Lin>,
    op: OpKind,
    a: TermId,
    b: TermId,
) -> Result<Both, Memory>
    requires relation { is_relation op ≡ true }
    requires sides { ComparesWithRoom (constant_in constants.now) (naming_by names.now) terms.now.nodes op (a ∷ b ∷ []) }
    requires known { AreFound (constant_in constants.now) (naming_by names.now) terms.now.nodes known.old }
    ensures holds { IfOk result (λ both. both.holds ≡ related op true (less
        (form_by (constant_in constants.now) (naming_by names.now) terms.now.nodes a.0) (form_by (constant_in constants.now) (naming_by names.now) terms.now.nodes b.0))) }
    ensures fails { IfOk result (λ both. both.fails ≡ related op false (less
        (form_by (constant_in constants.now) (naming_by names.now) terms.now.nodes a.0) (form_by (constant_in constants.now) (naming_by names.now) terms.now.nodes b.0))) }
    ensures known { OnOk result (AreFound (constant_in constants.now) (naming_by names.now) terms.now.nodes known.new) }
{
    let d = sides_less(alloc, terms, constants, names, known, a, b)?;
    both_by_difference(alloc, op, d)
}
