//! The linear forms of terms in which nothing is wide. Only what a form is made of is read: nothing
//! below a choice or a quotient is, and a term that a name is bound to is read once.

ghost use Rattle.std.specs.Prelude.{◌≡◌, ◌<◌, ℕ, ℤ, List, Option, Some, length, map, slice_get, IfOk, OnOk, IsTrue, false, true};
ghost use Rattle.std.specs.List.{list_all};
ghost use Rattle.std.specs.Ordering.{nat_cmp};
ghost use Rattle.std.specs.BTreeMap.{get};
ghost use Rattle.term_tree.specs.declared.node.Node.TheVariants.{Op};
ghost use Rattle.term_tree.specs.Arena.{is_below};
ghost use Rattle.lin_atoms.specs.Linear.{Linear};
ghost use Rattle.linear_terms.specs.Linear.{auxiliary_form, difference_form, is_narrow, operation_form, product_form, sum_form, zero_form};
ghost use Rattle.term_tables.specs.machinery.Table.{constant_in};
ghost use Rattle.term_forms.specs.Found.{AreFound, form_by, naming_in};
ghost use Rattle.term_widths.specs.machinery.Seen.{AreNarrowTerms, IsNarrowTerm, is_sum};

use base::{Copied, Memory};
use lin_atoms::{Lin, WideStop};
use linear_terms::{difference_form, product_form, sum_form};
use std::alloc::Global;
use std::collections::BTreeMap;
use term_forms::{Names, auxiliary_of, name_of, variable_form};
use term_tables::ConstantTable;
use term_tree::{Node, OpKind, TermId, Terms};

/// A copy of the form that is kept of the term, where it was read before.
fn kept(alloc: Global, known: &BTreeMap<u32, Lin>, id: TermId) -> Result<Option<Lin>, Memory>
    ensures { IfOk result (λ found. found ≡ get nat_cmp known.now id.0) }
{
    match known.get(&id.0) {
        None => Ok(None),
        Some(form) => Ok(Some(form.copy(alloc)?)),
    }
}

fn keep(known: &mut BTreeMap<u32, Lin>, id: TermId, form: Lin) -> Result<(), Memory>
    ensures here { OnOk result (get nat_cmp known.new id.0 ≡ Some form) }
    ensures others { OnOk result ((q : ℕ) → (id.0 ≡ q → ⊥) → get nat_cmp known.new q ≡ get nat_cmp known.old q) }
{
    known.insert(id.0, form)?;
    Ok(())
}

fn zero(alloc: Global) -> Lin
    ensures { result ≡ zero_form }
{
    Lin::of_constant(alloc, 0)
}

/// The form of a term that isn't a sum: its auxiliary variable, or 0.
fn unit(alloc: Global, names: &Names, id: TermId) -> Result<Lin, Memory>
    ensures { IfOk result (λ form. form ≡ auxiliary_form ((naming_in names.now.own.items names.now.auxiliary).auxiliary id.0)) }
{
    match auxiliary_of(names, id) {
        None => Ok(zero(alloc)),
        Some(variable) => variable_form(alloc, variable),
    }
}

/// Whether the operator's form is made of those of its arguments.
fn is_sum(op: OpKind) -> bool
    ensures { result ≡ is_sum op }
{
    match op {
        OpKind::Add | OpKind::Sub | OpKind::Mul => true,
        _ => false,
    }
}

/// The form of another operation.
fn other_form(alloc: Global, op: OpKind, names: &Names, id: TermId) -> Result<Lin, Memory>
    requires { is_sum op ≡ false }
    ensures { (constants : List (Option ℤ)) (forms : List Linear) → IfOk result (λ form. form ≡ operation_form op
        (auxiliary_form ((naming_in names.now.own.items names.now.auxiliary).auxiliary id.0)) constants forms) }
{
    match op {
        OpKind::Ite | OpKind::Abs | OpKind::Div | OpKind::Mod => unit(alloc, names, id),
        _ => Ok(zero(alloc)),
    }
}

fn constants_of(
    alloc: Global,
    constants: &ConstantTable,
    ids: &[TermId],
) -> Result<Vec<Option<i64>>, Memory>
    ensures { IfOk result (λ known. known.items ≡ map (λ id. constant_in constants.now id.0) ids.now) }
{
    let mut known = Vec::with_capacity(alloc, ids.len())?;
    for id in ids {
        known.push(constants.constant(*id))?;
    }
    Ok(known)
}

fn sum(alloc: Global, forms: &[Lin]) -> Result<Lin, Memory>
    requires { IsTrue (is_narrow (sum_form forms.now)) }
    ensures { IfOk result (λ form. form ≡ sum_form forms.now) }
{
    match sum_form(alloc, forms) {
        Ok(form) => Ok(form),
        Err(WideStop::Memory) => Err(Memory),
        Err(WideStop::Wide) => unreachable!(),
    }
}

fn difference(alloc: Global, forms: &[Lin]) -> Result<Lin, Memory>
    requires { IsTrue (is_narrow (difference_form forms.now)) }
    ensures { IfOk result (λ form. form ≡ difference_form forms.now) }
{
    match difference_form(alloc, forms) {
        Ok(form) => Ok(form),
        Err(WideStop::Memory) => Err(Memory),
        Err(WideStop::Wide) => unreachable!(),
    }
}

fn product(alloc: Global, constants: &[Option<i64>], forms: &[Lin]) -> Result<Lin, Memory>
    requires { IsTrue (is_narrow (product_form constants.now forms.now)) }
    ensures { IfOk result (λ form. form ≡ product_form constants.now forms.now) }
{
    match product_form(alloc, constants, forms) {
        Ok(form) => Ok(form),
        Err(WideStop::Memory) => Err(Memory),
        Err(WideStop::Wide) => unreachable!(),
    }
}

/// The form of a sum, a difference or a product of terms with these forms.
fn sum_of(
    alloc: Global,
    op: OpKind,
    constants: &ConstantTable,
    args: &[TermId],
    forms: &[Lin],
) -> Result<Lin, Memory>
    requires sum { IsTrue (is_sum op) }
    requires narrow { IsTrue (is_narrow (operation_form op zero_form (map (λ arg. constant_in constants.now arg.0) args.now) forms.now)) }
    ensures { IfOk result (λ form. form ≡ operation_form op zero_form (map (λ arg. constant_in constants.now arg.0) args.now) forms.now) }
{
    match op {
        OpKind::Add => sum(alloc, forms),
        OpKind::Sub => difference(alloc, forms),
        _ => {
            let known = constants_of(alloc, constants, args)?;
            product(alloc, known.as_slice(), forms)
        }
    }
}

/// The linear form of a term in which none is wide.
#[cycle(narrow)]
pub fn narrow_form(
    alloc: Global,
    terms: &Terms,
    constants: &ConstantTable,
    names: &Names,
    known: &mut BTreeMap<u32, Lin>,
    id: TermId,
) -> Result<Lin, Memory>
    requires there { id.0 < length terms.now.nodes }
    requires narrow { IsNarrowTerm (constant_in constants.now) (naming_in names.now.own.items names.now.auxiliary) terms.now.nodes id.0 }
    requires known { AreFound (constant_in constants.now) (naming_in names.now.own.items names.now.auxiliary) terms.now.nodes known.old }
    ensures is { IfOk result (λ form. form ≡ form_by (constant_in constants.now) (naming_in names.now.own.items names.now.auxiliary) terms.now.nodes id.0) }
    ensures known { OnOk result (AreFound (constant_in constants.now) (naming_in names.now.own.items names.now.auxiliary) terms.now.nodes known.new) }
{
    let node = terms.node(id);
    match node {
        Node::Num(n) => Ok(Lin::of_constant(alloc, i128::from(*n))),
        Node::Var { binder, .. } => variable_form(alloc, name_of(names, *binder)),
        Node::LetVar { bound } => named_form(alloc, terms, constants, names, known, *bound),
        Node::Let { body, .. } => narrow_form(alloc, terms, constants, names, known, *body),
        Node::Op { op, args } => operation(
            alloc,
            terms,
            constants,
            names,
            known,
            id,
            *op,
            args.as_slice(),
        ),
        _ => Ok(zero(alloc)),
    }
}

/// The linear form of a term that a name is bound to and in which no form is wide. The form is kept.
#[cycle(narrow)]
fn named_form(
    alloc: Global,
    terms: &Terms,
    constants: &ConstantTable,
    names: &Names,
    known: &mut BTreeMap<u32, Lin>,
    id: TermId,
) -> Result<Lin, Memory>
    requires there { id.0 < length terms.now.nodes }
    requires narrow { IsNarrowTerm (constant_in constants.now) (naming_in names.now.own.items names.now.auxiliary) terms.now.nodes id.0 }
    requires known { AreFound (constant_in constants.now) (naming_in names.now.own.items names.now.auxiliary) terms.now.nodes known.old }
    ensures is { IfOk result (λ form. form ≡ form_by (constant_in constants.now) (naming_in names.now.own.items names.now.auxiliary) terms.now.nodes id.0) }
    ensures known { OnOk result (AreFound (constant_in constants.now) (naming_in names.now.own.items names.now.auxiliary) terms.now.nodes known.new) }
{
    if let Some(form) = kept(alloc, known, id)? {
        return Ok(form);
    }
    let form = narrow_form(alloc, terms, constants, names, known, id)?;
    keep(known, id, form.copy(alloc)?)?;
    Ok(form)
}

/// The linear form of the term of that number, in which none is wide, by its operator and its
/// arguments.
#[cycle(narrow)]
fn operation(
    alloc: Global,
    terms: &Terms,
    constants: &ConstantTable,
    names: &Names,
    known: &mut BTreeMap<u32, Lin>,
    id: TermId,
    op: OpKind,
    args: &[TermId],
) -> Result<Lin, Memory>
    requires node { slice_get terms.now.nodes id.0 ≡ Some (Op op args.now) }
    requires narrow { IsNarrowTerm (constant_in constants.now) (naming_in names.now.own.items names.now.auxiliary) terms.now.nodes id.0 }
    requires known { AreFound (constant_in constants.now) (naming_in names.now.own.items names.now.auxiliary) terms.now.nodes known.old }
    ensures is { IfOk result (λ form. form ≡ form_by (constant_in constants.now) (naming_in names.now.own.items names.now.auxiliary) terms.now.nodes id.0) }
    ensures known { OnOk result (AreFound (constant_in constants.now) (naming_in names.now.own.items names.now.auxiliary) terms.now.nodes known.new) }
{
    terms.arena_law();
    if !is_sum(op) {
        return other_form(alloc, op, names, id);
    }
    let forms = part_forms(alloc, terms, constants, names, known, id, args)?;
    sum_of(alloc, op, constants, args, forms.as_slice())
}

/// The linear forms of some parts of the term of that number, in order.
#[cycle(narrow)]
fn part_forms(
    alloc: Global,
    terms: &Terms,
    constants: &ConstantTable,
    names: &Names,
    known: &mut BTreeMap<u32, Lin>,
    above: TermId,
    ids: &[TermId],
) -> Result<Vec<Lin>, Memory>
    requires there { above.0 < length terms.now.nodes }
    requires below { IsTrue (list_all (is_below above.0) ids.now) }
    requires narrow { AreNarrowTerms (constant_in constants.now) (naming_in names.now.own.items names.now.auxiliary) terms.now.nodes ids.now }
    requires known { AreFound (constant_in constants.now) (naming_in names.now.own.items names.now.auxiliary) terms.now.nodes known.old }
    ensures are { IfOk result (λ forms. forms.items ≡ map (λ id. form_by (constant_in constants.now) (naming_in names.now.own.items names.now.auxiliary) terms.now.nodes id.0) ids.now) }
    ensures known { OnOk result (AreFound (constant_in constants.now) (naming_in names.now.own.items names.now.auxiliary) terms.now.nodes known.new) }
{
    let mut forms = Vec::with_capacity(alloc, ids.len())?;
    for id in ids {
        let form = narrow_form(alloc, terms, constants, names, known, *id)?;
        forms.push(form)?;
    }
    Ok(forms)
}

/// The linear forms of terms that have them, in order.
pub fn narrow_forms(
    alloc: Global,
    terms: &Terms,
    constants: &ConstantTable,
    names: &Names,
    known: &mut BTreeMap<u32, Lin>,
    ids: &[TermId],
) -> Result<Vec<Lin>, Memory>
    requires there { IsTrue (list_all (is_below (length terms.now.nodes)) ids.now) }
    requires narrow { AreNarrowTerms (constant_in constants.now) (naming_in names.now.own.items names.now.auxiliary) terms.now.nodes ids.now }
    requires known { AreFound (constant_in constants.now) (naming_in names.now.own.items names.now.auxiliary) terms.now.nodes known.old }
    ensures are { IfOk result (λ forms. forms.items ≡ map (λ id. form_by (constant_in constants.now) (naming_in names.now.own.items names.now.auxiliary) terms.now.nodes id.0) ids.now) }
    ensures known { OnOk result (AreFound (constant_in constants.now) (naming_in names.now.own.items names.now.auxiliary) terms.now.nodes known.new) }
{
    let mut forms = Vec::with_capacity(alloc, ids.len())?;
    for id in ids {
        let form = narrow_form(alloc, terms, constants, names, known, *id)?;
        forms.push(form)?;
    }
    Ok(forms)
}
