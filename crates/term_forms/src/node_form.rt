//! The linear form of a node over those of its parts.

ghost use Rattle.std.specs.Prelude.{◌≡◌, [], map, IfOk, OnOk, IsErrOf, true, false};
ghost use Rattle.linear_terms.specs.Linear.{auxiliary_form, is_narrow, operation_form, variable_form};
ghost use Rattle.term_tables.specs.machinery.Table.{constant_in};
ghost use Rattle.term_forms.specs.Found.{naming_in};
ghost use Rattle.term_forms.specs.machinery.Reading.{formed, last_form};

use crate::leaves::{auxiliary_form, auxiliary_of, constants_of, name_of, variable_form};
use crate::names::Names;
use base::{Copied, Memory};
use lin_atoms::{Lin, WideStop};
use linear_terms::{difference_form, judged, product_form, sum_form};
use std::alloc::Global;
use term_tables::ConstantTable;
use term_tree::{Node, OpKind, TermId};

fn zero(alloc: Global) -> Lin
    ensures { result ≡ last_form [] }
{
    Lin::of_constant(alloc, 0)
}

fn last_form(alloc: Global, forms: &[Lin]) -> Result<Lin, Memory>
    ensures { IfOk result (λ form. form ≡ last_form forms.now) }
{
    match forms {
        [] => Ok(zero(alloc)),
        [.., form] => form.copy(alloc),
    }
}

/// The form of an operation, whose own auxiliary variable has this form, where it is narrow.
fn operation_form(
    alloc: Global,
    op: OpKind,
    unit: Lin,
    constants: &[Option<i64>],
    forms: &[Lin],
) -> Result<Lin, WideStop>
    ensures made { IfOk result (λ form. form ≡ operation_form op unit constants.now forms.now) }
    ensures narrow { OnOk result (is_narrow (operation_form op unit constants.now forms.now) ≡ true) }
    ensures wide { IsErrOf result WideStop.Wide → is_narrow (operation_form op unit constants.now forms.now) ≡ false }
{
    match op {
        OpKind::Add => sum_form(alloc, forms),
        OpKind::Sub => difference_form(alloc, forms),
        OpKind::Mul => product_form(alloc, constants, forms),
        OpKind::Ite => judged(unit),
        OpKind::Abs => judged(unit),
        OpKind::Div => judged(unit),
        OpKind::Mod => judged(unit),
        OpKind::Not => judged(zero(alloc)),
        OpKind::And => judged(zero(alloc)),
        OpKind::Or => judged(zero(alloc)),
        OpKind::Xor => judged(zero(alloc)),
        OpKind::Implies => judged(zero(alloc)),
        OpKind::Eq => judged(zero(alloc)),
        OpKind::Distinct => judged(zero(alloc)),
        OpKind::Le => judged(zero(alloc)),
        OpKind::Lt => judged(zero(alloc)),
        OpKind::Ge => judged(zero(alloc)),
        OpKind::Gt => judged(zero(alloc)),
    }
}

fn operation(
    alloc: Global,
    op: OpKind,
    args: &[TermId],
    own: TermId,
    constants: &ConstantTable,
    names: &Names,
    forms: &[Lin],
) -> Result<Lin, WideStop>
    ensures made { IfOk result (λ form. form ≡ operation_form op (auxiliary_form ((naming_in names.now.own.items names.now.auxiliary).auxiliary own.0)) (map
        (λ arg. constant_in constants.now arg.0) args.now) forms.now) }
    ensures narrow { OnOk result (is_narrow (operation_form op (auxiliary_form ((naming_in names.now.own.items names.now.auxiliary).auxiliary own.0)) (map
        (λ arg. constant_in constants.now arg.0) args.now) forms.now) ≡ true) }
    ensures wide { IsErrOf result WideStop.Wide → is_narrow (operation_form op (auxiliary_form
        ((naming_in names.now.own.items names.now.auxiliary).auxiliary own.0)) (map (λ arg. constant_in constants.now arg.0) args.now) forms.now)
        ≡ false }
{
    let unit = auxiliary_form(alloc, auxiliary_of(names, own))?;
    let known = constants_of(alloc, constants, args)?;
    let form = operation_form(alloc, op, unit, known.as_slice(), forms)?;
    Ok(form)
}

fn named_form(alloc: Global, names: &Names, binder: u32) -> Result<Lin, Memory>
    ensures { IfOk result (λ form. form ≡ variable_form ((naming_in names.now.own.items names.now.auxiliary).own binder)) }
{
    variable_form(alloc, name_of(names, binder))
}

/// The linear form of the node of that number, where it is narrow.
pub(crate) fn node_form(
    alloc: Global,
    node: &Node,
    own: TermId,
    constants: &ConstantTable,
    names: &Names,
    forms: &[Lin],
) -> Result<Lin, WideStop>
    ensures made { IfOk result (λ form. form ≡ formed (constant_in constants.now) (naming_in names.now.own.items names.now.auxiliary) node.now own.0 forms.now) }
    ensures narrow { OnOk result (is_narrow (formed (constant_in constants.now) (naming_in names.now.own.items names.now.auxiliary) node.now own.0 forms.now) ≡ true) }
    ensures wide { IsErrOf result WideStop.Wide → is_narrow (formed (constant_in constants.now) (naming_in names.now.own.items names.now.auxiliary) node.now own.0 forms.now) ≡ false }
{
    match node {
        Node::Num(n) => judged(Lin::of_constant(alloc, i128::from(*n))),
        Node::Var { binder, .. } => judged(named_form(alloc, names, *binder)?),
        Node::LetVar { .. } => judged(last_form(alloc, forms)?),
        Node::Let { .. } => judged(last_form(alloc, forms)?),
        Node::Op { op, args } => operation(
            alloc,
            *op,
            args.as_slice(),
            own,
            constants,
            names,
            forms,
        ),
        Node::True => judged(zero(alloc)),
        Node::False => judged(zero(alloc)),
        Node::Pred { .. } => judged(zero(alloc)),
        Node::Divisible { .. } => judged(zero(alloc)),
        Node::Forall { .. } => judged(zero(alloc)),
        Node::Exists { .. } => judged(zero(alloc)),
    }
}
