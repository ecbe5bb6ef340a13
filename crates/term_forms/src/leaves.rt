//! Forms of variables, and the parts of a node.

ghost use Rattle.std.specs.Prelude.{◌≡◌, [], ◌∷◌, ◌++◌, map, pos, IfOk};
ghost use Rattle.std.specs.Ordering.{nat_cmp};
ghost use Rattle.std.specs.BTreeMap.{get};
ghost use Rattle.lin_atoms.specs.Algebra.{name_in};
ghost use Rattle.linear_terms.specs.Linear.{auxiliary_form, variable_form};
ghost use Rattle.linear_terms.specs.Width.{text_parts};
ghost use Rattle.term_tables.specs.machinery.Table.{constant_in};
ghost use Rattle.term_forms.specs.machinery.Reading.{is_leaf};

use crate::names::Names;
use base::Memory;
use lin_atoms::Lin;
use std::alloc::Global;
use term_tables::ConstantTable;
use term_tree::{Node, TermId};

fn one_term(alloc: Global, variable: u32) -> Result<Vec<(u32, i64)>, Memory>
    ensures { IfOk result (λ terms. terms.items ≡ (variable, pos 1) ∷ []) }
{
    let terms = Vec::from_array(alloc, [(variable, 1)])?;
    Ok(terms)
}

/// The form that is a variable.
pub fn variable_form(alloc: Global, variable: u32) -> Result<Lin, Memory>
    ensures { IfOk result (λ form. form ≡ variable_form variable) }
{
    let terms = one_term(alloc, variable)?;
    match Lin::new(terms, 0) {
        Ok(form) => Ok(form),
        Err(_) => unreachable!(),
    }
}

/// The form that is an auxiliary variable, or 0.
pub(crate) fn auxiliary_form(alloc: Global, variable: Option<u32>) -> Result<Lin, Memory>
    ensures { IfOk result (λ form. form ≡ auxiliary_form variable) }
{
    match variable {
        None => Ok(Lin::of_constant(alloc, 0)),
        Some(v) => variable_form(alloc, v),
    }
}

/// The variable that stands for a variable of the term.
pub fn name_of(names: &Names, binder: u32) -> u32
    ensures { result ≡ name_in names.now.own.items binder }
{
    let place = binder as usize;
    if place < names.own.len() {
        names.own[place]
    } else {
        binder
    }
}

/// The auxiliary variable of the term, where it has one.
pub fn auxiliary_of(names: &Names, id: TermId) -> Option<u32>
    ensures { result ≡ get nat_cmp names.now.auxiliary id.0 }
{
    names.auxiliary.get(&id.0).copied()
}

fn bound_and_body(alloc: Global, bound: &[TermId], body: TermId) -> Result<Vec<TermId>, Memory>
    ensures { IfOk result (λ parts. parts.items ≡ bound.now ++ body ∷ []) }
{
    let mut parts = Vec::from_slice(alloc, bound)?;
    parts.push(body)?;
    Ok(parts)
}

/// Whether the node has no parts. What is told of it costs no more than a look at what was kept.
pub fn is_leaf(node: &Node) -> bool
    ensures { result ≡ is_leaf node.now }
{
    match node {
        Node::Num(_) => true,
        Node::True => true,
        Node::False => true,
        Node::Var { .. } => true,
        _ => false,
    }
}

/// The parts of a node in the order of the text.
pub fn text_parts(alloc: Global, node: &Node) -> Result<Vec<TermId>, Memory>
    ensures { IfOk result (λ parts. parts.items ≡ text_parts node.now) }
{
    let parts = match node {
        Node::Num(_) | Node::True | Node::False | Node::Var { .. } => Vec::new(alloc),
        Node::LetVar { bound } => Vec::from_array(alloc, [*bound])?,
        Node::Pred { args, .. } => Vec::from_slice(alloc, args.as_slice())?,
        Node::Op { args, .. } => Vec::from_slice(alloc, args.as_slice())?,
        Node::Divisible { arg, .. } => Vec::from_array(alloc, [*arg])?,
        Node::Let { bound, body } => bound_and_body(alloc, bound.as_slice(), *body)?,
        Node::Forall { body, .. } => Vec::from_array(alloc, [*body])?,
        Node::Exists { body, .. } => Vec::from_array(alloc, [*body])?,
    };
    Ok(parts)
}

/// The values of those that are constant.
pub(crate) fn constants_of(
    alloc: Global,
    constants: &ConstantTable,
    ids: &[TermId],
) -> Result<Vec<Option<i64>>, Memory>
    ensures { IfOk result (λ known. known.items ≡ map (λ id. constant_in constants.now id.0) ids.now) }
{
    let mut known = Vec::with_capacity(alloc, ids.len())?;
    for id in ids {
        known.push(constants.constant(*id))?;
    }
    Ok(known)
}
