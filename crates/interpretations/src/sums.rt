//! Sums of coefficients times arguments.

ghost use Rattle.std.specs.Prelude.{◌≡◌, ◌+◌, ◌*◌, ◌<◌, ◌^◌, length, nat_abs, nat_lt, Some, true, IfOk, IsErrOf};
ghost use Rattle.std.specs.List.{list_all};
ghost use Rattle.base.specs.Widths.{is_short, short_limit};
ghost use Rattle.lin_atoms.specs.Linear.{are_short, lin_is_below};
ghost use Rattle.term_tree.specs.Arena.{is_below};
ghost use Rattle.answer_text.specs.Lemmas.{IsArgument, IsNumber, IsProduct, IsSum};
ghost use Rattle.interpretations.specs.Terms.{Each, IsLinearOf, IsShiftedOf};
ghost use Rattle.interpretations.specs.machinery.Added.{AreAdded, IsAdded, IsScaled};

use crate::nodes::{one, push, put, three, two};
use crate::stop::DefinitionStop;
use base::Items;
use lin_atoms::Lin;
use std::alloc::Global;
use term_tree::{Node, OpKind, Sort, TermId, Terms};

/// A numeral, or the negation of one.
pub(crate) fn number(alloc: Global, terms: &mut Terms, n: i128) -> Result<TermId, DefinitionStop>
    requires { nat_abs n < short_limit }
    ensures added { IfOk result (λ id. IsAdded (λ nodes k. IsNumber nodes n k) 2 terms.old.nodes terms.new.nodes id) }
    ensures full { IsErrOf result DefinitionStop.Full → 2 ^ 32 < length terms.old.nodes + 2 }
{
    if n >= 0 {
        let id = put(terms, Node::Num(n as i64))?;
        return Ok(id);
    }
    let positive = put(terms, Node::Num((-n) as i64))?;
    let args = one(alloc, positive)?;
    let op = OpKind::Sub;
    let id = put(terms, Node::Op { op, args })?;
    Ok(id)
}

/// A Bool argument as an integer.
fn bool_argument(alloc: Global, terms: &mut Terms, binder: u32) -> Result<TermId, DefinitionStop>
    ensures added { IfOk result (λ id. IsAdded (λ nodes k. IsArgument nodes binder (Some Sort.Bool) k) 4 terms.old.nodes terms.new.nodes id) }
    ensures full { IsErrOf result DefinitionStop.Full → 2 ^ 32 < length terms.old.nodes + 4 }
{
    let sort = Sort::Bool;
    let argument = put(terms, Node::Var { binder, sort })?;
    let yes = put(terms, Node::Num(1))?;
    let no = put(terms, Node::Num(0))?;
    let args = three(alloc, argument, yes, no)?;
    let op = OpKind::Ite;
    let id = put(terms, Node::Op { op, args })?;
    Ok(id)
}

/// An argument as an integer.
fn argument(
    alloc: Global,
    terms: &mut Terms,
    binder: u32,
    sort: Sort,
) -> Result<TermId, DefinitionStop>
    ensures added { IfOk result (λ id. IsAdded (λ nodes k. IsArgument nodes binder (Some sort) k) 4 terms.old.nodes terms.new.nodes id) }
    ensures full { IsErrOf result DefinitionStop.Full → 2 ^ 32 < length terms.old.nodes + 4 }
{
    match sort {
        Sort::Int => {
            let id = put(terms, Node::Var { binder, sort })?;
            Ok(id)
        }
        Sort::Bool => {
            let id = bool_argument(alloc, terms, binder)?;
            Ok(id)
        }
    }
}

/// A coefficient as a number.
fn factor(alloc: Global, terms: &mut Terms, coefficient: i64) -> Result<TermId, DefinitionStop>
    requires { nat_abs coefficient < short_limit }
    ensures added { IfOk result (λ id. IsAdded (λ nodes k. IsNumber nodes coefficient k) 2 terms.old.nodes terms.new.nodes id) }
    ensures full { IsErrOf result DefinitionStop.Full → 2 ^ 32 < length terms.old.nodes + 2 }
{
    let id = number(alloc, terms, i128::from(coefficient))?;
    Ok(id)
}

/// A coefficient times an argument, as a product.
fn scaled(
    alloc: Global,
    terms: &mut Terms,
    binder: u32,
    sort: Sort,
    coefficient: i64,
) -> Result<TermId, DefinitionStop>
    requires { nat_abs coefficient < short_limit }
    ensures added { IfOk result (λ id. IsAdded (λ nodes k. IsScaled nodes binder sort coefficient k) 7 terms.old.nodes terms.new.nodes id) }
    ensures full { IsErrOf result DefinitionStop.Full → 2 ^ 32 < length terms.old.nodes + 7 }
{
    let first = factor(alloc, terms, coefficient)?;
    let second = argument(alloc, terms, binder, sort)?;
    let args = two(alloc, first, second)?;
    let op = OpKind::Mul;
    let id = put(terms, Node::Op { op, args })?;
    Ok(id)
}

/// A coefficient times an argument.
fn product(
    alloc: Global,
    terms: &mut Terms,
    sorts: &[Sort],
    term: &(u32, i64),
) -> Result<TermId, DefinitionStop>
    requires there { term.now.0 < length sorts.now }
    requires short { nat_abs term.now.1 < short_limit }
    ensures added { IfOk result (λ id. IsAdded (λ nodes k. IsProduct nodes sorts.now term.now k) 7 terms.old.nodes terms.new.nodes id) }
    ensures full { IsErrOf result DefinitionStop.Full → 2 ^ 32 < length terms.old.nodes + 7 }
{
    let (place, coefficient) = *term;
    let sort = sorts[place as usize];
    if coefficient == 1 {
        let id = argument(alloc, terms, place, sort)?;
        return Ok(id);
    }
    let id = scaled(alloc, terms, place, sort, coefficient)?;
    Ok(id)
}

/// Each coefficient times its argument.
fn products(
    alloc: Global,
    terms: &mut Terms,
    sorts: &[Sort],
    addends: &[(u32, i64)],
) -> Result<Vec<TermId>, DefinitionStop>
    requires there { list_all (λ t. nat_lt t.0 (length sorts.now)) addends.now ≡ true }
    requires short { are_short addends.now ≡ true }
    ensures added { IfOk result (λ items. AreAdded (λ nodes ids. Each (IsProduct nodes sorts.now) addends.now ids) (7 * length addends.now) terms.old.nodes terms.new.nodes items.items) }
    ensures full { IsErrOf result DefinitionStop.Full → 2 ^ 32 < length terms.old.nodes + 7 * length addends.now }
{
    let mut items = Vec::new(alloc);
    for term in addends {
        let _coefficient = term.1;
        let item = product(alloc, terms, sorts, term)?;
        push(&mut items, item)?;
    }
    Ok(items)
}

/// The sum of the items.
fn sum(terms: &mut Terms, items: Vec<TermId>) -> Result<TermId, DefinitionStop>
    requires { list_all (is_below (length terms.old.nodes)) items.items ≡ true }
    ensures added { IfOk result (λ id. IsAdded (λ nodes k. IsSum nodes items.items k) 1 terms.old.nodes terms.new.nodes id) }
    ensures full { IsErrOf result DefinitionStop.Full → 2 ^ 32 < length terms.old.nodes + 1 }
{
    if items.is_empty() {
        let id = put(terms, Node::Num(0))?;
        return Ok(id);
    }
    if items.len() == 1 {
        return Ok(items[0]);
    }
    let args = Items::from_vec(items);
    let op = OpKind::Add;
    let id = put(terms, Node::Op { op, args })?;
    Ok(id)
}

/// The sum of the terms, without the constant.
pub(crate) fn linear(
    alloc: Global,
    terms: &mut Terms,
    sorts: &[Sort],
    lin: &Lin,
) -> Result<TermId, DefinitionStop>
    requires { lin_is_below (length sorts.now) lin.now ≡ true }
    ensures added { IfOk result (λ id. IsAdded (λ nodes k. IsLinearOf nodes sorts.now lin.now.terms k) (1 + 7 * length lin.now.terms) terms.old.nodes terms.new.nodes id) }
    ensures full { IsErrOf result DefinitionStop.Full → 2 ^ 32 < length terms.old.nodes + (1 + 7 * length lin.now.terms) }
{
    let items = products(alloc, terms, sorts, lin.terms())?;
    let id = sum(terms, items)?;
    Ok(id)
}

/// The sum of the terms, with the constant.
pub(crate) fn shifted(
    alloc: Global,
    terms: &mut Terms,
    sorts: &[Sort],
    lin: &Lin,
) -> Result<TermId, DefinitionStop>
    requires below { lin_is_below (length sorts.now) lin.now ≡ true }
    requires short { is_short lin.now.constant ≡ true }
    ensures added { IfOk result (λ id. IsAdded (λ nodes k. IsShiftedOf nodes sorts.now lin.now k) (3 + 7 * length lin.now.terms) terms.old.nodes terms.new.nodes id) }
    ensures full { IsErrOf result DefinitionStop.Full → 2 ^ 32 < length terms.old.nodes + (3 + 7 * length lin.now.terms) }
{
    let mut items = products(alloc, terms, sorts, lin.terms())?;
    let constant = lin.constant();
    if constant == 0 {
        let id = sum(terms, items)?;
        return Ok(id);
    }
    let last = number(alloc, terms, constant)?;
    push(&mut items, last)?;
    let id = sum(terms, items)?;
    Ok(id)
}
