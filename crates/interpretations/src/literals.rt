//! Literals over a predicate's parameters.

ghost use Rattle.std.specs.Prelude.{◌≡◌, ◌+◌, ◌*◌, ◌<◌, ◌^◌, length, neg_ℤ, true, IfOk, IsErrOf};
ghost use Rattle.base.specs.Widths.{is_short};
ghost use Rattle.lin_atoms.specs.Linear.{lin_is_below};
ghost use Rattle.lin_atoms.specs.Truth.{lit_is_below};
ghost use Rattle.cube_forms.specs.Cubes.{lit_is_short};
ghost use Rattle.answer_text.specs.Lemmas.{IsNumber};
ghost use Rattle.interpretations.specs.Size.{literal_size};
ghost use Rattle.interpretations.specs.Terms.{IsComparisonOf, IsDivisibilityOf, IsLiteralOf};
ghost use Rattle.interpretations.specs.machinery.Added.{IsAdded};

use crate::nodes::{one, put, two};
use crate::stop::DefinitionStop;
use crate::sums::{linear, number, shifted};
use lin_atoms::{Divisor, Lin, Lit};
use std::alloc::Global;
use term_tree::{Node, OpKind, Sort, TermId, Terms};

/// The constant with the other sign.
fn turned(alloc: Global, terms: &mut Terms, lin: &Lin) -> Result<TermId, DefinitionStop>
    requires { is_short lin.now.constant ≡ true }
    ensures added { IfOk result (λ id. IsAdded (λ nodes k. IsNumber nodes (neg_ℤ lin.now.constant) k) 2 terms.old.nodes terms.new.nodes id) }
    ensures full { IsErrOf result DefinitionStop.Full → 2 ^ 32 < length terms.old.nodes + 2 }
{
    let constant = lin.constant();
    let id = number(alloc, terms, -constant)?;
    Ok(id)
}

/// The sum of the terms beside the constant with the other sign.
fn comparison(
    alloc: Global,
    terms: &mut Terms,
    sorts: &[Sort],
    op: OpKind,
    lin: &Lin,
) -> Result<TermId, DefinitionStop>
    requires below { lin_is_below (length sorts.now) lin.now ≡ true }
    requires short { is_short lin.now.constant ≡ true }
    ensures added { IfOk result (λ id. IsAdded (λ nodes k. IsComparisonOf nodes sorts.now op lin.now k) (4 + 7 * length lin.now.terms) terms.old.nodes terms.new.nodes id) }
    ensures full { IsErrOf result DefinitionStop.Full → 2 ^ 32 < length terms.old.nodes + (4 + 7 * length lin.now.terms) }
{
    let left = linear(alloc, terms, sorts, lin)?;
    let right = turned(alloc, terms, lin)?;
    let args = two(alloc, left, right)?;
    let id = put(terms, Node::Op { op, args })?;
    Ok(id)
}

/// Puts the term by which the number divides the form behind the others; `Full` where there is no room
/// for it.
fn divisibility(
    alloc: Global,
    terms: &mut Terms,
    sorts: &[Sort],
    divisor: Divisor,
    lin: &Lin,
) -> Result<TermId, DefinitionStop>
    requires below { lin_is_below (length sorts.now) lin.now ≡ true }
    requires short { is_short lin.now.constant ≡ true }
    ensures added { IfOk result (λ id. IsAdded (λ nodes k. IsDivisibilityOf nodes sorts.now divisor lin.now k) (4 + 7 * length lin.now.terms) terms.old.nodes terms.new.nodes id) }
    ensures full { IsErrOf result DefinitionStop.Full → 2 ^ 32 < length terms.old.nodes + (4 + 7 * length lin.now.terms) }
{
    let arg = shifted(alloc, terms, sorts, lin)?;
    let by = divisor.get();
    let id = put(terms, Node::Divisible { by, arg })?;
    Ok(id)
}

/// Puts the term by which the number doesn't divide the form behind the others; `Full` where there is
/// no room for it.
fn indivisibility(
    alloc: Global,
    terms: &mut Terms,
    sorts: &[Sort],
    divisor: Divisor,
    lin: &Lin,
) -> Result<TermId, DefinitionStop>
    requires below { lin_is_below (length sorts.now) lin.now ≡ true }
    requires short { is_short lin.now.constant ≡ true }
    ensures added { IfOk result (λ id. IsAdded (λ nodes k. IsLiteralOf nodes sorts.now (Lit.NDiv divisor lin.now) k) (5 + 7 * length lin.now.terms) terms.old.nodes terms.new.nodes id) }
    ensures full { IsErrOf result DefinitionStop.Full → 2 ^ 32 < length terms.old.nodes + (5 + 7 * length lin.now.terms) }
{
    let denied = divisibility(alloc, terms, sorts, divisor, lin)?;
    let args = one(alloc, denied)?;
    let op = OpKind::Not;
    let id = put(terms, Node::Op { op, args })?;
    Ok(id)
}

/// The literal, each place as the parameter of that number.
pub(crate) fn literal(
    alloc: Global,
    terms: &mut Terms,
    sorts: &[Sort],
    lit: &Lit,
) -> Result<TermId, DefinitionStop>
    requires below { lit_is_below (length sorts.now) lit.now ≡ true }
    requires short { lit_is_short lit.now ≡ true }
    ensures added { IfOk result (λ id. IsAdded (λ nodes k. IsLiteralOf nodes sorts.now lit.now k) (literal_size lit.now) terms.old.nodes terms.new.nodes id) }
    ensures full { IsErrOf result DefinitionStop.Full → 2 ^ 32 < length terms.old.nodes + literal_size lit.now }
{
    match lit {
        Lit::Le(lin) => {
            let id = comparison(alloc, terms, sorts, OpKind::Le, lin)?;
            Ok(id)
        }
        Lit::Eq(lin) => {
            let id = comparison(alloc, terms, sorts, OpKind::Eq, lin)?;
            Ok(id)
        }
        Lit::Div(divisor, lin) => {
            let id = divisibility(alloc, terms, sorts, *divisor, lin)?;
            Ok(id)
        }
        Lit::NDiv(divisor, lin) => {
            let id = indivisibility(alloc, terms, sorts, *divisor, lin)?;
            Ok(id)
        }
    }
}
