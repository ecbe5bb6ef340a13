//! Lemmas as terms, and their conjunction.

ghost use Rattle.std.specs.Prelude.{◌≡◌, ◌+◌, ◌<◌, ◌^◌, length, true, IfOk, IsErrOf};
ghost use Rattle.std.specs.List.{list_all, sum_by};
ghost use Rattle.cube_forms.specs.Cubes.{cube_is_below, cube_is_short};
ghost use Rattle.term_tree.specs.Arena.{is_below};
ghost use Rattle.interpretations.specs.Size.{lemma_size, literal_size, term_size};
ghost use Rattle.interpretations.specs.Terms.{Each, IsConjunctionOf, IsDefiningTermOf, IsJoined, IsLemmaOf, IsLiteralOf};
ghost use Rattle.interpretations.specs.machinery.Added.{AreAdded, IsAdded};
ghost use Rattle.interpretations.specs.machinery.Cubes.{cubes_of};

use crate::literals::literal;
use crate::nodes::{one, push, put};
use crate::stop::DefinitionStop;
use base::Items;
use cube_forms::Lemma;
use lin_atoms::Lit;
use std::alloc::Global;
use term_tree::{Node, OpKind, Sort, TermId, Terms};

/// The conjunction of the parts.
fn joined(terms: &mut Terms, parts: Vec<TermId>) -> Result<TermId, DefinitionStop>
    requires { list_all (is_below (length terms.old.nodes)) parts.items ≡ true }
    ensures added { IfOk result (λ id. IsAdded (λ nodes k. IsJoined nodes parts.items k) 1 terms.old.nodes terms.new.nodes id) }
    ensures full { IsErrOf result DefinitionStop.Full → 2 ^ 32 < length terms.old.nodes + 1 }
{
    if parts.is_empty() {
        let id = put(terms, Node::True)?;
        return Ok(id);
    }
    if parts.len() == 1 {
        return Ok(parts[0]);
    }
    let args = Items::from_vec(parts);
    let op = OpKind::And;
    let id = put(terms, Node::Op { op, args })?;
    Ok(id)
}

/// Each literal.
fn literal_terms(
    alloc: Global,
    terms: &mut Terms,
    sorts: &[Sort],
    cube: &[Lit],
) -> Result<Vec<TermId>, DefinitionStop>
    requires below { cube_is_below (length sorts.now) cube.now ≡ true }
    requires short { cube_is_short cube.now ≡ true }
    ensures added { IfOk result (λ parts. AreAdded (λ nodes ids. Each (IsLiteralOf nodes sorts.now) cube.now ids) (sum_by literal_size cube.now) terms.old.nodes terms.new.nodes parts.items) }
    ensures full { IsErrOf result DefinitionStop.Full → 2 ^ 32 < length terms.old.nodes + sum_by literal_size cube.now }
{
    let mut parts = Vec::new(alloc);
    for lit in cube {
        let part = literal(alloc, terms, sorts, lit)?;
        push(&mut parts, part)?;
    }
    Ok(parts)
}

/// The cube.
fn cube_term(
    alloc: Global,
    terms: &mut Terms,
    sorts: &[Sort],
    cube: &[Lit],
) -> Result<TermId, DefinitionStop>
    requires below { cube_is_below (length sorts.now) cube.now ≡ true }
    requires short { cube_is_short cube.now ≡ true }
    ensures added { IfOk result (λ id. IsAdded (λ nodes k. IsConjunctionOf nodes (IsLiteralOf nodes sorts.now) cube.now k) (1 + sum_by literal_size cube.now) terms.old.nodes terms.new.nodes id) }
    ensures full { IsErrOf result DefinitionStop.Full → 2 ^ 32 < length terms.old.nodes + (1 + sum_by literal_size cube.now) }
{
    let parts = literal_terms(alloc, terms, sorts, cube)?;
    let id = joined(terms, parts)?;
    Ok(id)
}

/// The lemma: the negation of the cube that it denies.
fn lemma_term(
    alloc: Global,
    terms: &mut Terms,
    sorts: &[Sort],
    denied: &[Lit],
) -> Result<TermId, DefinitionStop>
    requires below { cube_is_below (length sorts.now) denied.now ≡ true }
    requires short { cube_is_short denied.now ≡ true }
    ensures added { IfOk result (λ id. IsAdded (λ nodes k. IsLemmaOf nodes sorts.now denied.now k) (lemma_size denied.now) terms.old.nodes terms.new.nodes id) }
    ensures full { IsErrOf result DefinitionStop.Full → 2 ^ 32 < length terms.old.nodes + lemma_size denied.now }
{
    if denied.is_empty() {
        let id = put(terms, Node::False)?;
        return Ok(id);
    }
    let part = cube_term(alloc, terms, sorts, denied)?;
    let args = one(alloc, part)?;
    let op = OpKind::Not;
    let id = put(terms, Node::Op { op, args })?;
    Ok(id)
}

/// The lemma, as the negation of its cube.
fn denial(
    alloc: Global,
    terms: &mut Terms,
    sorts: &[Sort],
    lemma: &Lemma,
) -> Result<TermId, DefinitionStop>
    requires { cube_is_below (length sorts.now) lemma.now ≡ true }
    ensures added { IfOk result (λ id. IsAdded (λ nodes k. IsLemmaOf nodes sorts.now lemma.now k) (lemma_size lemma.now) terms.old.nodes terms.new.nodes id) }
    ensures full { IsErrOf result DefinitionStop.Full → 2 ^ 32 < length terms.old.nodes + lemma_size lemma.now }
{
    let cube = lemma.cube();
    let id = lemma_term(alloc, terms, sorts, cube.lits())?;
    Ok(id)
}

/// Each lemma.
fn lemma_terms(
    alloc: Global,
    terms: &mut Terms,
    sorts: &[Sort],
    kept: &[&Lemma],
) -> Result<Vec<TermId>, DefinitionStop>
    requires { list_all (cube_is_below (length sorts.now)) (cubes_of kept.now) ≡ true }
    ensures added { IfOk result (λ parts. AreAdded (λ nodes ids. Each (IsLemmaOf nodes sorts.now) (cubes_of kept.now) ids)
        (sum_by lemma_size (cubes_of kept.now)) terms.old.nodes terms.new.nodes parts.items) }
    ensures full { IsErrOf result DefinitionStop.Full → 2 ^ 32 < length terms.old.nodes + sum_by lemma_size (cubes_of kept.now) }
{
    let mut parts = Vec::new(alloc);
    for held in kept {
        let part = denial(alloc, terms, sorts, held)?;
        push(&mut parts, part)?;
    }
    Ok(parts)
}

/// The conjunction of the lemmas.
pub(crate) fn defining_term(
    alloc: Global,
    terms: &mut Terms,
    sorts: &[Sort],
    kept: &[&Lemma],
) -> Result<TermId, DefinitionStop>
    requires { list_all (cube_is_below (length sorts.now)) (cubes_of kept.now) ≡ true }
    ensures added { IfOk result (λ id. IsAdded (λ nodes k. IsDefiningTermOf nodes sorts.now (cubes_of kept.now) k) (term_size (cubes_of kept.now)) terms.old.nodes terms.new.nodes id) }
    ensures full { IsErrOf result DefinitionStop.Full → 2 ^ 32 < length terms.old.nodes + term_size (cubes_of kept.now) }
{
    let parts = lemma_terms(alloc, terms, sorts, kept)?;
    let id = joined(terms, parts)?;
    Ok(id)
}
