//! Nodes behind those of an arena, and the numbers of arguments.

ghost use Rattle.std.specs.Prelude.{◌≡◌, ◌++◌, [], ◌∷◌, ◌+◌, ◌<◌, ◌^◌, length, IfOk, OnOk, IsErrOf, IsTrue};
ghost use Rattle.term_tree.specs.Arena.{has_parts_below};
ghost use Rattle.answer_text.specs.Lemmas.{IsNode};
ghost use Rattle.interpretations.specs.machinery.Added.{IsAdded};

use crate::stop::DefinitionStop;
use base::{Items, Memory};
use std::alloc::Global;
use term_tree::{Node, TermId, Terms};

/// Puts a node behind those of the arena, unless there is no number for it.
pub(crate) fn put(terms: &mut Terms, node: Node) -> Result<TermId, DefinitionStop>
    requires below { IsTrue (has_parts_below (length terms.old.nodes) node) }
    ensures added { IfOk result (λ id. IsAdded (λ nodes k. IsNode nodes k node) 1 terms.old.nodes terms.new.nodes id) }
    ensures full { IsErrOf result DefinitionStop.Full → 2 ^ 32 < length terms.old.nodes + 1 }
{
    if terms.len() >= 1 << 32 {
        return Err(DefinitionStop::Full);
    }
    let id = terms.add(node, 0)?;
    Ok(id)
}

/// One argument.
pub(crate) fn one(alloc: Global, id: TermId) -> Result<Items<TermId>, Memory>
    ensures { IfOk result (λ args. args ≡ id ∷ []) }
{
    let args = Vec::from_array(alloc, [id])?;
    Ok(Items::from_vec(args))
}

/// Two arguments.
pub(crate) fn two(alloc: Global, left: TermId, right: TermId) -> Result<Items<TermId>, Memory>
    ensures { IfOk result (λ args. args ≡ left ∷ right ∷ []) }
{
    let args = Vec::from_array(alloc, [left, right])?;
    Ok(Items::from_vec(args))
}

/// Three arguments.
pub(crate) fn three(
    alloc: Global,
    first: TermId,
    second: TermId,
    third: TermId,
) -> Result<Items<TermId>, Memory>
    ensures { IfOk result (λ args. args ≡ first ∷ second ∷ third ∷ []) }
{
    let args = Vec::from_array(alloc, [first, second, third])?;
    Ok(Items::from_vec(args))
}

/// One more item.
pub(crate) fn push(items: &mut Vec<TermId>, item: TermId) -> Result<(), Memory>
    ensures { OnOk result (items.new.items ≡ items.old.items ++ item ∷ []) }
{
    items.push(item)?;
    Ok(())
}
