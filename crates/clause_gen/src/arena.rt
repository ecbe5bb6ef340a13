ghost use Rattle.std.specs.Prelude.{◌≡◌, ◌<◌, ◌^◌, IfOk, IsTrue, length, replicate};
ghost use Rattle.clause_gen.specs.machinery.Order.{are_in_order};

use base::{Copied, Memory};
use std::alloc::Global;
use term_tree::{Node, Terms};

/// The arena of these nodes, each of which stands after its parts, with every offset 0.
pub(crate) fn terms_of(alloc: Global, nodes: &[Node]) -> Result<Terms, Memory>
    requires order { IsTrue (are_in_order 0 nodes.now) }
    requires room { length nodes.now < 2 ^ 32 }
    ensures nodes { IfOk result (λ terms. terms.nodes ≡ nodes.now) }
    ensures offsets { IfOk result (λ terms. terms.offsets ≡ replicate (length nodes.now) 0) }
{
    let mut terms = Terms::new(alloc);
    for node in nodes {
        terms.add(node.copy(alloc)?, 0)?;
    }
    Ok(terms)
}
