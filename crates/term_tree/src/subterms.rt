ghost use Rattle.std.specs.Prelude.{◌≡◌, ◌<◌, ℕ, length, IfOk, true, false};
ghost use Rattle.term_tree.specs.Subterms.{IsSubterm};
ghost use Rattle.term_tree.specs.machinery.Walk.{IsClosed, has_number};

use crate::node::TermId;
use crate::pending::{put_parts, take_greatest};
use crate::terms::Terms;
use base::Memory;
use std::alloc::Global;
use std::collections::BTreeSet;

/// The numbers of the subterms of a term, each before its parts. The greatest number that waits comes
/// next, so each comes once.
pub(crate) fn subterms(alloc: Global, terms: &Terms, top: TermId) -> Result<Vec<u32>, Memory>
    requires { top.0 < length terms.now.nodes }
    ensures inside { IfOk result (λ ids. (q : ℕ) → has_number q ids.items ≡ true → IsSubterm terms.now.nodes top.0 q) }
    ensures there { IfOk result (λ ids. (q : ℕ) → has_number q ids.items ≡ true → q < length terms.now.nodes) }
    ensures closed { IfOk result (λ ids. IsClosed terms.now.nodes (λ q. false) ids.items) }
    ensures top { IfOk result (λ ids. has_number top.0 ids.items ≡ true) }
{
    let mut ids = Vec::new(alloc);
    let mut waiting = BTreeSet::new(alloc);
    ids.push(top.0)?;
    put_parts(&mut waiting, terms.node(top))?;
    let mut last = top.0;
    while let Some(id) = take_greatest(&mut waiting) {
        ids.push(id)?;
        put_parts(&mut waiting, terms.node(TermId(id)))?;
        last = id;
    }
    Ok(ids)
}
