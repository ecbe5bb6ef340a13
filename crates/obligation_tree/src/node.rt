ghost use Rattle.std.specs.Prelude.{◌≡◌, Some, None, true, false, IfOk};
ghost use Rattle.obligation_tree.specs.Nodes.{closed_with, fresh, is_live};

use crate::obligation::Obligation;
use base::Memory;
use cube_forms::Held;
use std::alloc::Global;

/// An obligation as the tree keeps it: with the journal entry that closed it, `None` while it is
/// live, and whether it is stalled. Versions share the obligation itself.
pub struct Node {
    pub(crate) obligation: Held<Obligation>,
    pub(crate) closed_by: Option<u64>,
    pub(crate) stalled: bool,
}

impl Drop for Node {
    fn drop(self) {
        let Node {
            obligation: _,
            closed_by: _,
            stalled: _,
        } = self;
    }
}

impl Node {
    /// A live obligation that isn't stalled.
    pub(crate) fn new(alloc: Global, obligation: Obligation) -> Result<Node, Memory>
        ensures { IfOk result (λ node. node ≡ fresh obligation) }
    {
        Ok(Node {
            obligation: Held::new(alloc, obligation)?,
            closed_by: None,
            stalled: false,
        })
    }

    /// The node with its obligation, closed by an entry.
    pub(crate) fn closed(&self, entry: u64) -> Result<Node, Memory>
        ensures { IfOk result (λ node. node ≡ closed_with entry self.now) }
    {
        Ok(Node {
            obligation: self.obligation.share()?,
            closed_by: Some(entry),
            stalled: self.stalled,
        })
    }

    /// The node with its obligation, stalled.
    pub(crate) fn marked(&self) -> Result<Node, Memory>
        ensures { IfOk result (λ node. node ≡ record self.now { stalled = true }) }
    {
        Ok(Node {
            obligation: self.obligation.share()?,
            closed_by: self.closed_by,
            stalled: true,
        })
    }

    /// The node with its obligation at another level.
    pub(crate) fn at_level(&self, alloc: Global, level: u32) -> Result<Node, Memory>
        ensures { IfOk result (λ node. node ≡ record self.now { obligation = record self.now.obligation { level = level } }) }
    {
        let obligation = self.obligation.get().at_level(alloc, level)?;
        Ok(Node {
            obligation: Held::new(alloc, obligation)?,
            closed_by: self.closed_by,
            stalled: self.stalled,
        })
    }

    /// Whether no entry has closed it.
    pub(crate) fn is_live(&self) -> bool
        ensures { result ≡ is_live self.now }
    {
        self.closed_by.is_none()
    }
}
