ghost use Rattle.std.specs.Prelude.{◌≡◌, ◌<◌, ◌^◌, ◌++◌, [], ◌∷◌, length, slice_get, Some, IfOk, OnErr, IsTrue};
ghost use Rattle.term_tree.specs.Arena.{IsArena, has_parts_below};

use crate::copies::copy_nodes;
use crate::node::{Node, TermId};
use base::{Copied, Memory};
use std::alloc::Global;
use std::marker::Model;

/// Terms as an arena of nodes, each with the offset at which it starts in the text. Every node stands
/// after its parts, so a walk from a term down to its parts ends.
#[derive(Debug)]
pub struct Terms {
    nodes: Vec<Node>,
    offsets: Vec<u32>,
}

impl Drop for Terms {
    fn drop(self) {
        let Terms {
            nodes: _,
            offsets: _,
        } = self;
    }
}

impl Model for Terms {
    ghost use Rattle.std.specs.Prelude.{◌≡◌, length, vec_len};
    ghost use Rattle.term_tree.specs.Arena.{Arena, IsArena};

    ghost Value = { Arena };

    ghost view = { λ t. record { nodes = t.nodes.items; offsets = t.offsets.items } };

    ghost invariant = { λ t. (vec_len t.offsets ≡ vec_len t.nodes) × IsArena t.nodes.items };
}

impl Terms {
    /// No terms yet.
    pub fn new(alloc: Global) -> Terms
        ensures nodes { result.nodes ≡ [] }
        ensures offsets { result.offsets ≡ [] }
    {
        Terms {
            nodes: Vec::new(alloc),
            offsets: Vec::new(alloc),
        }
    }

    /// Puts a node behind those that are there, and answers its number.
    pub fn add(&mut self, node: Node, offset: u32) -> Result<TermId, Memory>
        requires room { length self.old.nodes < 2 ^ 32 }
        requires below { IsTrue (has_parts_below (length self.old.nodes) node) }
        ensures id { IfOk result (λ id. id.0 ≡ length self.old.nodes) }
        ensures nodes { IfOk result (λ _. self.new.nodes ≡ self.old.nodes ++ node ∷ []) }
        ensures offsets { IfOk result (λ _. self.new.offsets ≡ self.old.offsets ++ offset ∷ []) }
        ensures err { OnErr result (self.new ≡ self.old) }
    {
        let id = TermId(self.nodes.len() as u32);
        self.nodes.reserve(1)?;
        self.offsets.push(offset)?;
        self.nodes.push(node).unwrap();
        Ok(id)
    }

    /// The number of nodes.
    pub fn len(&self) -> usize
        ensures { result ≡ length self.now.nodes }
    {
        self.nodes.len()
    }

    /// Each node stands after its parts and has an offset, for a proof that needs it of all nodes.
    pub fn arena_law(&self)
        ensures arena { IsArena self.now.nodes }
        ensures offsets { length self.now.offsets ≡ length self.now.nodes }
    {
        let _ = &self.nodes;
    }

    /// The node of that number.
    pub fn node(&self, id: TermId) -> &Node
        requires { id.0 < length self.now.nodes }
        ensures is { slice_get self.now.nodes id.0 ≡ Some result.now }
        ensures below { IsTrue (has_parts_below id.0 result.now) }
    {
        &self.nodes[id.0 as usize]
    }

    /// Where the term of that number starts in the text.
    pub fn offset(&self, id: TermId) -> u32
        requires { id.0 < length self.now.nodes }
        ensures { slice_get self.now.offsets id.0 ≡ Some result }
    {
        self.offsets[id.0 as usize]
    }
}

impl Copied for Terms {
    fn copy(&self, alloc: Global) -> Result<Terms, Memory> {
        let nodes = copy_nodes(alloc, self.nodes.as_slice())?;
        let offsets = Vec::from_slice(alloc, self.offsets.as_slice())?;
        Ok(Terms { nodes, offsets })
    }
}
