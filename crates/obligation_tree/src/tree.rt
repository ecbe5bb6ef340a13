ghost use Rattle.std.specs.Prelude.{◌≡◌, ◌∷◌, [], ◌++◌, ◌<◌, ◌≤◌, ◌-◌, ◌^◌, length, replicate, not, true, false, None, Some, is_some, slice_index_or, IsTrue, IfOk, OnOk, OnErr};
ghost use Rattle.std.specs.Bool.{OnTrue, OnFalse};
ghost use Rattle.std.specs.List.{list_any};
ghost use Rattle.std.specs.List.Sorted.{IsStrictlyIncreasing};
ghost use Rattle.obligation_tree.specs.Nodes.{fresh, has_live_child, is_live_at, leaf_numbers, live_numbers, marked_at, node_at, root};
ghost use Rattle.obligation_tree.specs.Closing.{after};
ghost use Rattle.obligation_tree.specs.Claims.{claimed, is_claim_of, is_held_by_another, most_workers, released};
ghost use Rattle.obligation_tree.specs.Shape.{IsTree};
ghost use Rattle.obligation_tree.specs.machinery.Passes.{is_among};

use crate::cause::Cause;
use crate::closing::closed;
use crate::index::Index;
use crate::node::Node;
use crate::obligation::Obligation;
use base::Memory;
use cube_forms::{Cube, CubeStop, Held, Table, Tuple};
use std::alloc::Global;
use std::marker::Model;

/// How many workers there may be.
const WORKERS: usize = 64;

/// All obligations that there have been, in order of number, and what each worker holds. Versions
/// share the obligations and the lists of the live ones.
pub struct Tree {
    nodes: Table<Node>,
    index: Held<Index>,
    claims: [Option<u32>; WORKERS],
}

impl Drop for Tree {
    fn drop(self) {
        let Tree {
            nodes: _,
            index: _,
            claims: _,
        } = self;
    }
}

impl Model for Tree {
    ghost use Rattle.obligation_tree.specs.Nodes.{TreeState};
    ghost use Rattle.obligation_tree.specs.machinery.Passes.{IsKept};

    ghost Value = { TreeState };

    ghost view = { λ t. record { nodes = t.nodes; claims = t.claims } };

    ghost invariant = { λ t. IsKept t.nodes t.index };
}

impl Tree {
    /// The root alone, at level 1, and no claim.
    pub fn new(alloc: Global) -> Result<Tree, Memory>
        ensures { IfOk result (λ tree. tree ≡ record { nodes = fresh (root 1) ∷ []; claims = replicate most_workers None }) }
    {
        let node = Node::new(alloc, root(alloc)?)?;
        let mut nodes = Table::new(alloc)?;
        nodes.push(node)?;
        let index = first(alloc)?;
        Ok(Tree {
            nodes,
            index,
            claims: [None; WORKERS],
        })
    }

    /// How many obligations there have been; their numbers are below it.
    pub fn count(&self) -> u32
        ensures { result ≡ length self.now.nodes }
    {
        self.nodes.count()
    }

    /// What every tree keeps.
    pub fn tree_law(&self)
        ensures { IsTree self.now.nodes }
    {
        let _nodes = &self.nodes;
    }

    /// The obligation of a number.
    pub fn obligation(&self, id: u32) -> &Obligation
        requires { id < length self.now.nodes }
        ensures { result.now ≡ (node_at self.now.nodes id).obligation }
    {
        self.nodes.get(id).obligation.get()
    }

    /// The journal entry that closed it; `None` exactly where it is live.
    pub fn closed_by(&self, id: u32) -> Option<u64>
        requires { id < length self.now.nodes }
        ensures { result ≡ (node_at self.now.nodes id).closed_by }
    {
        self.nodes.get(id).closed_by
    }

    /// Whether no entry has closed it.
    pub fn is_live(&self, id: u32) -> bool
        requires { id < length self.now.nodes }
        ensures { result ≡ is_live_at self.now.nodes id }
    {
        self.nodes.get(id).is_live()
    }

    /// Whether `stall` has marked it.
    pub fn is_stalled(&self, id: u32) -> bool
        requires { id < length self.now.nodes }
        ensures { result ≡ (node_at self.now.nodes id).stalled }
    {
        self.nodes.get(id).stalled
    }

    /// The numbers of the live obligations, ascending.
    pub fn live(&self) -> &[u32]
        ensures { result.now ≡ live_numbers self.now.nodes }
    {
        self.index.get().live.as_slice()
    }

    /// The numbers of the live obligations without live children, ascending.
    pub fn live_leaves(&self) -> &[u32]
        ensures { result.now ≡ leaf_numbers self.now.nodes }
    {
        self.index.get().leaves.as_slice()
    }

    /// A list of `live_leaves`.
    pub fn leaves(&self) -> Result<Vec<u32>, Memory>
        ensures { IfOk result (λ leaves. leaves.items ≡ leaf_numbers self.now.nodes) }
    {
        let alloc = *self.index.get().leaves.allocator();
        Ok(Vec::from_slice(alloc, self.live_leaves())?)
    }

    /// Adds a live obligation of a predicate, which hangs under a live one, and answers its number. Of
    /// false only the root asks.
    pub fn add(&mut self, obligation: Obligation) -> Result<u32, Memory>
        requires parent { IsTrue (is_live_at self.old.nodes obligation.parent) }
        requires pred { is_some obligation.pred ≡ true }
        requires room { length self.old.nodes < 2 ^ 32 - 1 }
        ensures number { IfOk result (λ number. number ≡ length self.old.nodes) }
        ensures ok { OnOk result (self.new ≡ record self.old { nodes = self.old.nodes ++ fresh obligation ∷ [] }) }
        ensures err { OnErr result (self.new ≡ self.old) }
    {
        let number = self.nodes.count();
        let alloc = *self.index.get().leaves.allocator();
        let index = self.index.get().with(alloc, obligation.parent, number)?;
        let node = Node::new(alloc, obligation)?;
        self.nodes.push(node)?;
        self.index = index;
        Ok(number)
    }

    /// Closes what the cause closes by itself, and all that hangs under it, with the number of the
    /// journal's entry; a raise gives the root its level, too.
    pub fn close_by(&mut self, cause: Cause, entry: u64) -> Result<(), Memory>
        ensures ok { OnOk result (self.new ≡ record self.old { nodes = after cause.entry entry self.old.nodes }) }
        ensures err { OnErr result (self.new ≡ self.old) }
    {
        let alloc = *self.index.get().leaves.allocator();
        let (nodes, index) = closed(alloc, &self.nodes, self.index.get(), cause, entry)?;
        let index = Held::new(alloc, index)?;
        self.nodes = nodes;
        self.index = index;
        Ok(())
    }

    /// Marks an obligation as stalled.
    pub fn stall(&mut self, id: u32) -> Result<(), Memory>
        requires { id < length self.old.nodes }
        ensures ok { OnOk result (self.new ≡ record self.old { nodes = marked_at id self.old.nodes }) }
        ensures err { OnErr result (self.new ≡ self.old) }
    {
        let node = self.nodes.get(id).marked()?;
        self.nodes.set(id, node)?;
        Ok(())
    }

    /// Claims the obligation for a worker, who holds it and no other then. It is false exactly where
    /// another worker holds it, and then nothing changes. Workers are numbered from 1 to 64.
    pub fn claim(&mut self, id: u32, worker: u32) -> bool
        requires first { 0 < worker }
        requires last { worker ≤ most_workers }
        ensures answer { result ≡ not (is_held_by_another id worker self.old.claims) }
        ensures claimed { OnTrue result (self.new ≡ record self.old { claims = claimed id worker self.old.claims }) }
        ensures holds { OnTrue result (slice_index_or self.new.claims (worker - 1) None ≡ Some id) }
        ensures unchanged { OnFalse result (self.new ≡ self.old) }
    {
        let own = (worker - 1) as usize;
        let mut claims = self.claims;
        claims[own] = None;
        if is_held(&claims, id) {
            return false;
        }
        claims[own] = Some(id);
        self.claims = claims;
        true
    }

    /// The worker holds no obligation from now on.
    pub fn release(&mut self, worker: u32)
        requires first { 0 < worker }
        requires last { worker ≤ most_workers }
        ensures { self.new ≡ record self.old { claims = released worker self.old.claims } }
    {
        self.claims[(worker - 1) as usize] = None;
    }

    /// Whether a live obligation hangs right under it.
    pub fn has_live_child(&self, id: u32) -> bool
        requires { id < length self.now.nodes }
        ensures { result ≡ has_live_child self.now.nodes id }
    {
        self.nodes.get(id).is_live() && !is_among(id, self.index.get().leaves.as_slice())
    }

    /// An equal tree, claims too, which shares the obligations and the lists.
    pub fn share(&self) -> Result<Tree, Memory>
        ensures { IfOk result (λ tree. tree ≡ self.now) }
    {
        let index = self.index.share()?;
        let nodes = self.nodes.share()?;
        Ok(Tree {
            nodes,
            index,
            claims: self.claims,
        })
    }
}

/// The obligation for false.
fn root(alloc: Global) -> Result<Obligation, Memory>
    ensures { IfOk result (λ obligation. obligation ≡ root 1) }
{
    Ok(Obligation {
        pred: None,
        level: 1,
        cube: empty(alloc)?,
        point: Tuple::from_slice(alloc, &[])?,
        parent: 0,
        clause: 0,
        atom: 0,
    })
}

/// The cube of all tuples.
fn empty(alloc: Global) -> Result<Cube, Memory>
    ensures { IfOk result (λ cube. cube ≡ []) }
{
    match Cube::new(alloc, Vec::new(alloc)) {
        Ok(cube) => Ok(cube),
        Err(CubeStop::Memory) => Err(Memory),
        Err(CubeStop::Wide) => unreachable!(),
    }
}

/// The lists of the root alone.
fn first(alloc: Global) -> Result<Held<Index>, Memory>
    ensures live { IfOk result (λ index. index.live.items ≡ 0 ∷ []) }
    ensures leaves { IfOk result (λ index. index.leaves.items ≡ 0 ∷ []) }
{
    let live = Vec::from_slice(alloc, &[0])?;
    let leaves = Vec::from_slice(alloc, &[0])?;
    Ok(Held::new(alloc, Index { live, leaves })?)
}

/// Whether the number is one of these, which ascend.
fn is_among(number: u32, numbers: &[u32]) -> bool
    requires { IsStrictlyIncreasing numbers.now }
    ensures { result ≡ is_among number numbers.now }
{
    match numbers.binary_search(&number) {
        Ok(_) => true,
        Err(_) => false,
    }
}

/// Whether one of these claims is of the obligation.
fn is_held(claims: &[Option<u32>], number: u32) -> bool
    ensures { result ≡ list_any (is_claim_of number) claims.now }
{
    for claim in claims {
        if is_claim_of(number, *claim) {
            return true;
        }
    }
    false
}

/// Whether the claim is of the obligation.
fn is_claim_of(number: u32, claim: Option<u32>) -> bool
    ensures { result ≡ is_claim_of number claim }
{
    match claim {
        None => false,
        Some(held) => held == number,
    }
}
