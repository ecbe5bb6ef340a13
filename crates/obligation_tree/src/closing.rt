ghost use Rattle.std.specs.Prelude.{◌≡◌, ◌<◌, ℕ, length, not, filter, false, slice_index, slice_index_or, IfOk, OnOk};
ghost use Rattle.std.specs.List.{list_any};
ghost use Rattle.obligation_tree.specs.Nodes.{is_child_of, is_live_at, parent_at};
ghost use Rattle.obligation_tree.specs.Closing.{after, hits, is_closed_at};
ghost use Rattle.obligation_tree.specs.machinery.Passes.{IsKept, levelled, settled_all, settled_at};

use crate::cause::Cause;
use crate::index::Index;
use crate::node::Node;
use base::Memory;
use cube_forms::Table;
use std::alloc::Global;

/// So many live obligations are held against each other; of more, a mark is made for each number.
const FEW: usize = 16;

/// Whether the obligation of that number is there and closed.
fn is_closed_at(nodes: &Table<Node>, number: u32) -> bool
    ensures { result ≡ is_closed_at nodes.now number }
{
    number < nodes.count() && !nodes.get(number).is_live()
}

/// Closes a live obligation if the cause closes it by itself, or if its parent is closed by now.
fn settle(nodes: &mut Table<Node>, number: u32, cause: Cause, entry: u64) -> Result<(), Memory>
    requires { number < length nodes.old }
    ensures { OnOk result (nodes.new ≡ settled_at (hits cause.entry) entry number nodes.old) }
{
    let node = nodes.get(number);
    let obligation = node.obligation.get();
    if cause.hits(number, obligation) || is_closed_at(nodes, obligation.parent) {
        let closed = node.closed(entry)?;
        nodes.set(number, closed)?;
    }
    Ok(())
}

/// Settles live obligations in order of number.
fn settle_all(
    nodes: &mut Table<Node>,
    numbers: &[u32],
    cause: Cause,
    entry: u64,
) -> Result<(), Memory>
    requires { (k : ℕ) → k < length numbers.now → slice_index numbers.now k < length nodes.old }
    ensures { OnOk result (nodes.new ≡ settled_all (hits cause.entry) entry numbers.now nodes.old) }
{
    for number in numbers {
        settle(nodes, *number, cause, entry)?;
    }
    Ok(())
}

/// Of the numbers those whose obligations are live, in order.
fn live_among(alloc: Global, nodes: &Table<Node>, numbers: &[u32]) -> Result<Vec<u32>, Memory>
    requires { (k : ℕ) → k < length numbers.now → slice_index numbers.now k < length nodes.now }
    ensures { IfOk result (λ live. live.items ≡ filter (is_live_at nodes.now) numbers.now) }
{
    let mut live = Vec::with_capacity(alloc, numbers.len())?;
    for number in numbers {
        if nodes.get(*number).is_live() {
            live.push(*number)?;
        }
    }
    Ok(live)
}

/// For each number, whether one of these obligations hangs right under it.
fn parents_of(alloc: Global, nodes: &Table<Node>, numbers: &[u32]) -> Result<Vec<bool>, Memory>
    requires within { (k : ℕ) → k < length numbers.now → slice_index numbers.now k < length nodes.now }
    requires parents { (k : ℕ) → k < length numbers.now → parent_at nodes.now (slice_index numbers.now k) < length nodes.now }
    ensures long { IfOk result (λ flags. length flags.items ≡ length nodes.now) }
    ensures flags { IfOk result (λ flags. (number : ℕ) → slice_index_or flags.items number false ≡ list_any (is_child_of nodes.now number) numbers.now) }
{
    let mut flags = vec![in alloc; false; nodes.count() as usize]?;
    for number in numbers {
        let parent = nodes.get(*number).obligation.get().parent as usize;
        if *number > 0 {
            flags[parent] = true;
        }
    }
    Ok(flags)
}

/// Whether an obligation hangs right under a number.
fn is_child(nodes: &Table<Node>, number: u32, child: u32) -> bool
    requires { child < length nodes.now }
    ensures { result ≡ is_child_of nodes.now number child }
{
    child > 0 && nodes.get(child).obligation.get().parent == number
}

/// Whether one of these obligations does.
fn has_child(nodes: &Table<Node>, numbers: &[u32], number: u32) -> bool
    requires { (k : ℕ) → k < length numbers.now → slice_index numbers.now k < length nodes.now }
    ensures { result ≡ list_any (is_child_of nodes.now number) numbers.now }
{
    for child in numbers {
        if is_child(nodes, number, *child) {
            return true;
        }
    }
    false
}

/// Of a few numbers those under which no obligation of one of them hangs, in order: each is held
/// against each.
fn childless_of_few(alloc: Global, nodes: &Table<Node>, numbers: &[u32]) -> Result<Vec<u32>, Memory>
    requires { (k : ℕ) → k < length numbers.now → slice_index numbers.now k < length nodes.now }
    ensures { IfOk result (λ leaves. leaves.items ≡ filter (λ number. not (list_any (is_child_of nodes.now number) numbers.now)) numbers.now) }
{
    let mut leaves = Vec::with_capacity(alloc, numbers.len())?;
    for number in numbers {
        if !has_child(nodes, numbers, *number) {
            leaves.push(*number)?;
        }
    }
    Ok(leaves)
}

/// Of the numbers those under which no obligation of one of them hangs, in order.
fn childless(alloc: Global, nodes: &Table<Node>, numbers: &[u32]) -> Result<Vec<u32>, Memory>
    requires within { (k : ℕ) → k < length numbers.now → slice_index numbers.now k < length nodes.now }
    requires parents { (k : ℕ) → k < length numbers.now → parent_at nodes.now (slice_index numbers.now k) < length nodes.now }
    ensures { IfOk result (λ leaves. leaves.items ≡ filter (λ number. not (list_any (is_child_of nodes.now number) numbers.now)) numbers.now) }
{
    if numbers.len() <= FEW {
        return childless_of_few(alloc, nodes, numbers);
    }
    let flags = parents_of(alloc, nodes, numbers)?;
    let mut leaves = Vec::with_capacity(alloc, numbers.len())?;
    for number in numbers {
        if !flags[*number as usize] {
            leaves.push(*number)?;
        }
    }
    Ok(leaves)
}

/// Gives the root the level of a raise.
fn level_root(alloc: Global, nodes: &mut Table<Node>, cause: Cause) -> Result<(), Memory>
    requires { 0 < length nodes.old }
    ensures { OnOk result (nodes.new ≡ levelled cause.entry nodes.old) }
{
    match cause {
        Cause::Raise { level } => {
            let root = nodes.get(0).at_level(alloc, level)?;
            nodes.set(0, root)?;
            Ok(())
        }
        Cause::Lemma { .. } => Ok(()),
        Cause::Fact { .. } => Ok(()),
    }
}

/// The next version of all obligations and of their lists, after a cause.
pub(crate) fn closed(
    alloc: Global,
    nodes: &Table<Node>,
    index: &Index,
    cause: Cause,
    entry: u64,
) -> Result<(Table<Node>, Index), Memory>
    requires { IsKept nodes.now index.now }
    ensures nodes { IfOk result (λ next. next.0 ≡ after cause.entry entry nodes.now) }
    ensures kept { IfOk result (λ next. IsKept next.0 next.1) }
{
    let mut nodes = nodes.share()?;
    settle_all(&mut nodes, index.live.as_slice(), cause, entry)?;
    let live = live_among(alloc, &nodes, index.live.as_slice())?;
    let leaves = childless(alloc, &nodes, live.as_slice())?;
    level_root(alloc, &mut nodes, cause)?;
    Ok((nodes, Index { live, leaves }))
}
