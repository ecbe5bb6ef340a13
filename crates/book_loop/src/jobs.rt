//! Which obligation is asked next.

ghost use Rattle.std.specs.Prelude.{◌≡◌, None, Some, IfSome};
ghost use Rattle.obligation_tree.specs.Nodes.{IsLiveLeaf};
ghost use Rattle.book_rules.specs.Legal.{end};
ghost use Rattle.chc_core.specs.Views.{standing_of, state_of};
ghost use Rattle.obligation_turn.specs.Turns.{IsOpenLeaf};
ghost use Rattle.search_strategy.specs.Jobs.{IsFirst};
ghost use Rattle.search_strategy.specs.machinery.Choosing.{first_of, next_first};
ghost use Rattle.book_loop.specs.machinery.Jobs.{AreStalled, IsJob, is_stalled};

use chc_core::Book;
use obligation_tree::Tree;
use search_strategy::is_before;

/// The first of those so far and one more.
fn better(tree: &Tree, best: Option<u32>, id: u32) -> u32
    requires best { IfSome best (IsJob tree.now.nodes) }
    requires id { IsJob tree.now.nodes id }
    ensures job { IsJob tree.now.nodes result }
    ensures is { Some result ≡ first_of tree.now.nodes best id }
{
    match best {
        None => id,
        Some(first) => {
            if is_before(tree, id, first) {
                id
            } else {
                first
            }
        }
    }
}

/// The first of those so far and one more, which may be stalled.
fn with_leaf(tree: &Tree, best: Option<u32>, id: u32) -> Option<u32>
    requires best { IfSome best (IsJob tree.now.nodes) }
    requires leaf { IsLiveLeaf tree.now.nodes id }
    ensures job { IfSome result (IsJob tree.now.nodes) }
    ensures is { result ≡ next_first tree.now.nodes (is_stalled tree.now.nodes) best id }
{
    if tree.is_stalled(id) {
        best
    } else {
        Some(better(tree, best, id))
    }
}

/// Of the live obligations without live children that aren't stalled, the oldest of the lowest level.
fn best_leaf(tree: &Tree) -> Option<u32>
    ensures first { IfSome result (IsFirst tree.now.nodes (IsJob tree.now.nodes)) }
    ensures none { result ≡ None → AreStalled tree.now.nodes }
{
    let mut best = None;
    for id in tree.live_leaves() {
        best = with_leaf(tree, best, *id);
    }
    best
}

/// The obligation that is asked next: of those that may be asked, the oldest of the lowest level. There
/// is one as long as the book has no end.
pub(crate) fn next_job(book: &Book) -> u32
    requires { end (state_of book.now) ≡ None }
    ensures { IsFirst book.now.tree.nodes (IsOpenLeaf (standing_of book.now)) result }
{
    let tree = book.tree();
    match best_leaf(tree) {
        Some(job) => job,
        None => unreachable!(),
    }
}
