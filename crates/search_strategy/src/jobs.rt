//! Which obligation is asked first.

ghost use Rattle.std.specs.Prelude.{◌≡◌, ◌<◌, length};
ghost use Rattle.search_strategy.specs.Jobs.{is_before};

use obligation_tree::Tree;

/// Whether an obligation is asked before another one: it is of a lower level, or of the same and older.
pub fn is_before(tree: &Tree, one: u32, other: u32) -> bool
    requires one { one < length tree.now.nodes }
    requires other { other < length tree.now.nodes }
    ensures { result ≡ is_before tree.now.nodes one other }
{
    let first = tree.obligation(one).level;
    let second = tree.obligation(other).level;
    first < second || (first == second && one < other)
}
