//! What is a live child of an obligation, for the rules that look at live children.

ghost use Rattle.std.specs.Prelude.{◌≡◌};
ghost use Rattle.step_rules.specs.machinery.Walks.{child_at};

use obligation_tree::Tree;

/// Whether the obligation of that number is a live child of the parent.
pub(crate) fn is_child(tree: &Tree, id: u32, parent: u32) -> bool
    ensures { result ≡ child_at tree.now.nodes parent id }
{
    if id >= tree.count() {
        return false;
    }
    let obligation = tree.obligation(id);
    tree.is_live(id) && obligation.pred.is_some() && obligation.parent == parent
}
