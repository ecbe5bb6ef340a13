ghost use Rattle.std.specs.Prelude.{◌≡◌, ◌-◌, option_map, slice_get};
ghost use Rattle.book_rules.specs.declared.by.By.TheVariants.{Entry};
ghost use Rattle.book_rules.specs.State.{unless_live};
ghost use Rattle.step_rules.specs.Views.{obligations_of};

use book_rules::By;
use obligation_tree::Tree;

/// The level below; 0 stays.
pub(crate) fn below(level: u32) -> u32
    ensures { result ≡ level - 1 }
{
    if level == 0 { 0 } else { level - 1 }
}

/// The entry that closed it, as what breaks a rule; nothing where there is none.
fn told_of_closing(closed: Option<u64>) -> Option<By>
    ensures { result ≡ option_map Entry closed }
{
    match closed {
        Some(entry) => Some(By::Entry(entry)),
        None => None,
    }
}

/// Why the obligation of a number isn't live; nothing where it is.
pub(crate) fn unless_live(tree: &Tree, id: u32) -> Option<By>
    ensures { result ≡ unless_live (slice_get (obligations_of tree.now.nodes) id) }
{
    if id >= tree.count() {
        return Some(By::Step);
    }
    told_of_closing(tree.closed_by(id))
}
