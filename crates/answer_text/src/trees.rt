//! Sorts among trees.

ghost use Rattle.std.specs.Prelude.{◌≡◌};
ghost use Rattle.answer_text.specs.Reading.{names_sort};

use sexp_read::Tree;
use term_check::sort_named;
use term_tree::Sort;

/// Whether the tree names that sort.
pub fn has_sort(text: &[u8], tree: &Tree, sort: Sort) -> bool
    ensures { result ≡ names_sort text.now tree.now sort }
{
    match (sort_named(text, tree), sort) {
        (Some(Sort::Int), Sort::Int) => true,
        (Some(Sort::Bool), Sort::Bool) => true,
        _ => false,
    }
}
