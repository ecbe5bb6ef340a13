//! Laws of the definitions, as contracts of functions that do nothing.

ghost use Rattle.std.specs.Prelude.{◌≡◌, ◌<◌, ◌^◌, ℕ, List, Option, length};
ghost use Rattle.term_tree.specs.declared.node.Node.{Node};
ghost use Rattle.term_tree.specs.declared.sort.Sort.{Sort};
ghost use Rattle.term_tree.specs.declared.script.Pred.{Pred as Declared};
ghost use Rattle.term_tree.specs.Arena.{IsArena};
ghost use Rattle.term_tree.specs.Sorts.{sort_of};
ghost use Rattle.linear_terms.specs.Text.{places};
ghost use Rattle.term_tables.specs.machinery.Table.{AreSorts, sort_in};

/// What is found by a table of sorts is what the sorts of the terms say.
pub fn places_follow_sorts()
    ensures { (preds : List Declared) (nodes : List Node) (known : List (Option Sort)) (top : ℕ) → IsArena nodes → AreSorts preds nodes known →
        top < 2 ^ 32 → top < length nodes → places (sort_in known) nodes top ≡ places (sort_of preds nodes) nodes top }
{}
