//! Laws of the definitions, as contracts of functions that do nothing.

ghost use Rattle.std.specs.Prelude.{◌≡◌, ℕ, List, length};
ghost use Rattle.std.specs.Prelude.{◌<◌};
ghost use Rattle.term_tree.specs.declared.node.Node.{Node};
ghost use Rattle.term_tree.specs.Arena.{IsArena};
ghost use Rattle.term_tree.specs.Constants.{constant_of, has_short_constants};
ghost use Rattle.term_tree.specs.Subterms.{EverySubterm, IsSubterm};
ghost use Rattle.term_tables.specs.machinery.Table.{short_constant_of};

/// In a term all of whose constants are below 2^63 in magnitude, with the prefixes of its products,
/// as in every legal one, what a table keeps is the value of each constant.
pub fn short_constants_are_constants()
    ensures { (nodes : List Node) (top id : ℕ) → IsArena nodes → EverySubterm (has_short_constants (constant_of nodes)) nodes top →
        IsSubterm nodes top id → id < length nodes → short_constant_of nodes id ≡ constant_of nodes id }
{}
