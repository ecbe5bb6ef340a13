//! Laws of terms and trees, each the contract of a function that does nothing.

ghost use Rattle.std.specs.Prelude.{◌≡◌, ◌≤◌, ◌<◌, ℕ, List, Option, Some, length, slice_get, [], Bool, false, Ok};
ghost use Rattle.sexp_read.specs.declared.tree.Tree.{Tree};
ghost use Rattle.sexp_read.specs.declared.tree.Tree.TheViews.{List as ListTree};
ghost use Rattle.sexp_read.specs.declared.tree.TextStop.{TextStop};
ghost use Rattle.sexp_read.specs.Trees.{IsReading};
ghost use Rattle.term_check.specs.Weight.{weight};
ghost use Rattle.term_tree.specs.declared.node.TermId.{TermId};
ghost use Rattle.term_tree.specs.Arena.{Arena, IsArena};
ghost use Rattle.term_check.specs.Term.{Term, IsTermAt};
ghost use Rattle.term_tree.specs.declared.script.Pred.{Pred as Predicates};
ghost use Rattle.term_tree.specs.declared.sort.Sort.{Sort};
ghost use Rattle.term_tree.specs.Legal.{IsLegal};
ghost use Rattle.term_tree.specs.Subterms.{IsPlain};
ghost use Rattle.term_check.specs.declared.part.Part.{Part};
ghost use Rattle.term_check.specs.Parameters.{AreParameters};
ghost use Rattle.term_check.specs.Found.{IsFound, Keeps};
ghost use Rattle.term_check.specs.Spelling.{SpellingScope, Spelled, spelled, scope_of};

/// A term of an arena stays that term as the arena grows.
pub fn terms_stay()
    ensures { (old new : Arena) (lets : List TermId) (term : Term) (id : ℕ) → Keeps old new → IsTermAt old lets term id → IsTermAt new lets term id }
{}

/// A tree that a text spells has no more nodes than the text has bytes.
pub fn trees_are_light()
    ensures { (text : List ℕ) (trees : List Tree) (stop : Option TextStop) → IsReading text trees stop
        → (i : ℕ) (tree : Tree) → slice_get trees i ≡ Some tree → weight tree ≤ length text }
{}

/// A tree of a list has fewer nodes than the list.
pub fn items_are_lighter()
    ensures { (items : List Tree) (start end i : ℕ) (tree : Tree) → slice_get items i ≡ Some tree → weight tree < weight (ListTree items start end) }
{}

/// A term that a tree spells over declared predicates, without free names, is legal wherever an
/// arena has it: it is well sorted, its names are bound and its variables numbered in order of the
/// text, products and divisions are linear, and constants are short.
pub fn spelled_terms_are_legal()
    ensures { (text : List ℕ) (preds : List Predicates) (quantifies : Bool) (tree : Tree) (s : Spelled) (arena : Arena) (id : ℕ) →
        IsArena arena.nodes → spelled text (scope_of preds [] quantifies) 0 tree ≡ Ok s → IsTermAt arena [] s.term id →
        IsLegal preds arena.nodes [] s.part.sort id }
{}

/// So is a term that was found for a tree.
pub fn found_terms_are_legal()
    ensures { (text : List ℕ) (preds : List Predicates) (quantifies : Bool) (tree : Tree) (arena : Arena) (id : TermId) (part : Part) (next : ℕ) →
        IsArena arena.nodes → IsFound (spelled text (scope_of preds [] quantifies) 0 tree) arena id part next →
        IsLegal preds arena.nodes [] part.sort id.0 }
{}

/// So is a term over parameters, whose names are bound to the first variables. Where there are no
/// predicates and may be no quantifiers, it has none.
pub fn spelled_formulas_are_legal()
    ensures legal { (text : List ℕ) (scope : SpellingScope) (variables : List Sort) (tree : Tree) (s : Spelled) (arena : Arena) (id : ℕ) →
        IsArena arena.nodes → AreParameters 0 scope.names variables →
        spelled text scope (length variables) tree ≡ Ok s → IsTermAt arena [] s.term id →
        IsLegal scope.preds arena.nodes variables s.part.sort id }
    ensures plain { (text : List ℕ) (scope : SpellingScope) (variables : List Sort) (tree : Tree) (s : Spelled) (arena : Arena) (id : ℕ) →
        IsArena arena.nodes → AreParameters 0 scope.names variables → scope.preds ≡ [] → scope.quantifies ≡ false →
        spelled text scope (length variables) tree ≡ Ok s → IsTermAt arena [] s.term id →
        IsPlain arena.nodes id }
{}
