//! Laws of the generated script, each the contract of a function that does nothing.

ghost use Rattle.std.specs.Prelude.{◌≤◌, ℕ, []};
ghost use Rattle.term_tree.specs.declared.sort.Sort.TheVariants.{Bool as Truth};
ghost use Rattle.term_tree.specs.Legal.{IsLegal};
ghost use Rattle.clause_gen.specs.Generated.{root_number, generated_nodes, generated_preds};

/// The asserted terms are legal, and of the sort of truth values.
pub fn generated_terms_are_legal()
    ensures { (depth seed : ℕ) → depth ≤ 12 →
        IsLegal generated_preds (generated_nodes depth (root_number seed)) [] Truth 14
        × IsLegal generated_preds (generated_nodes depth (root_number seed)) [] Truth 34
        × IsLegal generated_preds (generated_nodes depth (root_number seed)) [] Truth 38 }
{}
