ghost use Rattle.std.specs.Prelude.{◌≡◌, ◌↔◌, ℕ, List, slice_get, Ok, Some, None, true};
ghost use Rattle.term_tree.specs.declared.definition.Definition.{Definition};
ghost use Rattle.term_tree.specs.declared.node.Node.{Node};
ghost use Rattle.term_tree.specs.declared.node.TermId.{TermId};
ghost use Rattle.term_tree.specs.declared.scalar.Value.{Value};
ghost use Rattle.term_tree.specs.declared.script.Assertion.{Assertion};
ghost use Rattle.term_tree.specs.declared.script.Script.{Script};
ghost use Rattle.term_tree.specs.Arena.{IsArena};
ghost use Rattle.term_tree.specs.Operators.{truth};
ghost use Rattle.term_tree.specs.Solution.{AreFormulas, DefinesEach, IsSolution, IsTrueUnder, interpretation_of};
ghost use Rattle.term_tree.specs.Truth.{Interpretation, HasValue};
ghost use Rattle.term_tree.specs.Value.{Environment};
ghost use Rattle.term_tree.specs.Subterms.{IsPlain};
ghost use Rattle.horn_shape.specs.declared.clause.HornClause.{HornClause};
ghost use Rattle.horn_shape.specs.Breaking.{Breaks, IsFalseUnder};
ghost use Rattle.horn_shape.specs.Clause.{IsClauseOf, IsLegalScript};
ghost use Rattle.horn_shape.specs.Derivation.{IsDerivableWithin};
ghost use Rattle.horn_shape.specs.Plain.{is_plain_term};
ghost use Rattle.horn_shape.specs.Shape.{Content, body_reading};
ghost use Rattle.horn_shape.specs.Content.{met};

/// The test of terms without predicates and quantifiers is right: no subterm has any.
pub fn plain_terms_are_plain()
    ensures { (nodes : List Node) (id : ℕ) → IsArena nodes → is_plain_term nodes id ≡ true → IsPlain nodes id }
{}

/// What a term gives as a body is what it says: it has a value, which is true exactly where all of its
/// guards and atoms are.
pub fn bodies_say_their_parts()
    ensures { (I : Interpretation) (nodes : List Node) (id : TermId) (lets : List TermId) (content : Content) (E : Environment) →
        IsArena nodes → body_reading nodes id.0 (record { term = id; lets = lets }) ≡ Ok content →
        (v : Value) × HasValue I nodes id.0 E v × (truth v ≡ met I nodes E content) }
{}

/// Under definitions an assertion is true exactly where no instance breaks its clause, and false exactly
/// where one does: values that make its guards and body atoms true and its head not.
pub fn breaking_instances()
    ensures true_ { (script : Script) (definitions : List Definition) (index : ℕ) (assertion : Assertion) (clause : HornClause) →
        IsArena script.terms.nodes → IsLegalScript script → slice_get script.asserts index ≡ Some assertion → IsClauseOf script index clause →
        DefinesEach 0 script.preds definitions → AreFormulas script.preds definitions →
        (IsTrueUnder definitions script assertion ↔ ((values : List Value) → Breaks (interpretation_of definitions) script clause values → ⊥)) }
    ensures false_ { (script : Script) (definitions : List Definition) (index : ℕ) (assertion : Assertion) (clause : HornClause) →
        IsArena script.terms.nodes → IsLegalScript script → slice_get script.asserts index ≡ Some assertion → IsClauseOf script index clause →
        DefinesEach 0 script.preds definitions → AreFormulas script.preds definitions →
        (IsFalseUnder definitions script assertion ↔ ((values : List Value) × Breaks (interpretation_of definitions) script clause values)) }
{}

/// Where each assertion has a clause, definitions are a solution exactly where no instance of any
/// assertion breaks its clause.
pub fn unbroken_definitions()
    ensures { (script : Script) (definitions : List Definition) →
        IsArena script.terms.nodes → IsLegalScript script → DefinesEach 0 script.preds definitions → AreFormulas script.preds definitions →
        ((index : ℕ) (assertion : Assertion) → slice_get script.asserts index ≡ Some assertion → (clause : HornClause) × IsClauseOf script index clause) →
        (IsSolution script definitions ↔ ((index : ℕ) (clause : HornClause) (values : List Value) → IsClauseOf script index clause →
        Breaks (interpretation_of definitions) script clause values → ⊥)) }
{}

/// There is one answer: a script with a derivation of false has no solution.
pub fn one_answer()
    ensures { (script : Script) (definitions : List Definition) (h : ℕ) →
        IsArena script.terms.nodes → IsLegalScript script → IsDerivableWithin script h None → IsSolution script definitions → ⊥ }
{}
