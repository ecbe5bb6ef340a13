//! Laws of definitions that are made of lemmas, as contracts of functions that do nothing.

ghost use Rattle.std.specs.Prelude.{◌≡◌, ◌↔◌, ◌<◌, ℕ, List, map, true};
ghost use Rattle.std.specs.List.{AllByRecursion};
ghost use Rattle.term_tree.specs.declared.definition.Definition.{Definition};
ghost use Rattle.term_tree.specs.declared.scalar.Value.{Value};
ghost use Rattle.term_tree.specs.declared.scalar.Value.TheVariants.{Bool as Truth};
ghost use Rattle.term_tree.specs.declared.script.Pred.{Pred};
ghost use Rattle.term_tree.specs.Solution.{AreFormulas, DefinesEach};
ghost use Rattle.term_tree.specs.Truth.{HaveSorts};
ghost use Rattle.term_tree.specs.Value.{environment_of, value_of};
ghost use Rattle.linear_terms.specs.Meeting.{number};
ghost use Rattle.lemma_frames.specs.Frames.{FrameHolds};
ghost use Rattle.lemma_frames.specs.declared.framed.Framed.{Framed};
ghost use Rattle.answer_text.specs.Printable.{IsMadeOfLemmas};
ghost use Rattle.interpretations.specs.Definitions.{AreDefinitionsOf, IsDefinitionOf};

/// The definitions are those of the declared predicates, and can be printed.
pub fn definitions_are_printed()
    ensures defined { (lemmas : List Framed) (k : ℕ) (preds : List Pred) (definitions : List Definition) → AreDefinitionsOf lemmas k 0 preds definitions → DefinesEach 0 preds definitions }
    ensures printed { (lemmas : List Framed) (k : ℕ) (preds : List Pred) (definitions : List Definition) → AreDefinitionsOf lemmas k 0 preds definitions
        → AllByRecursion (IsMadeOfLemmas preds) definitions }
{}

/// The defining terms are formulas over the parameters, in numbers below 2^63.
pub fn definitions_are_formulas()
    ensures { (lemmas : List Framed) (k : ℕ) (preds : List Pred) (definitions : List Definition) → AreDefinitionsOf lemmas k 0 preds definitions → AreFormulas preds definitions }
{}

/// A definition is true at exactly the values whose tuple is in the frame: each of the frame's lemmas
/// on the predicate accepts it. A Bool value is 1 or 0 there.
pub fn definitions_are_true_in_the_frame()
    ensures { (lemmas : List Framed) (k pred : ℕ) (declared : Pred) (d : Definition) (values : List Value) → 0 < k → IsDefinitionOf lemmas k pred declared d → HaveSorts declared.args values →
        ((value_of d.terms.nodes d.body.0 (environment_of values) ≡ Truth true) ↔ FrameHolds lemmas pred k (map number values)) }
{}
