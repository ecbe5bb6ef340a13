//! Laws of the printed text of definitions, as contracts of functions that do nothing.

ghost use Rattle.std.specs.Prelude.{◌≡◌, ℕ, List};
ghost use Rattle.term_tree.specs.declared.definition.Definition.{Definition};
ghost use Rattle.term_tree.specs.declared.script.Pred.{Pred};
ghost use Rattle.term_tree.specs.declared.script.Script.{Script};
ghost use Rattle.horn_shape.specs.Clause.{IsLegalScript};
ghost use Rattle.lemma_frames.specs.declared.framed.Framed.{Framed};
ghost use Rattle.answer_text.specs.declared.answer.Answer.TheVariants.{Sat};
ghost use Rattle.answer_text.specs.AnswerTexts.{answer_text};
ghost use Rattle.answer_text.specs.Printable.{IsAnswerText, IsPrintable};
ghost use Rattle.answer_text.specs.ReadBack.{AreNames, IsReadAs};
ghost use Rattle.interpretations.specs.Definitions.{AreDefinitionsOf};

/// Definitions by the lemmas of a frame are a model that can be printed: what is written of them is the
/// text of the answer.
pub fn definitions_are_answers()
    ensures printable { (lemmas : List Framed) (k : ℕ) (preds : List Pred) (definitions : List Definition) → AreDefinitionsOf lemmas k 0 preds definitions → IsPrintable preds (Sat definitions) }
    ensures spelled { (lemmas : List Framed) (k : ℕ) (preds : List Pred) (definitions : List Definition) (text : List ℕ) → AreDefinitionsOf lemmas k 0 preds definitions
        → text ≡ answer_text preds (Sat definitions) → IsAnswerText preds (Sat definitions) text }
{}

/// The printed text of definitions of a script's predicates is accepted, and whatever it spells is these
/// very definitions: the same predicates and parameters, and terms that are equal as trees.
pub fn definitions_are_read_back()
    ensures { (script : Script) (lemmas : List Framed) (k : ℕ) (definitions : List Definition) (text : List ℕ) → IsLegalScript script → AreNames script.preds →
        AreDefinitionsOf lemmas k 0 script.preds definitions → text ≡ answer_text script.preds (Sat definitions) → IsReadAs script.preds text definitions }
{}
