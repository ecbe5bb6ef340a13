//! Laws of answers to checked scripts, each the contract of a function that does nothing.

ghost use Rattle.std.specs.Prelude.{◌≡◌, ℕ, List};
ghost use Rattle.std.specs.List.{AllByRecursion};
ghost use Rattle.term_tree.specs.declared.script.Pred.{Pred};
ghost use Rattle.term_tree.specs.declared.script.Script.{Script};
ghost use Rattle.term_tree.specs.declared.definition.Definition.{Definition};
ghost use Rattle.sort_check.specs.Commands.{Command};
ghost use Rattle.sort_check.specs.Scripts.{IsScript, IsScriptOf};
ghost use Rattle.answer_text.specs.declared.answer.Line.{Line};
ghost use Rattle.answer_text.specs.declared.answer.Answer.{Answer};
ghost use Rattle.answer_text.specs.declared.answer.Answer.TheVariants.{Sat, Unsat};
ghost use Rattle.answer_text.specs.Printable.{IsAnswerText};
ghost use Rattle.answer_text.specs.Read.{Spells, IsBad};
ghost use Rattle.answer_text.specs.ReadBack.{AreNames, IsSameModel, IsStored, IsReadAs};
ghost use Rattle.term_tree.specs.Solution.{IsSolution};
ghost use Rattle.answer_laws.specs.Texts.{IsSatAnswer};

use term_check::spelled_formulas_are_legal;
use term_tree::{same_tree_same_value, same_values_same_solution};

/// The predicates of a script have names that can be printed and read back: no bar and no backslash
/// stands in one, they differ, and none is `false`.
pub fn scripts_have_names()
    ensures { (text : List ℕ) (commands : List Command) (script : Script) → IsScript text commands → IsScriptOf commands script → AreNames script.preds }
{}

/// The printed text of a derivation over a script's predicates spells that very derivation, and nothing else.
pub fn unsat_answers_are_read_back()
    ensures spelled { (text : List ℕ) (commands : List Command) (script : Script) (lines : List Line) (printed : List ℕ) → IsScript text commands → IsScriptOf commands script
        → IsAnswerText script.preds (Unsat lines) printed → Spells script.preds printed (Unsat lines) }
    ensures alone { (text : List ℕ) (commands : List Command) (script : Script) (lines : List Line) (printed : List ℕ) (answer : Answer) → IsScript text commands → IsScriptOf commands script
        → IsAnswerText script.preds (Unsat lines) printed → Spells script.preds printed answer → answer ≡ Unsat lines }
{}

/// What is printed under status 0 is accepted by the reader of answers, and read as the same model; and
/// what is read is a solution of the script. So the text itself is the certificate.
pub fn printed_models_are_solutions()
    ensures accepted { (bytes printed : List ℕ) → (h : IsSatAnswer bytes printed) → (offset : ℕ) → IsBad h.script.preds printed offset → ⊥ }
    ensures same { (bytes printed : List ℕ) → (h : IsSatAnswer bytes printed) → (answer : Answer) → Spells h.script.preds printed answer → IsSameModel h.definitions answer }
    ensures solution { (bytes printed : List ℕ) → (h : IsSatAnswer bytes printed) → (definitions : List Definition) → Spells h.script.preds printed (Sat definitions)
        → IsSolution h.script definitions }
{
    same_tree_same_value();
    same_values_same_solution();
    spelled_formulas_are_legal();
}

/// A text that spells definitions spells no derivation, and whatever definitions it spells are the same:
/// of the same predicates, with the same parameters, by terms that are equal as trees.
pub fn one_model()
    ensures { (preds : List Pred) (text : List ℕ) (definitions : List Definition) (answer : Answer) → Spells preds text (Sat definitions)
        → Spells preds text answer → IsSameModel definitions answer }
{}

/// Where a text spells a solution of a script, whatever definitions it spells are a solution.
pub fn texts_of_solutions_spell_solutions()
    ensures { (script : Script) (text : List ℕ) (definitions others : List Definition) → IsSolution script definitions
        → Spells script.preds text (Sat definitions) → Spells script.preds text (Sat others) → IsSolution script others }
{
    same_tree_same_value();
    same_values_same_solution();
    spelled_formulas_are_legal();
}

/// The printed text of a model of a script is accepted, and whatever it spells is the same model.
pub fn sat_answers_are_read_back()
    ensures { (text : List ℕ) (commands : List Command) (script : Script) (definitions : List Definition) (printed : List ℕ) → IsScript text commands → IsScriptOf commands script
        → AllByRecursion IsStored definitions → IsAnswerText script.preds (Sat definitions) printed → IsReadAs script.preds printed definitions }
{}
