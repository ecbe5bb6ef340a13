//! Laws of definitions over the system of a script, as contracts of functions that do nothing.

ghost use Rattle.std.specs.Prelude.{◌≡◌, ◌<◌, ℕ, List, Ok, Some};
ghost use Rattle.term_tree.specs.declared.definition.Definition.{Definition};
ghost use Rattle.term_tree.specs.declared.refusal.Checked.{Checked};
ghost use Rattle.term_tree.specs.Arena.{IsArena};
ghost use Rattle.term_tree.specs.Solution.{IsSolution};
ghost use Rattle.horn_shape.specs.Clause.{IsLegalScript};
ghost use Rattle.clause_form.specs.System.{Clauses};
ghost use Rattle.clause_normal.specs.Reading.{system_reading};
ghost use Rattle.lemma_frames.specs.declared.framed.Framed.{Framed};
ghost use Rattle.book_rules.specs.declared.end.End.TheVariants.{Sat};
ghost use Rattle.book_rules.specs.Frames.{IsSolution as IsSolutionOver};
ghost use Rattle.book_rules.specs.Instances.{instances};
ghost use Rattle.book_rules.specs.Kept.{IsSound};
ghost use Rattle.book_rules.specs.Legal.{end};
ghost use Rattle.book_rules.specs.Places.{AreOver};
ghost use Rattle.book_rules.specs.State.{State};
ghost use Rattle.cube_rules.specs.Views.{lemmas_of};
ghost use Rattle.interpretations.specs.Definitions.{AreDefinitionsOf, HavePlaces};

/// Where F(k) is a solution over the system of a script, the definitions by its lemmas are a solution
/// of the script: under them every assertion is true.
pub fn frames_solve_the_script()
    ensures { (checked : Checked) (sys : Clauses) (lemmas : List Framed) (k : ℕ) (definitions : List Definition) →
        IsArena checked.script.terms.nodes → IsLegalScript checked.script → system_reading checked ≡ Ok sys → 0 < k → IsSolutionOver (instances sys) (lemmas_of lemmas) k →
        AreDefinitionsOf lemmas k 0 checked.script.preds definitions → IsSolution checked.script definitions }
{}

/// At a sat end of a book over the system of a script the definitions by the lemmas of the end's level
/// or more are a solution of the script.
pub fn sat_ends_solve_the_script()
    ensures { (checked : Checked) (sys : Clauses) (s : State) (lemmas : List Framed) (level : ℕ) (definitions : List Definition) →
        IsArena checked.script.terms.nodes → IsLegalScript checked.script → system_reading checked ≡ Ok sys → s.lemmas ≡ lemmas_of lemmas → IsSound (instances sys) s →
        end s ≡ Some (Sat level) → AreDefinitionsOf lemmas level 0 checked.script.preds definitions → IsSolution checked.script definitions }
{}

/// In a book over the system of a script each lemma names only places that its predicate has, which
/// `definitions` asks for.
pub fn lemmas_of_books_have_places()
    ensures { (checked : Checked) (sys : Clauses) (s : State) (lemmas : List Framed) → system_reading checked ≡ Ok sys → s.lemmas ≡ lemmas_of lemmas → AreOver sys s →
        HavePlaces checked.script.preds lemmas }
{}
