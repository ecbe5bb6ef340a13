//! Laws of derivations over the system of a script, as contracts of functions that do nothing.

ghost use Rattle.std.specs.Prelude.{◌≡◌, ℕ, List, [], ◌∷◌, ◌++◌, map, length, slice_get, Option, Some, Ok, option_map};
ghost use Rattle.term_tree.specs.declared.refusal.Checked.{Checked};
ghost use Rattle.term_tree.specs.declared.scalar.Value.{Value};
ghost use Rattle.term_tree.specs.declared.sort.Sort.{Sort};
ghost use Rattle.term_tree.specs.Arena.{IsArena};
ghost use Rattle.term_tree.specs.Truth.{HaveSorts, as_values};
ghost use Rattle.horn_shape.specs.Clause.{IsLegalScript};
ghost use Rattle.horn_shape.specs.Derivation.{IsDerivableWithin, IsDerivation, Step, height_over, heights_of};
ghost use Rattle.horn_shape.specs.Instance.{GroundAtom};
ghost use Rattle.clause_form.specs.System.{Clauses};
ghost use Rattle.clause_normal.specs.Reading.{system_reading};
ghost use Rattle.clause_laws.specs.Point.{numbers};
ghost use Rattle.book_rules.specs.Effects.{height_at};
ghost use Rattle.book_rules.specs.Instances.{Ground, IsDerivable, instances};
ghost use Rattle.book_rules.specs.Kept.{AreRecorded};
ghost use Rattle.book_rules.specs.State.{Fact};
ghost use Rattle.cert_derivations.specs.Steps.{AreClosed, as_atom, as_tuple, script_step, script_steps};

/// The integers of values stand for these values, by their sorts.
pub fn numbers_stand_for_values()
    ensures { (sorts : List Sort) (values : List Value) → HaveSorts sorts values → as_values sorts (numbers values) ≡ values }
{}

/// There is a step for each of the numbers, and it is that of its fact.
pub fn steps_are_those_of_facts()
    ensures long { (sys : Clauses) (facts : List Fact) (among : List ℕ) → AreClosed facts among → length (script_steps sys facts among) ≡ length among }
    ensures each { (sys : Clauses) (facts : List Fact) (among : List ℕ) (i n : ℕ) (fact : Fact) → AreClosed facts among →
        slice_get among i ≡ Some n → slice_get facts n ≡ Some fact → slice_get (script_steps sys facts among) i ≡ Some (script_step sys among fact) }
{}

/// Recorded facts over the system of a script, as steps, are a derivation by the script's clauses,
/// wherever each stands behind its premises. So each recorded fact, and false where it is one, is
/// derivable by the script within the fact's height.
pub fn facts_are_derivations_by_the_script()
    ensures derivation { (checked : Checked) (sys : Clauses) (facts : List Fact) (among : List ℕ) →
        IsArena checked.script.terms.nodes → IsLegalScript checked.script → system_reading checked ≡ Ok sys →
        AreRecorded sys [] facts → AreClosed facts among → IsDerivation checked.script (script_steps sys facts among) }
    ensures derivable { (checked : Checked) (sys : Clauses) (facts : List Fact) (n : ℕ) (fact : Fact) →
        IsArena checked.script.terms.nodes → IsLegalScript checked.script → system_reading checked ≡ Ok sys →
        AreRecorded sys [] facts → slice_get facts n ≡ Some fact → IsDerivableWithin checked.script fact.height (option_map (as_atom sys) fact.conclusion) }
{}

/// The heights of the steps are those that the facts were recorded with. The last step is that of the
/// last fact, and its height over the others is the fact's.
pub fn heights_are_those_of_facts()
    ensures each { (sys : Clauses) (facts : List Fact) (among : List ℕ) → AreRecorded sys [] facts → AreClosed facts among →
        heights_of (script_steps sys facts among) ≡ map (λ n. height_at (slice_get facts n)) among }
    ensures last { (sys : Clauses) (facts : List Fact) (before : List ℕ) (n : ℕ) (fact : Fact) →
        AreRecorded sys [] facts → AreClosed facts (before ++ n ∷ []) → slice_get facts n ≡ Some fact →
        (steps : List Step) × (script_steps sys facts (before ++ n ∷ []) ≡ steps ++ script_step sys (before ++ n ∷ []) fact ∷ [])
        × (height_over (heights_of steps) (script_step sys (before ++ n ∷ []) fact) ≡ fact.height) }
{}

/// What is derivable within a height is the same by the script's clauses and over its system. So what
/// isn't derivable over the system within a height, false above all, isn't by the script.
pub fn script_and_system_derive_the_same()
    ensures over_system { (checked : Checked) (sys : Clauses) (h : ℕ) (conclusion : Option GroundAtom) →
        IsArena checked.script.terms.nodes → IsLegalScript checked.script → system_reading checked ≡ Ok sys →
        IsDerivableWithin checked.script h conclusion → IsDerivable (instances sys) h (option_map as_tuple conclusion) }
    ensures by_script { (checked : Checked) (sys : Clauses) (h : ℕ) (conclusion : Option Ground) →
        IsArena checked.script.terms.nodes → IsLegalScript checked.script → system_reading checked ≡ Ok sys →
        IsDerivable (instances sys) h conclusion → IsDerivableWithin checked.script h (option_map (as_atom sys) conclusion) }
{}
