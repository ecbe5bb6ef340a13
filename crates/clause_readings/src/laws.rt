//! Laws of readings, as contracts of functions that do nothing.

ghost use Rattle.std.specs.Prelude.{◌≡◌, ℕ, List, Option};
ghost use Rattle.term_tree.specs.declared.definition.Definition.{Definition};
ghost use Rattle.term_tree.specs.declared.refusal.Checked.{Checked};
ghost use Rattle.term_tree.specs.declared.script.Script.{Script};
ghost use Rattle.term_tree.specs.Solution.{IsSolution};
ghost use Rattle.sort_check.specs.Checked.{IsCheckedText};
ghost use Rattle.sort_check.specs.Commands.{Command};
ghost use Rattle.sort_check.specs.Scripts.{IsScriptOf};
ghost use Rattle.horn_shape.specs.Derivation.{IsDerivableWithin, IsDerivation, Step};
ghost use Rattle.horn_shape.specs.Instance.{GroundAtom};
ghost use Rattle.clause_normal.specs.Reading.{system_reading};
ghost use Rattle.clause_readings.specs.Layout.{AreCommandsLaid};

/// Two scripts that the same commands spell have the same system of clauses, or the same refusal, however
/// the one and the other number their terms; and the same derivations and solutions. The parts of each
/// asserted term start in the order of the text, so no two of them start at one place.
pub fn numbering_is_free()
    ensures system { (commands : List Command) (checked other : Checked) → AreCommandsLaid commands → IsScriptOf commands checked.script →
        IsScriptOf commands other.script → checked.stop ≡ other.stop → system_reading checked ≡ system_reading other }
    ensures derivations { (commands : List Command) (script other : Script) (steps : List Step) → AreCommandsLaid commands → IsScriptOf commands script →
        IsScriptOf commands other → IsDerivation script steps → IsDerivation other steps }
    ensures solutions { (commands : List Command) (script other : Script) (definitions : List Definition) → AreCommandsLaid commands → IsScriptOf commands script →
        IsScriptOf commands other → IsSolution script definitions → IsSolution other definitions }
{}

/// A text has one system of clauses, or one refusal by clauses: whatever numbers the terms of its script
/// have, the clauses are the same, and so is the first assertion that has none, with its place and kind.
pub fn texts_have_one_system()
    ensures system { (text : List ℕ) (checked other : Checked) → IsCheckedText text checked → IsCheckedText text other →
        system_reading checked ≡ system_reading other }
{}

/// Whatever numbers the terms of a text's script have, its derivations are the same: the same steps, of
/// the same assertions at the same values; so the same is derivable, and within the same height.
pub fn texts_have_the_same_derivations()
    ensures steps { (text : List ℕ) (checked other : Checked) (steps : List Step) → IsCheckedText text checked → IsCheckedText text other →
        IsDerivation checked.script steps → IsDerivation other.script steps }
    ensures derivable { (text : List ℕ) (checked other : Checked) (h : ℕ) (conclusion : Option GroundAtom) → IsCheckedText text checked → IsCheckedText text other →
        IsDerivableWithin checked.script h conclusion → IsDerivableWithin other.script h conclusion }
{}

/// And its solutions are the same: definitions that make each assertion true in the one script make each
/// true in the other.
pub fn texts_have_the_same_solutions()
    ensures solution { (text : List ℕ) (checked other : Checked) (definitions : List Definition) → IsCheckedText text checked → IsCheckedText text other →
        IsSolution checked.script definitions → IsSolution other.script definitions }
{}
