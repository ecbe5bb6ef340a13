//! A law of generated scripts, as the contract of a function that does nothing.

ghost use Rattle.std.specs.Prelude.{◌≤◌, ℕ};
ghost use Rattle.clause_gen.specs.Generated.{generated_script};
ghost use Rattle.gen_text.specs.Texts.{generated_text};
ghost use Rattle.gen_laws.specs.Spelling.{SpellsScript};

/// The text of a generated script is a script by the rules of commands, and one that its commands spell
/// is the generated one, but for the offsets of its terms.
pub fn generated_texts_spell_the_scripts()
    ensures { (depth seed : ℕ) → depth ≤ 12 → SpellsScript (generated_text depth seed) (generated_script depth seed) }
{}
