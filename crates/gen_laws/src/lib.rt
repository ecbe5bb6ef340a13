//! The text of a generated script spells that script.
#![tactic(auto)]

mod laws;

pub use laws::generated_texts_spell_the_scripts;
