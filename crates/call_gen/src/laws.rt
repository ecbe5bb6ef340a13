//! A law of generated scripts, as the contract of a function that does nothing.

ghost use Rattle.std.specs.Prelude.{◌≡◌, ◌≤◌, ℕ, Ok};
ghost use Rattle.clause_form.specs.System.{Clauses};
ghost use Rattle.clause_normal.specs.Reading.{system_reading};
ghost use Rattle.call_gen.specs.Summaries.{generated};

/// A generated script is never refused: each of its assertions has a normal clause.
pub fn generated_scripts_have_clauses()
    ensures { (depth seed : ℕ) → depth ≤ 12 → (sys : Clauses) × (system_reading (generated depth seed) ≡ Ok sys) }
{}
