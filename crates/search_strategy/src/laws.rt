//! What the systems of scripts meet, as the contract of a function that does nothing.

ghost use Rattle.std.specs.Prelude.{◌≡◌, Ok};
ghost use Rattle.term_tree.specs.declared.refusal.Checked.{Checked};
ghost use Rattle.horn_shape.specs.Clause.{IsLegalScript};
ghost use Rattle.clause_form.specs.System.{Clauses};
ghost use Rattle.clause_normal.specs.Reading.{system_reading};
ghost use Rattle.search_strategy.specs.Runs.{CanRun};

/// The clauses of a legal script have at most 64 body atoms each, and its limits keep them few.
pub fn systems_of_scripts_can_be_run()
    ensures { (checked : Checked) (sys : Clauses) → IsLegalScript checked.script → system_reading checked ≡ Ok sys → CanRun sys }
{}
