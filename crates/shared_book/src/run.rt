ghost use Rattle.std.specs.Prelude.{ℕ, []};
ghost use Rattle.clause_form.specs.System.{Clauses};

use std::marker::Brand;
use std::sync::ledger::Ledger;

/// What one run is about, for contracts alone: the clauses of its book and the units that it is given,
/// at how many inner nodes queries are given up, and how many workers there are. The ledger has one
/// part for each worker.
pub trait Run: Ledger {
    ghost system: { Clauses };

    ghost units: { ℕ };

    ghost nodes: { ℕ };

    ghost workers: { ℕ };
}

impl Run for Brand {
    ghost system = { record { clauses = []; preds = [] } };

    ghost units = { 0 };

    ghost nodes = { 0 };

    ghost workers = { 0 };
}
