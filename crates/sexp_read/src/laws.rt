//! Laws of the reading of a text, each the contract of a function that does nothing.

ghost use Rattle.std.specs.Prelude.{ℕ, ◌≡◌, List, Option};
ghost use Rattle.sexp_read.specs.declared.tree.Tree.{Tree};
ghost use Rattle.sexp_read.specs.declared.tree.TextStop.{TextStop};
ghost use Rattle.sexp_read.specs.Trees.{IsReading};

/// Every text, whatever its bytes, spells some trees, up to a fault or to its end.
pub fn every_text_has_a_reading()
    ensures { (text : List ℕ) → (trees : List Tree) × (stop : Option TextStop) × IsReading text trees stop }
{}

/// No text spells two lists of trees, or has two first faults.
pub fn no_text_has_two_readings()
    ensures { (text : List ℕ) (trees others : List Tree) (stop other : Option TextStop)
        → IsReading text trees stop → IsReading text others other → (trees ≡ others) × (stop ≡ other) }
{}
