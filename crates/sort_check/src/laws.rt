//! Laws of scripts and refusals, each the contract of a function that does nothing.

ghost use Rattle.std.specs.Prelude.{◌≡◌, ◌≤◌, ℕ, List, length, Option};
ghost use Rattle.sexp_read.specs.declared.tree.Tree.{Tree};
ghost use Rattle.sexp_read.specs.declared.tree.TextStop.{TextStop};
ghost use Rattle.term_tree.specs.declared.refusal.Checked.{Checked};
ghost use Rattle.std.specs.List.{AllByRecursion};
ghost use Rattle.term_tree.specs.Arena.{IsArena};
ghost use Rattle.term_tree.specs.declared.refusal.Refusal.{Refusal};
ghost use Rattle.sort_check.specs.Commands.{Command, declared, most_predicates};
ghost use Rattle.sort_check.specs.Checked.{IsChecked};
ghost use Rattle.sort_check.specs.Properties.{IsScriptOrRefused, IsLegalAssertion, IsWithinLimits};
ghost use Rattle.sort_check.specs.Scripts.{IsScript, IsRefused};

/// Every text is a script of some commands, or has a refusal.
pub fn script_or_refused()
    ensures { (text : List ℕ) → IsScriptOrRefused text }
{}

/// No text is both.
pub fn no_script_is_refused()
    ensures { (text : List ℕ) (commands : List Command) (refusal : Refusal) → IsScript text commands → IsRefused text refusal → ⊥ }
{}

/// A script has one list of commands.
pub fn one_script()
    ensures { (text : List ℕ) (commands others : List Command) → IsScript text commands → IsScript text others → commands ≡ others }
{}

/// A script declares at most 4,096 predicates.
pub fn few_predicates()
    ensures { (text : List ℕ) (commands : List Command) → IsScript text commands → length (declared commands) ≤ most_predicates }
{}

/// A text has at most one refusal.
pub fn one_refusal()
    ensures { (text : List ℕ) (refusal other : Refusal) → IsRefused text refusal → IsRefused text other → refusal ≡ other }
{}

/// Every assertion among the legal commands of a text is a legal closed term of sort Bool over the
/// declared predicates.
pub fn assertions_are_legal()
    ensures { (text : List ℕ) (trees : List Tree) (stop : Option TextStop) (checked : Checked) →
        IsArena checked.script.terms.nodes → IsChecked text trees stop checked → AllByRecursion (IsLegalAssertion checked.script) checked.script.asserts }
{}

/// What the legal commands of a text declare and assert is within the limits: 65,536 assertions, 4,096
/// predicates, and 256 arguments of each.
pub fn scripts_are_within_limits()
    ensures { (text : List ℕ) (trees : List Tree) (stop : Option TextStop) (checked : Checked) → IsChecked text trees stop checked → IsWithinLimits checked.script }
{}
