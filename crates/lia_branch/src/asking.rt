//! Tests of what `decide_all` asks of its literals.

ghost use Rattle.std.specs.Prelude.{◌≡◌};
ghost use Rattle.std.specs.List.{list_all};
ghost use Rattle.lin_atoms.specs.Truth.{lit_is_below};
ghost use Rattle.lia_node.specs.Known.{has_short_constant};

use lin_atoms::Lit;

/// Whether each variable that occurs is below `vars`.
pub fn are_below(lits: &[Lit], vars: u32) -> bool
    ensures { result ≡ list_all (lit_is_below vars) lits.now }
{
    for lit in lits {
        if !lit.is_below(vars as usize) {
            return false;
        }
    }
    true
}

/// Whether the constant of each divisibility is below 2^63 in magnitude.
pub fn have_short_constants(lits: &[Lit]) -> bool
    ensures { result ≡ list_all has_short_constant lits.now }
{
    lia_node::have_short_constants(lits)
}
