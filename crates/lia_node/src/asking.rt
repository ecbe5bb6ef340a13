//! Tests of what `node_tableau` asks of its literals.

ghost use Rattle.std.specs.Prelude.{◌≡◌};
ghost use Rattle.std.specs.List.{list_all};
ghost use Rattle.lin_atoms.specs.Linear.{is_short};
ghost use Rattle.lia_node.specs.Known.{are_known, has_short_constant};

use crate::gathering::quotients;
use lin_atoms::{Lin, Lit};

/// Whether each literal speaks of variables below `end` and of quotients of the literals before it
/// alone, where quotients are numbered on from `end`.
pub fn are_known(lits: &[Lit], end: u32) -> bool
    ensures { result ≡ are_known end lits.now }
{
    let mut quotient = end as usize;
    for lit in lits {
        if !lit.is_below(quotient) {
            return false;
        }
        quotient += quotients(lit) as usize;
    }
    true
}

/// Whether the constant is below 2^63 in magnitude.
fn is_short(lin: &Lin) -> bool
    ensures { result ≡ is_short lin.now.constant }
{
    lin.constant().unsigned_abs() < 1 << 63
}

fn has_short_constant(lit: &Lit) -> bool
    ensures { result ≡ has_short_constant lit.now }
{
    match lit {
        Lit::Le(_) => true,
        Lit::Eq(_) => true,
        Lit::Div(_, lin) => is_short(lin),
        Lit::NDiv(_, lin) => is_short(lin),
    }
}

/// Whether the constant of each divisibility is below 2^63 in magnitude.
pub fn have_short_constants(lits: &[Lit]) -> bool
    ensures { result ≡ list_all has_short_constant lits.now }
{
    for lit in lits {
        if !has_short_constant(lit) {
            return false;
        }
    }
    true
}
