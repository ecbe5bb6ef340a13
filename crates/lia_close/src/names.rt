//! What the names of quotients bring.

ghost use Rattle.std.specs.Prelude.{◌≡◌, ◌≤◌, ◌==◌, length, if◌then◌else◌};
ghost use Rattle.lia_close.specs.Said.{named_by};

use lin_atoms::{Lin, Lit};

/// `count` where there is a variable, and otherwise 0.
fn unless_constant(lin: &Lin, count: usize) -> usize
    requires { count ≤ 2 }
    ensures is { result ≡ (if length lin.now.terms == 0 then 0 else count) }
    ensures few { result ≤ 2 }
{
    if lin.terms().is_empty() { 0 } else { count }
}

/// How many literals the name of the literal's quotient gives: one for a divisibility, two for an
/// indivisibility, none for other literals and for those without a variable.
pub fn named_by(lit: &Lit) -> usize
    ensures is { result ≡ named_by lit.now }
    ensures few { result ≤ 2 }
{
    match lit {
        Lit::Le(_) => 0,
        Lit::Eq(_) => 0,
        Lit::Div(_, lin) => unless_constant(lin, 1),
        Lit::NDiv(_, lin) => unless_constant(lin, 2),
    }
}
