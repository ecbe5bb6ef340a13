ghost use Rattle.std.specs.Prelude.{◌≡◌, true};
ghost use Rattle.base.specs.Widths.{is_short};
ghost use Rattle.cube_forms.specs.Cubes.{cube_is_short, lit_is_short};
ghost use Rattle.lin_atoms.specs.Linear.{are_short};

use lin_atoms::{Lin, Lit};

/// Whether the number is below 2^63 in magnitude.
fn is_short(n: i128) -> bool
    ensures { result ≡ is_short n }
{
    n.unsigned_abs() < 1 << 63
}

/// Whether the constant is below 2^63 in magnitude. Coefficients always are.
fn lin_is_short(lin: &Lin) -> bool
    ensures exact { result ≡ is_short lin.now.constant }
    ensures terms { are_short lin.now.terms ≡ true }
{
    is_short(lin.constant())
}

fn lit_is_short(lit: &Lit) -> bool
    ensures { result ≡ lit_is_short lit.now }
{
    match lit {
        Lit::Le(lin) => lin_is_short(lin),
        Lit::Eq(lin) => lin_is_short(lin),
        Lit::Div(_, lin) => lin_is_short(lin),
        Lit::NDiv(_, lin) => lin_is_short(lin),
    }
}

/// Whether each number of the literals is below 2^63 in magnitude.
pub(crate) fn are_short(lits: &[Lit]) -> bool
    ensures { result ≡ cube_is_short lits.now }
{
    for lit in lits {
        if !lit_is_short(lit) {
            return false;
        }
    }
    true
}
