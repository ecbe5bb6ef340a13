//! What is known of a literal of the code.

ghost use Rattle.std.specs.Prelude.{◌≡◌, true};
ghost use Rattle.lia_node.specs.Known.{is_legal};

use lin_atoms::Lit;

/// Says nothing: that the literal's numbers are legal, for whoever needs it.
pub(crate) fn is_legal(lit: &Lit)
    ensures { is_legal lit.now ≡ true }
{
    match lit {
        Lit::Le(lin) => {
            let _constant = lin.constant();
        }
        Lit::Eq(lin) => {
            let _constant = lin.constant();
        }
        Lit::Div(n, lin) => {
            let _divisor = n.get();
            let _constant = lin.constant();
        }
        Lit::NDiv(n, lin) => {
            let _divisor = n.get();
            let _constant = lin.constant();
        }
    }
}
