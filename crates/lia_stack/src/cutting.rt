//! The values at a point that a form asks for.

ghost use Rattle.std.specs.Prelude.{◌≡◌, ◌≤◌, length, IfOk};
ghost use Rattle.refutation_trees.specs.Refutation.{form_end};
ghost use Rattle.lia_stack.specs.machinery.Searched.{cut, value_of};

use base::Memory;
use lin_atoms::Form;
use refutation_trees::form_end;
use std::alloc::Global;

/// The value of a variable of the form, and 0 for one that it doesn't have.
fn value(point: &[i64], variable: usize, end: usize) -> i64
    requires { end ≤ length point.now }
    ensures { result ≡ value_of point.now variable end }
{
    if variable < end { point[variable] } else { 0 }
}

/// `vars` values: those of the form's variables, and 0 for the others.
pub fn cut(alloc: Global, form: &Form, point: &[i64], vars: u32) -> Result<Vec<i64>, Memory>
    requires { form_end form.now ≤ length point.now }
    ensures { IfOk result (λ made. made.items ≡ cut point.now (form_end form.now) vars) }
{
    let end = form_end(form) as usize;
    let mut made = Vec::with_capacity(alloc, vars as usize)?;
    'cut: for variable in 0..vars as usize {
        made.push(value(point, variable, end))?;
    }
    Ok(made)
}
