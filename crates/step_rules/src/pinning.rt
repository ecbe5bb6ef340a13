//! The values with which the tuples of a cube begin, as far as equations of one place tell them.

ghost use Rattle.std.specs.Prelude.{◌≡◌, ◌≤◌, ◌+◌, ◌⊎◌, ℤ, pos, List, length, take, IfSome, IsSome, true};
ghost use Rattle.base.specs.Widths.{is_short};
ghost use Rattle.cube_forms.specs.Cubes.{cube_holds};
ghost use Rattle.lin_atoms.specs.Linear.{variable_at};
ghost use Rattle.lin_atoms.specs.Truth.{lit_truth};
ghost use Rattle.step_rules.specs.machinery.Fronts.{Pins};

use lin_atoms::{Lin, Lit};

/// How many places are looked at.
pub(crate) const MOST: usize = 4;

/// The number with 64 bits, unless it is 2^63 or more in magnitude.
fn narrow(n: i128) -> Option<i64>
    ensures some { IfSome result (λ m. m ≡ n) }
    ensures short { IsSome result → is_short n ≡ true }
{
    if n.unsigned_abs() < 1 << 63 {
        Some(n as i64)
    } else {
        None
    }
}

/// The value of a place at which the form is 0, where the form has no other place, and this one once
/// or once with the other sign.
fn value_of(lin: &Lin, place: u32) -> Option<i64>
    ensures { IfSome result (λ value. Pins place value lin.now) }
{
    let [term] = lin.terms() else {
        return None;
    };
    if term.0 != place {
        return None;
    }
    let constant = narrow(lin.constant())?;
    if term.1 == 1 {
        return Some(-constant);
    }
    if term.1 == -1 {
        return Some(constant);
    }
    None
}

/// The value of a place wherever the literal is true, if it tells it so.
fn value_by(lit: &Lit, place: u32) -> Option<i64>
    ensures { IfSome result (λ value. (tuple : List ℤ) → lit_truth tuple lit.now ≡ true → variable_at tuple place ≡ value) }
{
    match lit {
        Lit::Eq(lin) => value_of(lin, place),
        Lit::Le(_) => None,
        Lit::Div(_, _) => None,
        Lit::NDiv(_, _) => None,
    }
}

/// The value of a place in each tuple of the cube, if one literal tells it so.
fn value_in(lits: &[Lit], place: u32) -> Option<i64>
    ensures { IfSome result (λ value. (tuple : List ℤ) → cube_holds tuple lits.now ≡ true → variable_at tuple place ≡ value) }
{
    for lit in lits {
        if let Some(value) = value_by(lit, place) {
            return Some(value);
        }
    }
    None
}

/// How many values are known to begin the tuples. The last isn't 0, since a place past a tuple's end has
/// that value too.
fn counted(count: usize, at: usize, value: i64) -> usize
    requires { at ≤ 3 }
    ensures { (result ≡ count) ⊎ ((result ≡ at + 1) × (value ≡ pos 0 → ⊥)) }
{
    if value == 0 { count } else { at + 1 }
}

/// Puts values in a list with which every tuple of the cube begins, and answers how many.
pub(crate) fn front_of(lits: &[Lit], values: &mut [i64]) -> usize
    requires { length values.old ≡ 4 }
    ensures within { result ≤ 4 }
    ensures long { length values.new ≡ 4 }
    ensures front { (tuple : List ℤ) → cube_holds tuple lits.now ≡ true → take (length (take result values.new)) tuple ≡ take result values.new }
{
    let mut count = 0;
    for at in 0..MOST {
        let Some(value) = value_in(lits, at as u32) else {
            return count;
        };
        values[at] = value;
        count = counted(count, at, value);
    }
    count
}
