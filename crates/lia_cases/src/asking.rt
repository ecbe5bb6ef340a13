//! Tests of what `decide` asks of its lemmas.

ghost use Rattle.std.specs.Prelude.{◌≡◌};
ghost use Rattle.std.specs.List.{list_all};
ghost use Rattle.lin_atoms.specs.Truth.{is_below};
ghost use Rattle.lia_search.specs.Decides.{has_short_multiples};

use lia_search::has_short_multiples;
use lin_atoms::Form;

/// Whether each variable that occurs is below `vars`.
pub fn are_below(forms: &[Form], vars: u32) -> bool
    ensures { result ≡ list_all (is_below vars) forms.now }
{
    for form in forms {
        if !form.is_below(vars as usize) {
            return false;
        }
    }
    true
}

/// Whether the constant of each divisibility is below 2^63 in magnitude.
pub fn have_short_multiples(forms: &[Form]) -> bool
    ensures { result ≡ list_all has_short_multiples forms.now }
{
    for form in forms {
        if !has_short_multiples(form) {
            return false;
        }
    }
    true
}
