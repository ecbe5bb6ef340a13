ghost use Rattle.std.specs.Prelude.{◌≡◌, ◌+ℤ◌, ◌-ℤ◌, ◌*ℤ◌, neg_ℤ, nat_abs, pos, map, Some, None, if◌then◌else◌, slice_index_or, false};
ghost use Rattle.std.specs.List.{list_all};
ghost use Rattle.std.specs.Int.{int_div_euclid, int_rem_euclid};
ghost use Rattle.term_tree.specs.declared.scalar.Value.TheVariants.{Bool as Truth};
ghost use Rattle.term_tree.specs.Operators.{integer, difference_of};
ghost use Rattle.term_tree.specs.Width.{fits_128, checked, checked_fold, prefix_differences};

use crate::logic::integer;
use crate::scalar::Value;

fn plus(a: i128, b: i128) -> Option<i128>
    ensures { result ≡ checked (a +ℤ b) }
{
    a.checked_add(b)
}

fn minus(a: i128, b: i128) -> Option<i128>
    ensures { result ≡ checked (a -ℤ b) }
{
    a.checked_sub(b)
}

fn times(a: i128, b: i128) -> Option<i128>
    ensures { result ≡ checked (a *ℤ b) }
{
    a.checked_mul(b)
}

fn negated(n: i128) -> Option<i128>
    ensures { result ≡ checked (neg_ℤ n) }
{
    n.checked_neg()
}

/// The number at that place, or 0.
pub(crate) fn number(values: &[Value], place: usize) -> i128
    ensures { result ≡ integer (slice_index_or values.now place (Truth false)) }
{
    if place < values.len() {
        integer(&values[place])
    } else {
        0
    }
}

/// The exact sum, where each prefix fits.
pub(crate) fn sum(values: &[Value]) -> Option<i128>
    ensures { result ≡ checked_fold (λ a n. a +ℤ n) (pos 0) (map integer values.now) }
{
    let mut total = 0;
    for value in values {
        let Some(next) = plus(total, integer(value)) else {
            return None;
        };
        total = next;
    }
    Some(total)
}

/// The exact product, where each prefix fits.
pub(crate) fn product(values: &[Value]) -> Option<i128>
    ensures { result ≡ checked_fold (λ a n. a *ℤ n) (pos 1) (map integer values.now) }
{
    let mut total = 1;
    for value in values {
        let Some(next) = times(total, integer(value)) else {
            return None;
        };
        total = next;
    }
    Some(total)
}

fn reduced(first: i128, values: &[Value]) -> Option<i128>
    ensures { result ≡ checked_fold (λ a n. a -ℤ n) first (map integer values.now) }
{
    let mut total = first;
    for value in values {
        let Some(next) = minus(total, integer(value)) else {
            return None;
        };
        total = next;
    }
    Some(total)
}

/// The exact difference, where each prefix fits, or the negation of one number.
pub(crate) fn difference(values: &[Value]) -> Option<i128>
    ensures { result ≡ (if list_all fits_128 (prefix_differences (map integer values.now)) then Some (difference_of (map integer values.now)) else None) }
{
    if values.is_empty() {
        return Some(0);
    }
    if values.len() == 1 {
        return negated(integer(&values[0]));
    }
    reduced(integer(&values[0]), &values[1..])
}

pub(crate) fn absolute(n: i128) -> Option<i128>
    ensures { result ≡ checked (pos (nat_abs n)) }
{
    n.checked_abs()
}

/// Euclid's quotient, where it fits. No legal term divides by 0.
pub(crate) fn quotient(m: i128, n: i128) -> Option<i128>
    ensures { result ≡ checked (int_div_euclid m n) }
{
    if n == 0 {
        return Some(if m < 0 { -1 } else { 0 });
    }
    if n == -1 {
        return negated(m);
    }
    Some(m.div_euclid(n))
}

/// Euclid's remainder. No legal term divides by 0.
pub(crate) fn remainder(m: i128, n: i128) -> i128
    ensures { result ≡ int_rem_euclid m n }
{
    if n == 0 {
        return if m < 0 { 0 } else { m };
    }
    if n == -1 {
        return 0;
    }
    m.rem_euclid(n)
}
