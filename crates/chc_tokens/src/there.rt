ghost use Rattle.std.specs.Prelude.{◌≡◌, slice_get};
ghost use Rattle.std.specs.List.{list_all};
ghost use Rattle.base.specs.Widths.{is_short};
ghost use Rattle.chc_tokens.specs.Instances.{is_point_of};
ghost use Rattle.chc_tokens.specs.Tokens.{fits_head};

use crate::atoms::has_places;
use clause_form::System;
use cube_forms::Lemma;

/// Whether the clause is there and the point has a value for each of its variables: `seen` asks it.
pub fn has_values(sys: &System, clause: u32, point: &[i64]) -> bool
    ensures { result ≡ is_point_of sys.now clause point.now }
{
    match sys.clauses().get(clause as usize) {
        Some(clause) => point.len() == clause.sorts.len(),
        None => false,
    }
}

/// Whether each value is below 2^63 in magnitude: `seen` asks it, too. All but -2^63 are.
pub fn are_short(point: &[i64]) -> bool
    ensures { result ≡ list_all is_short point.now }
{
    point.iter().all(|value| value.unsigned_abs() < 1 << 63)
}

/// Whether the clause is there and has a head with each place of the lemma: what `no_lift` asks of
/// an instance.
pub fn fits_head(sys: &System, clause: u32, lemma: &Lemma) -> bool
    ensures { result ≡ fits_head (slice_get sys.now.clauses clause) lemma.now }
{
    match sys.clauses().get(clause as usize) {
        Some(clause) => has_places(&clause.head, lemma),
        None => false,
    }
}
