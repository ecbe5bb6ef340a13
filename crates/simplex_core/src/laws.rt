//! Laws of the moments of a run, as contracts of functions that do nothing.

ghost use Rattle.std.specs.Prelude.{◌≡◌, ℕ, ◌<◌, ◌^◌, List, ℤ, length, pos, ◌*ℤ◌, None, Some, true};
ghost use Rattle.std.specs.List.{list_all};
ghost use Rattle.lin_atoms.specs.Linear.{Linear, lin_is_below};
ghost use Rattle.lin_atoms.specs.Ratio.{Fraction};
ghost use Rattle.int_rows.specs.Basis.{IsBasicPoint, IsWideCoordinate, Point};
ghost use Rattle.int_rows.specs.Rows.{entry};
ghost use Rattle.int_rows.specs.Space.{SameSpace};
ghost use Rattle.int_rows.specs.Table.{IsTable, Table, basic_at, first_table, width};
ghost use Rattle.simplex_core.specs.Answer.{AreCoordinates, AreSame, basis, crossing, multipliers, outer};
ghost use Rattle.simplex_core.specs.Standings.{AreStandings};
ghost use Rattle.simplex_core.specs.Meaning.{IsConflict, IsVertex, summed, system_of, with_forms};
ghost use Rattle.simplex_core.specs.Run.{Moment, Next, broken_at, columns, coordinate_at, crossed, entering, has_wide_floor, is_wide, leaving, moment, run};
ghost use Rattle.simplex_core.specs.declared.standing.Standing.{Standing};
ghost use Rattle.simplex_core.specs.declared.turn.Side.{Side};

/// The values of all columns at a moment are the coordinates of a basic point.
pub fn moments_are_basic_points()
    ensures { (t : Table) (standings : List Standing) → IsTable t → AreStandings t standings → (point : Point)
        × IsBasicPoint (system_of t) (basis (columns t) standings) (outer (moment t standings)) point
        × ((c : ℕ) → c < width t → entry point.nums c *ℤ (coordinate_at (moment t standings) c).den
        ≡ (coordinate_at (moment t standings) c).num *ℤ pos point.den) }
{}

/// At a vertex the values of all columns are the coordinates of a basic point that meets all bounds.
pub fn vertices_meet_all_bounds()
    ensures { (t : Table) (standings : List Standing) (qs : List Fraction) → IsTable t → AreStandings t standings → crossed t ≡ None
        → leaving (moment t standings) ≡ None → AreCoordinates (moment t standings) qs → IsVertex (system_of t) qs }
{}

/// A coordinate without room at a moment is evidence of it: in lowest terms, and also where a
/// variable of a vertex is rounded down.
pub fn coordinates_without_room_are_evidence()
    ensures wide { (t : Table) (standings : List Standing) (c : ℕ) → IsTable t → AreStandings t standings → c < width t
        → is_wide (coordinate_at (moment t standings) c) ≡ true
        → IsWideCoordinate (system_of t) (basis (columns t) standings) (outer (moment t standings)) c }
    ensures floor { (t : Table) (standings : List Standing) (c : ℕ) → IsTable t → AreStandings t standings → crossed t ≡ None → leaving (moment t standings)
        ≡ None → c < t.variables → has_wide_floor (coordinate_at (moment t standings) c) ≡ true
        → IsWideCoordinate (system_of t) (basis (columns t) standings) (outer (moment t standings)) c }
{}

/// The multipliers at the end of a run contradict: where a column's bounds are crossed.
pub fn crossed_bounds_are_a_conflict()
    ensures { (t : Table) (c : ℕ) → IsTable t → crossed t ≡ Some c → IsConflict t (crossing t c) }
{}

/// The multipliers at the end of a run contradict: where a column that is outside its bounds can't
/// come nearer to them.
pub fn stuck_rows_are_a_conflict()
    ensures { (t : Table) (standings : List Standing) (i : ℕ) (side : Side) → IsTable t → AreStandings t standings → i < length t.rows
        → broken_at (moment t standings) (basic_at t.basic i) ≡ Some side → entering (moment t standings) i side ≡ None
        → IsConflict t (multipliers t i side) }
{}

/// Multipliers that contradict bounds do so for the forms of the tableau: the sum of the multiples,
/// with each slack replaced by its form without the constant, is 0 on each variable.
pub fn conflicts_are_of_the_forms()
    ensures { (variables : ℕ) (lins : List Linear) (t : Table) (ms : List ℤ) (v : ℕ) → list_all (lin_is_below variables) lins ≡ true
        → SameSpace (first_table variables lins).rows t.rows → IsConflict t ms → v < variables → with_forms variables lins (summed (width t) ms) v
        ≡ pos 0 }
{}

/// No moment of a run comes twice: under the rule of the least number no basis returns with the same
/// value of each column outside it.
pub fn moments_come_once()
    ensures { (t : Table) (i j : ℕ) (a b : Moment) → IsTable t → width t < 2 ^ 32 → i < j → run t i ≡ Next a → run t j ≡ Next b → AreSame a b → ⊥ }
{}
