//! Laws of the definitions, as contracts of functions that do nothing.

ghost use Rattle.std.specs.Prelude.{◌≡◌, ◌↔◌, ◌<◌, ◌+◌, ℕ, ◌++◌, ◌∷◌, [], List, ℤ, length, true, pos, ◌<ℤ◌, slice_set, take};
ghost use Rattle.lin_atoms.specs.Linear.{Linear, are_ordered, is_linear, lin_is_below};
ghost use Rattle.lin_atoms.specs.Truth.{lit_truth};
ghost use Rattle.lin_atoms.specs.declared.lit.Lit.TheVariants.{Le, Eq, Div, NDiv};
ghost use Rattle.int_rows.specs.Ready.{ready, ready_truth};
ghost use Rattle.std.specs.List.{All, list_all};
ghost use Rattle.int_rows.specs.Pivot.{crossed, eliminated};
ghost use Rattle.int_rows.specs.Rows.{Follows, Solves, SolvesAll, content, entry, is_primitive};
ghost use Rattle.int_rows.specs.Table.{row_at, IsTable, Table, basic_at, first_table, width, pivoted, HasWide};
ghost use Rattle.int_rows.specs.Basis.{IsBasicRow, IsBasis, IsWideRow, in_order};
ghost use Rattle.int_rows.specs.Pushed.{freed_of, next_equation, pushed, widened};
ghost use Rattle.int_rows.specs.Space.{SameSpace};

/// A literal made ready has the same integer points: its bounds hold exactly where the literal is
/// true. Where the literal is a divisibility they hold for some value of the quotient.
pub fn ready_keeps_points()
    ensures at_most { (q : ℕ) (point : List ℤ) (lin : Linear) → are_ordered 0 lin.terms ≡ true → ready_truth point (ready q (Le lin)) ≡ lit_truth point (Le lin) }
    ensures equal { (q : ℕ) (point : List ℤ) (lin : Linear) → are_ordered 0 lin.terms ≡ true → ready_truth point (ready q (Eq lin)) ≡ lit_truth point (Eq lin) }
    ensures divides { (q n : ℕ) (point : List ℤ) (lin : Linear) → 0 < n → length point ≡ q → lin_is_below q lin ≡ true →
        (lit_truth point (Div n lin) ≡ true) ↔ ((x : ℤ) × (ready_truth (point ++ x ∷ []) (ready q (Div n lin)) ≡ true)) }
    ensures leaves_rest { (q n : ℕ) (point : List ℤ) (lin : Linear) → 0 < n → length point ≡ q → lin_is_below q lin ≡ true →
        (lit_truth point (NDiv n lin) ≡ true) ↔ ((x : ℤ) × (ready_truth (point ++ x ∷ []) (ready q (NDiv n lin)) ≡ true)) }
{}

/// Each solution of the rows solves a row that follows from them.
pub fn rows_that_follow_are_solved()
    ensures { (rows : List (List ℤ)) (row point : List ℤ) → Follows rows row → SolvesAll point rows → Solves point row }
{}

/// Each of the rows follows from them, and what follows from rows that follow does.
pub fn following_is_a_preorder()
    ensures own { (rows : List (List ℤ)) (i : ℕ) → i < length rows → Follows rows (row_at rows i) }
    ensures transitive { (rows others : List (List ℤ)) (row : List ℤ) → All (Follows rows) others → Follows others row → Follows rows row }
{}

/// A row without a column follows from the two rows that it was made of, and the row from what it
/// became and the other.
pub fn elimination_keeps_what_follows()
    ensures made { (column : ℕ) (other row : List ℤ) → length row ≡ length other → 0 < content (crossed column row other) → Follows (row ∷ other ∷ []) (eliminated column other row) }
    ensures back { (column : ℕ) (other row : List ℤ) → length row ≡ length other → (entry other column ≡ pos 0 → ⊥) →
        0 < content (crossed column row other) → Follows (eliminated column other row ∷ other ∷ []) row }
{}

/// A row without a column has the same solutions as the row, among those of the other row. It is 0
/// in the column, primitive as the row is, and keeps a positive entry where the other row is 0.
pub fn elimination_keeps_solutions()
    ensures solutions { (column : ℕ) (other row point : List ℤ) → length row ≡ length other → (entry other column ≡ pos 0 → ⊥) →
        0 < content (crossed column row other) → Solves point other → (Solves point (eliminated column other row) ↔ Solves point row) }
    ensures gone { (column : ℕ) (other row : List ℤ) → length row ≡ length other → column < length row → 0 < content (crossed column row other) → entry (eliminated column other row) column ≡ pos 0 }
    ensures primitive { (column : ℕ) (other row : List ℤ) → is_primitive row ≡ true → 0 < content (crossed column row other) → is_primitive (eliminated column other row) ≡ true }
    ensures positive { (column v : ℕ) (other row : List ℤ) → length row ≡ length other → v < length row → (entry other column ≡ pos 0 → ⊥) →
        0 < content (crossed column row other) → entry other v ≡ pos 0 → pos 0 <ℤ entry row v →
        pos 0 <ℤ entry (eliminated column other row) v }
{}

/// The rows of a tableau are those of its basis: each follows from the rows, is primitive, positive
/// in its own basic variable and 0 in the others.
pub fn tableau_rows_are_basic()
    ensures { (t : Table) → IsTable t → (i : ℕ) → i < length t.rows → IsBasicRow (width t) t.rows t.basic (basic_at t.basic i) (row_at t.rows i) }
{}

/// To span the same space is an equivalence of rows.
pub fn same_space_is_an_equivalence()
    ensures reflexive { (rows : List (List ℤ)) → SameSpace rows rows }
    ensures symmetric { (rows others : List (List ℤ)) → SameSpace rows others → SameSpace others rows }
    ensures transitive { (rows others more : List (List ℤ)) → SameSpace rows others → SameSpace others more → SameSpace rows more }
{}

/// Rows that span the same space have the same solutions, what follows from them is the same, and
/// so are their bases with the rows of these.
pub fn same_space_keeps_solutions_and_bases()
    ensures solutions { (rows others : List (List ℤ)) (point : List ℤ) → SameSpace rows others → (SolvesAll point rows ↔ SolvesAll point others) }
    ensures follows { (rows others : List (List ℤ)) (row : List ℤ) → SameSpace rows others → Follows rows row → Follows others row }
    ensures basic_row { (columns : ℕ) (rows others : List (List ℤ)) (basis : List ℕ) (column : ℕ) (row : List ℤ) → SameSpace rows others →
        IsBasicRow columns rows basis column row → IsBasicRow columns others basis column row }
    ensures basis { (columns : ℕ) (rows others : List (List ℤ)) (basis : List ℕ) → length rows ≡ length others → SameSpace rows others → IsBasis columns rows basis → IsBasis columns others basis }
    ensures wide_row { (columns : ℕ) (rows others : List (List ℤ)) (basis : List ℕ) (wide : ℤ) → length rows ≡ length others →
        SameSpace rows others → IsWideRow columns rows basis wide → IsWideRow columns others basis wide }
{}

/// A pivot of a tableau keeps the space that its rows span.
pub fn pivot_keeps_the_row_space()
    ensures { (t : Table) → IsTable t → (i column : ℕ) → i < length t.rows → column < width t → (entry (row_at t.rows i) column ≡ pos 0 → ⊥) → SameSpace t.rows (pivoted i column t.rows) }
{}

/// The basic columns of a tableau are a basis, in order of number: before a pivot, and also after
/// one that has no room.
pub fn tableaux_have_bases()
    ensures before { (t : Table) → IsTable t → IsBasis (width t) t.rows (in_order (width t) t.basic) }
    ensures after { (t : Table) → IsTable t → (i column : ℕ) → i < length t.rows → column < width t →
        (entry (row_at t.rows i) column ≡ pos 0 → ⊥) → IsBasis (width t) t.rows (in_order (width t) (slice_set t.basic i column)) }
{}

/// An entry without room after a pivot is one of the new basis: evidence of a wide row.
pub fn pivots_without_room_are_wide_rows()
    ensures { (t : Table) → IsTable t → (i column j : ℕ) (wide : ℤ) → i < length t.rows → column < width t →
        (entry (row_at t.rows i) column ≡ pos 0 → ⊥) → HasWide (pivoted i column t.rows) j wide →
        IsWideRow (width t) t.rows (in_order (width t) (slice_set t.basic i column)) wide }
{}

/// A form's equation without the first k basic columns of a tableau: with their rows it has the
/// basis of these columns and the slack, and is the slack's row in it.
pub fn freed_rows_are_basic()
    ensures basis { (t : Table) (lin : Linear) (k : ℕ) → IsTable t → is_linear lin ≡ true → lin_is_below t.variables lin ≡ true →
        IsBasis (width t + 1) (take k (widened t.rows) ++ next_equation t lin ∷ []) (in_order (width t + 1) (take k t.basic ++ width t ∷ [])) }
    ensures row { (t : Table) (lin : Linear) (k : ℕ) → IsTable t → is_linear lin ≡ true → lin_is_below t.variables lin ≡ true →
        IsBasicRow (width t + 1) (take k (widened t.rows) ++ next_equation t lin ∷ []) (in_order (width t + 1) (take k t.basic ++ width t ∷ [])) (width t) (freed_of k t.basic (widened t.rows) (next_equation t lin)) }
{}

/// Before a pivot a further form gives the tableau of all forms, as if it had been among them.
pub fn pushes_make_first_tables()
    ensures { (variables : ℕ) (lins : List Linear) (lin : Linear) → list_all (lin_is_below variables) (lins ++ lin ∷ []) ≡ true → pushed lin (first_table variables lins) ≡ first_table variables (lins ++ lin ∷ []) }
{}
