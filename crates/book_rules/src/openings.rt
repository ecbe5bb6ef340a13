//! Laws of closing, and of the openings of later books.

ghost use Rattle.std.specs.Prelude.{◌≡◌, ◌↔◌, ◌+◌, ℕ, List, [], Bool, Some, true, false, length, slice_get};
ghost use Rattle.clause_form.specs.System.{Clauses};
ghost use Rattle.book_rules.specs.Effects.{close, closed_at};
ghost use Rattle.book_rules.specs.Hanging.{FallsBy};
ghost use Rattle.book_rules.specs.Instances.{instances};
ghost use Rattle.book_rules.specs.Kept.{AreDerivable, AreDistinct, AreRecorded, IsOrdered, IsSound};
ghost use Rattle.book_rules.specs.Openings.{IsLater, opening_with};
ghost use Rattle.book_rules.specs.Places.{AreOver};
ghost use Rattle.book_rules.specs.Rooted.{IsRooted};
ghost use Rattle.book_rules.specs.State.{Fact, Obligation, State, is_live};
ghost use Rattle.book_rules.specs.Values.{AreShort, fact_is_short};
ghost use Rattle.book_rules.specs.Walks.{AllOf};

/// A live obligation is closed exactly where the cause tells of it, or of one that it hangs under.
/// What is closed so has the entry's number, what was closed keeps what it had, and what stays live
/// stands as it stood.
pub fn all_that_hangs_under_it_falls()
    ensures falls { (cause : Obligation → Bool) (s : State) (number : ℕ) (o now : Obligation) → IsOrdered s → slice_get s.obligations number ≡ Some o
        → slice_get (close cause s) number ≡ Some now → is_live o ≡ true → (is_live now ≡ false) ↔ FallsBy cause s.obligations number }
    ensures long { (cause : Obligation → Bool) (s : State) → length (close cause s) ≡ length s.obligations }
    ensures now { (cause : Obligation → Bool) (s : State) (number : ℕ) (o now : Obligation) → slice_get s.obligations number ≡ Some o
        → slice_get (close cause s) number ≡ Some now → is_live o ≡ true → is_live now ≡ false → now ≡ closed_at (s.entries + 1) o }
    ensures before { (cause : Obligation → Bool) (s : State) (number : ℕ) (o now : Obligation) → slice_get s.obligations number ≡ Some o
        → slice_get (close cause s) number ≡ Some now → is_live o ≡ false → now ≡ o }
    ensures live { (cause : Obligation → Bool) (s : State) (number : ℕ) (o now : Obligation) → slice_get s.obligations number ≡ Some o
        → slice_get (close cause s) number ≡ Some now → is_live now ≡ true → now ≡ o }
{}

/// A later book opens with the facts of one before, over a system that has the predicates and
/// clauses of the one before and more behind them. The facts stay derivable and a derivation, and
/// the opening has what every replay keeps.
pub fn later_books_open()
    ensures derivable { (earlier later : Clauses) (facts : List Fact) → IsLater earlier later → AreDerivable (instances earlier) facts → AreDerivable (instances later) facts }
    ensures recorded { (earlier later : Clauses) (facts : List Fact) → IsLater earlier later → AreRecorded earlier [] facts → AreRecorded later [] facts }
    ensures sound { (sys : Clauses) (facts : List Fact) (units : ℕ) → AreDerivable (instances sys) facts → IsSound (instances sys) (opening_with facts units) }
    ensures ordered { (facts : List Fact) (units : ℕ) → AreDistinct facts → IsOrdered (opening_with facts units) }
    ensures rooted { (facts : List Fact) (units : ℕ) → IsRooted (opening_with facts units) }
    ensures short { (facts : List Fact) (units : ℕ) → AllOf (λ (f : Fact). fact_is_short f ≡ true) facts → AreShort (opening_with facts units) }
    ensures over { (sys : Clauses) (facts : List Fact) (units : ℕ) → AreOver sys (opening_with facts units) }
{}
