//! Laws of the definitions, as contracts of functions that do nothing.

ghost use Rattle.std.specs.Prelude.{◌≡◌, ◌≤◌, ℕ, ℤ, List, length, not, true};
ghost use Rattle.std.specs.List.{list_all};
ghost use Rattle.base.specs.Limits.{most_arguments};
ghost use Rattle.cube_forms.specs.Cubes.{cube_at, cube_holds, cube_is_below, cube_is_thin, has_room, lemma_at, tuple_at};
ghost use Rattle.lin_atoms.specs.Truth.{lit_truth, truth};
ghost use Rattle.lin_atoms.specs.declared.lit.Lit.{Lit};

/// At every point a lemma at arguments is true exactly where its cube doesn't hold the tuple of the
/// arguments' values, so where the lemma accepts it.
pub fn a_lemma_denies_its_cube()
    ensures { (point : List ℤ) (args : List ℕ) (cube : List Lit) → cube_is_below (length args) cube ≡ true → truth point (lemma_at args cube) ≡ not (cube_holds (tuple_at point args) cube) }
{}

/// At every point the literals of a cube at arguments are all true exactly where the cube holds the
/// tuple of the arguments' values.
pub fn a_cube_follows_its_arguments()
    ensures { (point : List ℤ) (args : List ℕ) (cube : List Lit) → cube_is_below (length args) cube ≡ true → list_all (lit_truth point) (cube_at args cube) ≡ cube_holds (tuple_at point args) cube }
{}

/// At up to 256 arguments there is room for every cube whose coefficients are at most 2^54.
pub fn thin_cubes_have_room()
    ensures { (args : List ℕ) (cube : List Lit) → length args ≤ most_arguments → cube_is_thin cube ≡ true → cube_is_below (length args) cube ≡ true → has_room args cube ≡ true }
{}
