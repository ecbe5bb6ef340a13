//! Laws of the definitions, as contracts of functions that do nothing.

ghost use Rattle.std.specs.Prelude.{◌≡◌, ℕ, ◌+ℤ◌, ◌*ℤ◌, List, ℤ, length, map, not, neg_ℤ, Bool, true, IsTrue};
ghost use Rattle.std.specs.List.{list_any};
ghost use Rattle.lin_atoms.specs.Algebra.{added, name_in, negated, plus, put_for, renamed, scaled};
ghost use Rattle.lin_atoms.specs.Denial.{denial};
ghost use Rattle.lin_atoms.specs.Linear.{Linear, lin_all, lin_is_below, value_at, variable_at};
ghost use Rattle.lin_atoms.specs.Truth.{all_variables, lit_all, lit_truth, truth};
ghost use Rattle.lin_atoms.specs.declared.form.Form.{Form};
ghost use Rattle.lin_atoms.specs.declared.lit.Lit.{Lit};

/// The value is linear in the form, at every point.
pub fn value_is_linear()
    ensures sum { (point : List ℤ) (a b : Linear) → value_at point (added a b) ≡ value_at point a +ℤ value_at point b }
    ensures multiple { (point : List ℤ) (k : ℤ) (a : Linear) → value_at point (scaled k a) ≡ k *ℤ value_at point a }
    ensures negative { (point : List ℤ) (a : Linear) → value_at point (negated a) ≡ neg_ℤ (value_at point a) }
    ensures constant { (point : List ℤ) (a : Linear) (k : ℤ) → value_at point (plus a k) ≡ value_at point a +ℤ k }
{}

/// A renamed form has the value that the form has where each variable stands for what its name
/// stands for: by any names, by a list of names that has them all, and by one name for another.
pub fn value_follows_names()
    ensures any { (p q : List ℤ) (f : ℕ → ℕ) (a : Linear) → ((v : ℕ) → variable_at q v ≡ variable_at p (f v)) → value_at p (renamed f a) ≡ value_at q a }
    ensures list { (p : List ℤ) (names : List ℕ) (a : Linear) → IsTrue (lin_is_below (length names) a) → value_at p (renamed (name_in names) a) ≡ value_at (map (variable_at p) names) a }
    ensures one { (p q : List ℤ) (x y : ℕ) (a : Linear) → variable_at q x ≡ variable_at p y → ((v : ℕ) → (v ≡ x → ⊥) → variable_at q v ≡ variable_at p v)
        → value_at p (renamed (put_for y x) a) ≡ value_at q a }
{}

/// At every point a literal is false exactly where a literal of its denial is true.
pub fn denial_is_complement()
    ensures { (point : List ℤ) (lit : Lit) → list_any (lit_truth point) (denial lit) ≡ not (lit_truth point lit) }
{}

/// Value and truth depend on the variables that occur alone: they are the same at two points that
/// agree on a set of variables, given by a test, that has each variable that occurs.
pub fn truth_depends_on_variables()
    ensures value { (test : ℕ → Bool) (p q : List ℤ) (a : Linear) → ((v : ℕ) → test v ≡ true → variable_at p v ≡ variable_at q v) → IsTrue (lin_all test a) → value_at p a ≡ value_at q a }
    ensures literal { (test : ℕ → Bool) (p q : List ℤ) (lit : Lit) → ((v : ℕ) → test v ≡ true → variable_at p v ≡ variable_at q v) → IsTrue (lit_all test lit) → lit_truth p lit ≡ lit_truth q lit }
    ensures form { (test : ℕ → Bool) (p q : List ℤ) (form : Form) → ((v : ℕ) → test v ≡ true → variable_at p v ≡ variable_at q v) → IsTrue (all_variables test form) → truth p form ≡ truth q form }
{}
