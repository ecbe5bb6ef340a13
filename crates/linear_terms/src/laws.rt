//! Laws of the definitions, as contracts of functions that do nothing.

ghost use Rattle.std.specs.Prelude.{◌≡◌, ◌↔◌, ◌+◌, ℕ, ℤ, pos, negsuc, List, [], ◌∷◌, map, Some, nat_lt, Bool, true};
ghost use Rattle.std.specs.Ordering.{int_eq};
ghost use Rattle.term_tree.specs.declared.node.Node.{Node};
ghost use Rattle.term_tree.specs.declared.node.OpKind.TheVariants.{Div, Mod};
ghost use Rattle.term_tree.specs.declared.script.Pred.{Pred as Declared};
ghost use Rattle.term_tree.specs.declared.sort.Sort.TheVariants.{Int as IntSort, Bool as BoolSort};
ghost use Rattle.term_tree.specs.Operators.{truth as truth_of, same_truth};
ghost use Rattle.term_tree.specs.Sorts.{sort_of};
ghost use Rattle.term_tree.specs.Subterms.{IsSubterm};
ghost use Rattle.term_tree.specs.Value.{Environment, value_of};
ghost use Rattle.lin_atoms.specs.Linear.{value_at, variable_at};
ghost use Rattle.lin_atoms.specs.Truth.{truth};
ghost use Rattle.linear_terms.specs.Examples.{both_forms, sample_forms, sample_place, sample_places, seven_by_two};
ghost use Rattle.linear_terms.specs.Formula.{formula};
ghost use Rattle.linear_terms.specs.Linear.{Naming, linear_of, naming_of};
ghost use Rattle.linear_terms.specs.Meeting.{HoldsEverywhere, IsWritten, MeetsBelow, MeetsVariables, number};
ghost use Rattle.linear_terms.specs.Place.{place_form};

/// The linear form of an integer term has the term's value at each point that has the values of the
/// variables, and of the auxiliary variables of the terms below a number above this one's.
pub fn linear_forms_have_values()
    ensures { (preds : List Declared) (nodes : List Node) (top : ℕ) (env : Environment) (naming : Naming) (point : List ℤ) (n id : ℕ) →
        IsWritten preds nodes top env naming → MeetsVariables nodes top env naming point → MeetsBelow nodes top n env naming point →
        IsSubterm nodes top id → nat_lt id n ≡ true → sort_of preds nodes id ≡ Some IntSort →
        value_at point (linear_of naming nodes id) ≡ number (value_of nodes id env) }
{}

/// At each such point the formula of a Bool term holds exactly where the term is true, or false.
pub fn formulas_hold_where_terms_are_true()
    ensures { (preds : List Declared) (nodes : List Node) (top : ℕ) (env : Environment) (naming : Naming) (point : List ℤ) (n id : ℕ) (sign : Bool) →
        IsWritten preds nodes top env naming → MeetsVariables nodes top env naming point → MeetsBelow nodes top n env naming point →
        IsSubterm nodes top id → nat_lt id (n + 1) ≡ true → sort_of preds nodes id ≡ Some BoolSort →
        truth point (formula (sort_of preds nodes) naming nodes id sign) ≡ same_truth sign (truth_of (value_of nodes id env)) }
{}

/// Where a point has the values of the variables, the forms of all auxiliary variables hold exactly
/// where these have the values of their terms. So values of the variables extend in one way.
pub fn auxiliary_variables_have_values()
    ensures { (preds : List Declared) (nodes : List Node) (top : ℕ) (env : Environment) (naming : Naming) (point : List ℤ) →
        IsWritten preds nodes top env naming → MeetsVariables nodes top env naming point →
        (HoldsEverywhere (sort_of preds nodes) nodes top naming point ↔ ((n : ℕ) → MeetsBelow nodes top n env naming point)) }
{}

/// -7 divided by 2 is -4, and 1 remains: these are the only values that the forms allow.
pub fn seven_by_two_is_rounded_down()
    ensures quotient { (point : List ℤ) →
        truth point (place_form (sort_of [] (seven_by_two Div)) (naming_of 0 []) (seven_by_two Div) 0 3) ≡ int_eq (variable_at point 0) (negsuc 3) }
    ensures remainder { (point : List ℤ) →
        truth point (place_form (sort_of [] (seven_by_two Mod)) (naming_of 0 []) (seven_by_two Mod) 0 3) ≡ int_eq (variable_at point 0) (pos 1) }
{}

/// The forms of one term for each operator, written out by hand.
pub fn samples_have_forms()
    ensures truths { map both_forms (4 ∷ 5 ∷ 6 ∷ 7 ∷ 8 ∷ 9 ∷ 10 ∷ 11 ∷ 12 ∷ 13 ∷ 14 ∷ 15 ∷ 16 ∷ 17 ∷ 18 ∷ 19 ∷ 20 ∷ 21 ∷ 22 ∷ []) ≡ sample_forms }
    ensures places { map (sample_place 4) (15 ∷ 23 ∷ 24 ∷ 27 ∷ 28 ∷ 29 ∷ []) ≡ sample_places }
{}
