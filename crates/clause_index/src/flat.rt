//! Guards as the integer solver starts from them.

ghost use Rattle.std.specs.Prelude.{◌≡◌, ◌<◌, length, pos, slice_get, Some};
ghost use Rattle.lin_atoms.specs.Linear.{of_constant};
ghost use Rattle.lin_atoms.specs.declared.lit.Lit.TheVariants.{Le};
ghost use Rattle.clause_index.specs.Index.{flat};
ghost use Rattle.clause_index.specs.machinery.Places.{ArePlaces, disjuncts, own_lit};

use crate::places::Places;
use lin_atoms::{Form, Lin, Lit};
use std::alloc::Global;
use std::marker::Model;

/// A guard flattened: the literals of its conjunction in order, where `False` is `1 <= 0`, and its
/// disjunctions, each as its parts, which stay open. All of them are lent by the guard.
#[derive(Drop)]
pub struct FlatGuard<'a> {
    guard: &'a Form,
    places: &'a Places,
    falsehood: &'a Lit,
}

impl<'a> Model for FlatGuard<'a> {
    ghost use Rattle.std.specs.Prelude.{◌≡◌, pos};
    ghost use Rattle.std.specs.Coded.{codes};
    ghost use Rattle.lin_atoms.specs.Linear.{of_constant};
    ghost use Rattle.lin_atoms.specs.declared.lit.Lit.TheVariants.{Le};
    ghost use Rattle.lin_atoms.specs.contracts.form.Form as form;
    ghost use Rattle.clause_index.specs.Index.{Flat, flat};
    ghost use Rattle.clause_index.specs.machinery.Places.{ArePlaces};

    ghost Value = { Flat };

    ghost coded = { Prim.hlevel (codes, form.the_row.coded) };

    ghost view = { λ g. flat g.guard.now };

    ghost invariant = { λ g. ArePlaces g.guard.now g.places.now × (g.falsehood.now ≡ Le (of_constant (pos 1))) };
}

/// `False` is the literal `1 <= 0`.
pub(crate) fn falsehood(alloc: Global) -> Lit
    ensures { result ≡ Le (of_constant (pos 1)) }
{
    Lit::Le(Lin::of_constant(alloc, 1))
}

fn lit_of<'a>(form: &'a Form, falsehood: &'a Lit) -> &'a Lit
    requires { falsehood.now ≡ Le (of_constant (pos 1)) }
    ensures { result.now ≡ own_lit form.now }
{
    match form {
        Form::Lit(lit) => lit,
        _ => falsehood,
    }
}

fn parts_of(form: &Form) -> &[Form]
    ensures { result.now ≡ disjuncts form.now }
{
    match form {
        Form::Or(parts) => parts.as_slice(),
        _ => &[],
    }
}

impl<'a> FlatGuard<'a> {
    pub(crate) fn new(guard: &'a Form, places: &'a Places, falsehood: &'a Lit) -> FlatGuard<'a>
        requires places { ArePlaces guard.now places.now }
        requires falsehood { falsehood.now ≡ Le (of_constant (pos 1)) }
        ensures { result ≡ flat guard.now }
    {
        FlatGuard {
            guard,
            places,
            falsehood,
        }
    }

    /// How many literals there are.
    pub fn lits_len(&self) -> usize
        ensures { result ≡ length self.now.lits }
    {
        self.places.lits.len()
    }

    /// The literal of that number.
    pub fn lit(&self, number: usize) -> &'a Lit
        requires { number < length self.now.lits }
        ensures { slice_get self.now.lits number ≡ Some result.now }
    {
        let place = &self.places.lits.as_slice()[number];
        lit_of(place.part(self.guard), self.falsehood)
    }

    /// How many disjunctions there are.
    pub fn cases_len(&self) -> usize
        ensures { result ≡ length self.now.cases }
    {
        self.places.cases.len()
    }

    /// The parts of the disjunction of that number.
    pub fn case(&self, number: usize) -> &'a [Form]
        requires { number < length self.now.cases }
        ensures { slice_get self.now.cases number ≡ Some result.now }
    {
        let place = &self.places.cases.as_slice()[number];
        parts_of(place.part(self.guard))
    }
}
