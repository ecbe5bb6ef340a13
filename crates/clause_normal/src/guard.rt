//! The guard of a clause, part by part.

ghost use Rattle.std.specs.Prelude.{◌≡◌, ◌<◌, ◌+◌, [], ◌∷◌, ◌++◌, ◌^◌, negsuc, length, map, IfOk, OnOk};
ghost use Rattle.lin_atoms.specs.Algebra.{negated, plus};
ghost use Rattle.linear_terms.specs.Linear.{variable_form};
ghost use Rattle.linear_terms.specs.Formula.{le};
ghost use Rattle.term_tables.specs.machinery.Table.{constant_in, sort_in};
ghost use Rattle.term_forms.specs.Found.{AreFound};
ghost use Rattle.term_formulas.specs.Written.{naming_by};
ghost use Rattle.term_formulas.specs.machinery.Parts.{ArePlaces};
ghost use Rattle.clause_normal.specs.Normal.{bits_from, conjunction};
ghost use Rattle.clause_normal.specs.machinery.Making.{GuardsHaveRoom, guard_by, parts_by};

use crate::tables::Tables;
use base::{Items, Memory};
use horn_shape::{HornClause, Part};
use lin_atoms::{Form, Lin, Lit};
use std::alloc::Global;
use std::collections::BTreeMap;
use term_forms::{Names, variable_form};
use term_formulas::{formula, joined, place_forms};
use term_tree::{Sort, Terms};

/// A conjunction of the parts; one part is itself, and none is true.
pub fn conjunction(parts: Items<Form>) -> Form
    ensures { result ≡ conjunction parts }
{
    if parts.is_empty() {
        return Form::True;
    }
    joined(true, parts)
}

fn put_bit(alloc: Global, v: u32, out: &mut Items<Form>) -> Result<(), Memory>
    ensures { OnOk result (out.new ≡ out.old ++ (le (negated (variable_form v)) ∷ le (plus (variable_form v) (negsuc 0)) ∷ [])) }
{
    let low = variable_form(alloc, v)?.negated(alloc)?;
    let Some(high) = variable_form(alloc, v)?.plus(-1) else {
        unreachable!()
    };
    out.push(Form::Lit(Lit::Le(low)))?;
    out.push(Form::Lit(Lit::Le(high)))?;
    Ok(())
}

/// Puts that the Bool ones of these variables are 0 or 1 behind other formulas.
fn put_bits(alloc: Global, vars: &[Sort], out: &mut Items<Form>) -> Result<(), Memory>
    requires { length vars.now < 2 ^ 32 }
    ensures { OnOk result (out.new ≡ out.old ++ bits_from 0 vars.now) }
{
    for (v, sort) in vars.iter().enumerate() {
        match sort {
            Sort::Int => (),
            Sort::Bool => put_bit(alloc, v as u32, out)?,
        }
    }
    Ok(())
}

/// Puts the guards behind other formulas: that each is true, or a negated one false.
fn put_guards(
    alloc: Global,
    terms: &Terms,
    tables: &Tables,
    names: &Names,
    known: &mut BTreeMap<u32, Lin>,
    guards: &[Part],
    out: &mut Items<Form>,
) -> Result<(), Memory>
    requires room { GuardsHaveRoom (constant_in tables.now.constants) (naming_by names.now) terms.now.nodes guards.now }
    requires known { AreFound (constant_in tables.now.constants) (naming_by names.now) terms.now.nodes known.old }
    ensures { OnOk result (out.new ≡ out.old ++ map (guard_by (constant_in tables.now.constants) (sort_in tables.now.sorts) (naming_by names.now) terms.now.nodes) guards.now) }
{
    for guard in guards {
        let form = formula(
            alloc,
            terms,
            &tables.sorts,
            &tables.constants,
            names,
            known,
            guard.term,
            !guard.negated,
        )?;
        out.push(form)?;
    }
    Ok(())
}

/// How many formulas a guard has: two for each Bool variable of the assertion's own, and one for each
/// auxiliary variable and each guard. It is no promise.
fn room_for(vars: &[Sort], placed: &[u32], guards: &[Part]) -> usize {
    let mut bits: usize = 0;
    for sort in vars {
        if let Sort::Bool = sort {
            bits = bits.saturating_add(2);
        }
    }
    bits.saturating_add(placed.len())
        .saturating_add(guards.len())
}

/// The guard: the bits, what determines the auxiliary variables, and the guards of the clause.
pub(crate) fn guard_of(
    alloc: Global,
    terms: &Terms,
    tables: &Tables,
    names: &Names,
    known: &mut BTreeMap<u32, Lin>,
    clause: &HornClause,
    placed: &[u32],
) -> Result<Form, Memory>
    requires few { length clause.now.vars + length placed.now < 2 ^ 32 }
    requires room { GuardsHaveRoom (constant_in tables.now.constants) (naming_by names.now) terms.now.nodes clause.now.guards }
    requires places { ArePlaces (constant_in tables.now.constants) (naming_by names.now) terms.now.nodes (length clause.now.vars) placed.now }
    requires known { AreFound (constant_in tables.now.constants) (naming_by names.now) terms.now.nodes known.old }
    ensures { IfOk result (λ guard. guard ≡ conjunction (parts_by (constant_in tables.now.constants) (sort_in tables.now.sorts) (naming_by names.now) terms.now.nodes clause.now placed.now)) }
{
    let vars = clause.vars.as_slice();
    let guards = clause.guards.as_slice();
    let room = room_for(vars, placed, guards);
    let mut parts = Items::from_vec(Vec::with_capacity(alloc, room)?);
    put_bits(alloc, vars, &mut parts)?;
    place_forms(
        alloc,
        terms,
        &tables.sorts,
        &tables.constants,
        names,
        known,
        vars.len() as u32,
        placed,
        &mut parts,
    )?;
    put_guards(alloc, terms, tables, names, known, guards, &mut parts)?;
    Ok(conjunction(parts))
}
