//! The formulas of definitions at the arguments of predicates.

ghost use Rattle.std.specs.Prelude.{◌≡◌, ◌<◌, ◌≤◌, ◌+◌, ◌^◌, ◌++◌, ◌∷◌, [], ℕ, List, None, length, IfOk, OnOk};
ghost use Rattle.std.specs.List.{AllByRecursion};
ghost use Rattle.term_tree.specs.declared.sort.Sort.{Sort};
ghost use Rattle.term_tree.specs.Solution.{IsFormula};
ghost use Rattle.term_tables.specs.machinery.Table.{AreSorts, constant_in, sort_in};
ghost use Rattle.term_formulas.specs.Written.{HasRoom, formula_by, naming_by, place_forms_by};
ghost use Rattle.term_formulas.specs.machinery.Parts.{ArePlaces};
ghost use Rattle.linear_terms.specs.Width.{first_wide};
ghost use Rattle.clause_form.specs.System.{most_variables};
ghost use Rattle.clause_laws.specs.Defined.{breaking_form, breaking_variables, count_of, defined_forms, definition_at, definition_forms, definition_places, head_use, naming_at, use_forms, variables_after};
ghost use Rattle.clause_defined.specs.machinery.Uses.{CanAllBePut, CanBePut, CanRestBePut, IsFormulaFor};

use base::{Items, Memory};
use clause_form::{Atom, Clause};
use clause_normal::{Tables, conjunction, has_number, names_over, tables_of};
use lin_atoms::Form;
use std::alloc::Global;
use term_forms::{Names, nothing_read};
use term_formulas::{formula, place_forms};
use term_places::places;
use term_tree::Definition;

/// The terms of the definition that have auxiliary variables.
pub(crate) fn definition_places(
    alloc: Global,
    definition: &Definition,
    tables: &Tables,
) -> Result<Vec<u32>, Memory>
    requires formula { (sorts : List Sort) × IsFormula sorts definition.now.terms.nodes definition.now.body.0 }
    requires sorts { AreSorts [] definition.now.terms.nodes tables.now.sorts }
    ensures { IfOk result (λ ids. ids.items ≡ definition_places definition.now) }
{
    has_number(definition.body);
    let ids = places(alloc, &definition.terms, &tables.sorts, definition.body)?;
    Ok(ids)
}

/// Puts the formulas of the definition's auxiliary variables, which are named, and that it is true, or
/// false, behind other formulas.
fn put_forms(
    alloc: Global,
    definition: &Definition,
    tables: &Tables,
    names: &Names,
    placed: &[u32],
    sign: bool,
    next: u32,
    out: &mut Items<Form>,
) -> Result<(), Memory>
    requires room { HasRoom (constant_in tables.now.constants) (naming_by names.now) definition.now.terms.nodes definition.now.body.0 }
    requires places { ArePlaces (constant_in tables.now.constants) (naming_by names.now) definition.now.terms.nodes next placed.now }
    requires end { next + length placed.now < 2 ^ 32 }
    ensures { OnOk result (out.new ≡ (out.old ++ place_forms_by (constant_in tables.now.constants) (sort_in tables.now.sorts) (naming_by names.now) definition.now.terms.nodes next placed.now)
        ++ formula_by (constant_in tables.now.constants) (sort_in tables.now.sorts) (naming_by names.now) definition.now.terms.nodes definition.now.body.0 sign ∷ []) }
{
    let terms = &definition.terms;
    let mut known = nothing_read(alloc);
    place_forms(
        alloc,
        terms,
        &tables.sorts,
        &tables.constants,
        names,
        &mut known,
        next,
        placed,
        out,
    )?;
    let form = formula(
        alloc,
        terms,
        &tables.sorts,
        &tables.constants,
        names,
        &mut known,
        definition.body,
        sign,
    )?;
    out.push(form)?;
    Ok(())
}

/// Puts that the definition is true at these arguments, or false, behind other formulas, with auxiliary
/// variables from `next` on, and answers the number behind them.
fn put_definition(
    alloc: Global,
    definition: &Definition,
    args: &[u32],
    sign: bool,
    next: u32,
    out: &mut Items<Form>,
) -> Result<u32, Memory>
    requires formula { IsFormulaFor definition.now (length args.now) }
    requires narrow { first_wide (naming_at definition.now args.now next) definition.now.terms.nodes definition.now.body.0 ≡ None }
    requires few { next + length (definition_places definition.now) ≤ most_variables }
    requires below { AllByRecursion (λ v. v < next) args.now }
    ensures forms { OnOk result (out.new ≡ out.old ++ definition_forms sign definition.now args.now next) }
    ensures next { IfOk result (λ after. after ≡ next + length (definition_places definition.now)) }
{
    has_number(definition.body);
    let tables = tables_of(alloc, &[], &definition.terms)?;
    let placed = definition_places(alloc, definition, &tables)?;
    let placed = placed.as_slice();
    let own = Vec::from_slice(alloc, args)?;
    let names = names_over(alloc, own, next, placed)?;
    put_forms(alloc, definition, &tables, &names, placed, sign, next, out)?;
    Ok(next + placed.len() as u32)
}

/// Puts that the definition of the atom's predicate is true at its arguments, or false, behind other
/// formulas, with auxiliary variables from `next` on, and answers the number behind them. Where there
/// is no definition nothing is put.
fn put_use(
    alloc: Global,
    defs: &[Definition],
    atom: &Atom,
    sign: bool,
    next: u32,
    out: &mut Items<Form>,
) -> Result<u32, Memory>
    requires { CanBePut defs.now atom.now next }
    ensures forms { OnOk result (out.new ≡ out.old ++ defined_forms (definition_at defs.now atom.now) atom.now sign next) }
    ensures next { IfOk result (λ after. after ≡ next + count_of (definition_at defs.now atom.now)) }
{
    match defs.get(atom.pred as usize) {
        None => Ok(next),
        Some(definition) => put_definition(
            alloc,
            definition,
            atom.args.as_slice(),
            sign,
            next,
            out,
        ),
    }
}

/// Puts that the head's definition is false at its arguments behind other formulas, with auxiliary
/// variables from `next` on, and answers the number behind them. Where there is no head nothing is put.
fn put_head(
    alloc: Global,
    defs: &[Definition],
    head: &Option<Atom>,
    next: u32,
    out: &mut Items<Form>,
) -> Result<u32, Memory>
    requires { (first : ℕ) × CanRestBePut defs.now (head_use head.now) first next }
    ensures forms { OnOk result (out.new ≡ out.old ++ use_forms defs.now (head_use head.now) next) }
    ensures next { IfOk result (λ after. after ≡ variables_after defs.now (head_use head.now) next) }
{
    match head {
        None => Ok(next),
        Some(head) => put_use(alloc, defs, head, false, next, out),
    }
}

/// The guard, and then the definitions at the atoms and at the head, with the number of variables.
pub(crate) fn put_all(
    alloc: Global,
    defs: &[Definition],
    clause: Clause,
) -> Result<(Form, u32), Memory>
    requires { CanAllBePut defs.now clause }
    ensures form { IfOk result (λ made. made.0 ≡ breaking_form defs.now clause) }
    ensures count { IfOk result (λ made. made.1 ≡ breaking_variables defs.now clause) }
{
    let mut next = clause.sorts.len() as u32;
    let mut parts = Items::new(alloc);
    parts.push(clause.guard)?;
    for atom in clause.atoms.as_slice() {
        next = put_use(alloc, defs, atom, true, next, &mut parts)?;
    }
    let after = put_head(alloc, defs, &clause.head, next, &mut parts)?;
    Ok((conjunction(parts), after))
}
