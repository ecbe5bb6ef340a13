//! Whether every number in the definitions has room, and how many variables they have.

ghost use Rattle.std.specs.Prelude.{◌≡◌, ◌≤◌, ◌+◌, [], ◌∷◌, ℕ, List, Bool, None, Some, length, IfOk, OnOk, IsErrOf};
ghost use Rattle.linear_terms.specs.Linear.{Naming};
ghost use Rattle.linear_terms.specs.Width.{first_wide};
ghost use Rattle.term_tables.specs.machinery.Table.{AreConstants, AreSorts};
ghost use Rattle.clause_form.specs.declared.atom.Atom.{Atom};
ghost use Rattle.clause_normal.specs.Normal.{normal_atom};
ghost use Rattle.clause_normal.specs.machinery.Making.{HasFirst};
ghost use Rattle.clause_laws.specs.Defined.{count_of, definition_at, definition_places, definition_wide, first_wide_use, naming_at, variables_after};
ghost use Rattle.clause_defined.specs.machinery.Classes.{HaveClasses};
ghost use Rattle.clause_defined.specs.machinery.Uses.{AreAtVariables, CanAllBeJudged, CanBeJudged, IsAtVariables, IsFormulaFor, IsJudged, capped, use_list};

use crate::classes::classes_of;
use crate::putting::definition_places;
use base::MOST_VARIABLES;
use clause_normal::{NormalStop, Tables, has_number, judged, tables_of};
use horn_shape::{AtomUse, HornClause};
use std::alloc::Global;
use term_forms::nothing_read;
use term_tree::{Definition, Terms};
use term_widths::apart_names;

/// The sum, or 2,049 where it is more: by then it is too many.
fn capped(count: usize, more: usize) -> usize
    requires { count ≤ 2049 }
    ensures is { result ≡ capped count more }
    ensures few { result ≤ 2049 }
{
    if more > MOST_VARIABLES || count + more > MOST_VARIABLES {
        MOST_VARIABLES + 1
    } else {
        count + more
    }
}

/// Judges whether every number in the definition has room at arguments of which those are the same that
/// have the same class; if not, `TooWide` tells where the first term without room starts.
fn judge_with(
    alloc: Global,
    definition: &Definition,
    classes: &[u32],
    tables: &Tables,
    placed: &[u32],
) -> Result<(), NormalStop>
    requires formula { IsFormulaFor definition.now (length classes.now) }
    requires sorts { AreSorts [] definition.now.terms.nodes tables.now.sorts }
    requires constants { AreConstants definition.now.terms.nodes tables.now.constants }
    requires placed { placed.now ≡ definition_places definition.now }
    ensures narrow { (args : List ℕ) (first : ℕ) → HaveClasses args first classes.now →
        OnOk result (first_wide (naming_at definition.now args first) definition.now.terms.nodes definition.now.body.0 ≡ None) }
    ensures wide { (args : List ℕ) (first offset : ℕ) → HaveClasses args first classes.now → IsErrOf result (NormalStop.TooWide offset) →
        HasFirst (first_wide (naming_at definition.now args first) definition.now.terms.nodes definition.now.body.0) definition.now.terms.offsets offset }
    ensures no_count { (offset : ℕ) → IsErrOf result (NormalStop.Count offset) → ⊥ }
{
    let terms = &definition.terms;
    let body = definition.body;
    has_number(body);
    let names = apart_names(alloc, terms, classes, placed)?;
    let mut known = nothing_read(alloc);
    judged(alloc, terms, tables, &names, &mut known, body)
}

/// How many auxiliary variables the definition has, where every number in it has room at arguments of
/// these classes; else `TooWide` tells where the first term without room starts.
fn judge_at(alloc: Global, definition: &Definition, classes: &[u32]) -> Result<usize, NormalStop>
    requires { IsFormulaFor definition.now (length classes.now) }
    ensures count { IfOk result (λ count. count ≡ length (definition_places definition.now)) }
    ensures narrow { (args : List ℕ) (first : ℕ) → HaveClasses args first classes.now →
        OnOk result (first_wide (naming_at definition.now args first) definition.now.terms.nodes definition.now.body.0 ≡ None) }
    ensures wide { (args : List ℕ) (first offset : ℕ) → HaveClasses args first classes.now → IsErrOf result (NormalStop.TooWide offset) →
        HasFirst (first_wide (naming_at definition.now args first) definition.now.terms.nodes definition.now.body.0) definition.now.terms.offsets offset }
    ensures no_count { (offset : ℕ) → IsErrOf result (NormalStop.Count offset) → ⊥ }
{
    let tables = tables_of(alloc, &[], &definition.terms)?;
    let placed = definition_places(alloc, definition, &tables)?;
    let placed = placed.as_slice();
    match judge_with(alloc, definition, classes, &tables, placed) {
        Ok(()) => Ok(placed.len()),
        Err(stop) => Err(stop),
    }
}

/// How many auxiliary variables the definition of the atom's predicate has, 0 where there is none, if
/// every number in it has room at the atom's arguments; else `TooWide` tells where the first term
/// without room starts.
fn judge_use(
    alloc: Global,
    terms: &Terms,
    defs: &[Definition],
    atom: &AtomUse,
) -> Result<usize, NormalStop>
    requires { CanBeJudged terms.now.nodes defs.now atom.now }
    ensures count { (naming : Naming) → IfOk result (λ count. count ≡ count_of (definition_at defs.now (normal_atom naming terms.now.nodes atom.now))) }
    ensures narrow { (naming : Naming) (next : ℕ) → IsAtVariables terms.now.nodes naming next atom.now →
        OnOk result (definition_wide (definition_at defs.now (normal_atom naming terms.now.nodes atom.now)) (normal_atom naming terms.now.nodes atom.now) next ≡ None) }
    ensures wide { (naming : Naming) (next offset : ℕ) → IsAtVariables terms.now.nodes naming next atom.now → IsErrOf result (NormalStop.TooWide offset) →
        definition_wide (definition_at defs.now (normal_atom naming terms.now.nodes atom.now)) (normal_atom naming terms.now.nodes atom.now) next ≡ Some offset }
    ensures no_count { (offset : ℕ) → IsErrOf result (NormalStop.Count offset) → ⊥ }
{
    let classes = classes_of(alloc, terms, atom.args.as_slice())?;
    match defs.get(atom.pred as usize) {
        None => Ok(0),
        Some(definition) => judge_at(alloc, definition, classes.as_slice()),
    }
}

/// How many variables there are with those of one more predicate, up to 2,049.
fn judge_next(
    alloc: Global,
    terms: &Terms,
    defs: &[Definition],
    atom: &AtomUse,
    count: usize,
) -> Result<usize, NormalStop>
    requires can { CanBeJudged terms.now.nodes defs.now atom.now }
    requires few { count ≤ 2049 }
    ensures few { IfOk result (λ new. new ≤ 2049) }
    ensures judged { (naming : Naming) (sign : Bool) (rest whole : List (Atom × Bool)) (first : ℕ) → IsAtVariables terms.now.nodes naming first atom.now →
        IsJudged defs.now ((normal_atom naming terms.now.nodes atom.now, sign) ∷ rest) whole first count → IfOk result (λ new. IsJudged defs.now rest whole first new) }
    ensures wide { (naming : Naming) (sign : Bool) (rest whole : List (Atom × Bool)) (first offset : ℕ) → IsAtVariables terms.now.nodes naming first atom.now →
        IsJudged defs.now ((normal_atom naming terms.now.nodes atom.now, sign) ∷ rest) whole first count → IsErrOf result (NormalStop.TooWide offset) →
        first_wide_use defs.now whole first ≡ Some offset }
    ensures no_count { (offset : ℕ) → IsErrOf result (NormalStop.Count offset) → ⊥ }
{
    let more = judge_use(alloc, terms, defs, atom)?;
    Ok(capped(count, more))
}

/// How many variables the whole has, up to 2,049, where every number in the definitions has room. The
/// clause has `auxiliary` auxiliary variables of its own.
pub(crate) fn judge_all(
    alloc: Global,
    terms: &Terms,
    clause: &HornClause,
    auxiliary: usize,
    defs: &[Definition],
) -> Result<usize, NormalStop>
    requires { CanAllBeJudged terms.now.nodes defs.now clause.now }
    ensures narrow { (naming : Naming) → AreAtVariables terms.now.nodes naming (length clause.now.vars + auxiliary) clause.now →
        OnOk result (first_wide_use defs.now (use_list naming terms.now.nodes clause.now.atoms clause.now.head) (length clause.now.vars + auxiliary) ≡ None) }
    ensures count { (naming : Naming) → AreAtVariables terms.now.nodes naming (length clause.now.vars + auxiliary) clause.now →
        IfOk result (λ count. count ≡ capped 0 (variables_after defs.now (use_list naming terms.now.nodes clause.now.atoms clause.now.head) (length clause.now.vars + auxiliary))) }
    ensures wide { (naming : Naming) (offset : ℕ) → AreAtVariables terms.now.nodes naming (length clause.now.vars + auxiliary) clause.now →
        IsErrOf result (NormalStop.TooWide offset) → first_wide_use defs.now (use_list naming terms.now.nodes clause.now.atoms clause.now.head) (length clause.now.vars + auxiliary) ≡ Some offset }
    ensures no_count { (offset : ℕ) → IsErrOf result (NormalStop.Count offset) → ⊥ }
{
    let mut count = capped(capped(0, clause.vars.len()), auxiliary);
    for atom in clause.atoms.as_slice() {
        count = judge_next(alloc, terms, defs, atom, count)?;
    }
    match &clause.head {
        None => Ok(count),
        Some(head) => judge_next(alloc, terms, defs, head, count),
    }
}
