//! The normal clause of an assertion.

ghost use Rattle.std.specs.Prelude.{◌≡◌, ◌<◌, ◌≤◌, ◌+◌, ◌||◌, ◌^◌, ℕ, length, nat_lt, slice_get, None, Some, IfOk, OnOk, IsErrOf, false};
ghost use Rattle.horn_shape.specs.Clause.{IsClauseOf, IsLegalScript};
ghost use Rattle.term_tables.specs.machinery.Table.{constant_in, sort_in};
ghost use Rattle.term_forms.specs.Found.{AreFound};
ghost use Rattle.term_widths.specs.Wide.{first_wide_by};
ghost use Rattle.term_formulas.specs.Written.{naming_by};
ghost use Rattle.clause_form.specs.System.{most_variables};
ghost use Rattle.clause_normal.specs.Normal.{auxiliaries, first_without_room, is_too_large, most_atoms, most_own, names_of, normal_clause, top_of};
ghost use Rattle.clause_normal.specs.Stopping.{IsTooLargeAt, IsWideAt};
ghost use Rattle.clause_normal.specs.machinery.Making.{HasFirst, HasRoomFor, IsGiven, clause_by};

use crate::arguments::{normal_atoms, normal_head};
use crate::guard::guard_of;
use crate::naming::{names_over, sorts_of};
use crate::stop::NormalStop;
use crate::tables::{Tables, tables_of};
use base::{MOST_VARIABLES, Memory};
use clause_form::Clause;
use horn_shape::HornClause;
use lin_atoms::Lin;
use std::alloc::Global;
use std::collections::BTreeMap;
use term_forms::{Names, nothing_read};
use term_places::places;
use term_tree::{Assertion, Script, TermId, Terms};
use term_widths::{apart_names, first_wide};

/// How many variables of its own an assertion may have.
const MOST_OWN: usize = 1024;

/// How many body atoms an assertion may have.
const MOST_ATOMS: usize = 64;

/// Whether a clause with `auxiliary` auxiliary variables has more variables or body atoms than it may.
fn is_too_large(clause: &HornClause, auxiliary: usize) -> bool
    requires { length clause.now.vars + auxiliary ≤ most_variables }
    ensures { result ≡ (nat_lt most_own (length clause.now.vars) || nat_lt most_atoms (length clause.now.atoms) || nat_lt most_variables (length clause.now.vars + auxiliary)) }
{
    clause.vars.len() > MOST_OWN
        || clause.atoms.len() > MOST_ATOMS
        || clause.vars.len() + auxiliary > MOST_VARIABLES
}

/// Judges whether every number in the term has room; if not, `TooWide` tells where the first of its
/// terms without room starts. The linear forms that are read are kept.
pub fn judged(
    alloc: Global,
    terms: &Terms,
    tables: &Tables,
    names: &Names,
    known: &mut BTreeMap<u32, Lin>,
    top: TermId,
) -> Result<(), NormalStop>
    requires there { top.0 < length terms.now.nodes }
    requires known { AreFound (constant_in tables.now.constants) (naming_by names.now) terms.now.nodes known.old }
    ensures narrow { OnOk result (first_wide_by (constant_in tables.now.constants) (naming_by names.now) terms.now.nodes top.0 ≡ None) }
    ensures wide { (offset : ℕ) → IsErrOf result (NormalStop.TooWide offset)
        → HasFirst (first_wide_by (constant_in tables.now.constants) (naming_by names.now) terms.now.nodes top.0) terms.now.offsets offset }
    ensures count { (offset : ℕ) → IsErrOf result (NormalStop.Count offset) → ⊥ }
    ensures known { OnOk result (AreFound (constant_in tables.now.constants) (naming_by names.now) terms.now.nodes known.new) }
{
    terms.arena_law();
    match first_wide(alloc, terms, &tables.constants, names, known, top)? {
        None => Ok(()),
        Some(term) => Err(NormalStop::TooWide {
            offset: u64::from(terms.offset(term)),
        }),
    }
}

/// The normal clause, where its numbers have room and its variables have numbers.
pub(crate) fn made(
    alloc: Global,
    terms: &Terms,
    tables: &Tables,
    names: &Names,
    known: &mut BTreeMap<u32, Lin>,
    clause: &HornClause,
    placed: &[u32],
) -> Result<Clause, Memory>
    requires room { HasRoomFor (constant_in tables.now.constants) (naming_by names.now) terms.now.nodes clause.now placed.now }
    requires known { AreFound (constant_in tables.now.constants) (naming_by names.now) terms.now.nodes known.old }
    ensures { IfOk result (λ made. made ≡ clause_by (constant_in tables.now.constants) (sort_in tables.now.sorts) (naming_by names.now) terms.now.nodes clause.now placed.now) }
{
    let guard = guard_of(alloc, terms, tables, names, known, clause, placed)?;
    let sorts = sorts_of(alloc, &tables.sorts, clause.vars.as_slice(), placed)?;
    let atoms = normal_atoms(alloc, terms, names, clause.atoms.as_slice())?;
    let head = normal_head(alloc, terms, names, &clause.head)?;
    Ok(Clause {
        assertion: clause.assertion,
        user: clause.vars.len() as u32,
        sorts,
        atoms,
        guard,
        head,
    })
}

/// The assertion that the clause was made of.
pub fn assertion_of(script: &Script, clause: &HornClause) -> Assertion
    requires legal { IsLegalScript script.now }
    requires clause { IsClauseOf script.now clause.now.assertion clause.now }
    ensures is { slice_get script.now.asserts clause.now.assertion ≡ Some result }
    ensures top { result.term.0 ≡ top_of script.now clause.now }
    ensures there { result.term.0 < length script.now.terms.nodes }
{
    script.asserts.as_slice()[clause.assertion as usize]
}

/// The number of a term has 32 bits, for a proof that needs it.
pub fn has_number(id: TermId)
    ensures { id.0 < 2 ^ 32 }
{
    let _number = id.0;
}

/// The terms of the assertion that have auxiliary variables.
pub fn auxiliaries(
    alloc: Global,
    script: &Script,
    tables: &Tables,
    clause: &HornClause,
    top: TermId,
) -> Result<Vec<u32>, Memory>
    requires given { IsGiven script.now tables.now clause.now }
    requires top { top.0 ≡ top_of script.now clause.now }
    ensures { IfOk result (λ ids. ids.items ≡ auxiliaries script.now clause.now) }
{
    has_number(top);
    script.terms.arena_law();
    let ids = places(alloc, &script.terms, &tables.sorts, top)?;
    Ok(ids)
}

/// The names of the assertion's variables, where these are few.
pub fn names_of(
    alloc: Global,
    script: &Script,
    clause: &HornClause,
    placed: &[u32],
) -> Result<Names, Memory>
    requires placed { placed.now ≡ auxiliaries script.now clause.now }
    requires few { length clause.now.vars + length placed.now ≤ most_variables }
    ensures { IfOk result (λ names. naming_by names ≡ names_of script.now clause.now) }
{
    let first = clause.vars.len() as u32;
    let names = names_over(alloc, Vec::new(alloc), first, placed)?;
    Ok(names)
}

/// Judges whether every number in the assertion has room, where its variables have their names; if not,
/// `TooWide` tells where the first term without room starts.
fn judged_own(
    alloc: Global,
    script: &Script,
    tables: &Tables,
    names: &Names,
    known: &mut BTreeMap<u32, Lin>,
    clause: &HornClause,
    top: TermId,
) -> Result<(), NormalStop>
    requires given { IsGiven script.now tables.now clause.now }
    requires top { top.0 ≡ top_of script.now clause.now }
    requires names { naming_by names.now ≡ names_of script.now clause.now }
    requires known { AreFound (constant_in tables.now.constants) (naming_by names.now) script.now.terms.nodes known.old }
    ensures narrow { OnOk result (first_without_room script.now clause.now ≡ None) }
    ensures wide { (offset : ℕ) → IsErrOf result (NormalStop.TooWide offset) → IsWideAt script.now clause.now offset }
    ensures count { (offset : ℕ) → IsErrOf result (NormalStop.Count offset) → ⊥ }
    ensures known { OnOk result (AreFound (constant_in tables.now.constants) (naming_by names.now) script.now.terms.nodes known.new) }
{
    has_number(top);
    script.terms.arena_law();
    if tables.rooms.has_room(top) {
        return Ok(());
    }
    judged(alloc, &script.terms, tables, names, known, top)
}

/// Judges whether every number in the assertion has room, where its variables may be too many for names
/// of their own; if not, `TooWide` tells where the first term without room starts.
fn judged_apart(
    alloc: Global,
    script: &Script,
    tables: &Tables,
    clause: &HornClause,
    placed: &[u32],
    top: TermId,
) -> Result<(), NormalStop>
    requires given { IsGiven script.now tables.now clause.now }
    requires top { top.0 ≡ top_of script.now clause.now }
    requires placed { placed.now ≡ auxiliaries script.now clause.now }
    ensures narrow { OnOk result (first_without_room script.now clause.now ≡ None) }
    ensures wide { (offset : ℕ) → IsErrOf result (NormalStop.TooWide offset) → IsWideAt script.now clause.now offset }
    ensures count { (offset : ℕ) → IsErrOf result (NormalStop.Count offset) → ⊥ }
{
    has_number(top);
    script.terms.arena_law();
    let names = apart_names(alloc, &script.terms, &[], placed)?;
    let mut known = nothing_read(alloc);
    judged(alloc, &script.terms, tables, &names, &mut known, top)
}

/// The normal clause of an assertion that has room and few variables.
pub fn made_own(
    alloc: Global,
    script: &Script,
    tables: &Tables,
    names: &Names,
    known: &mut BTreeMap<u32, Lin>,
    clause: &HornClause,
    placed: &[u32],
    top: TermId,
) -> Result<Clause, Memory>
    requires given { IsGiven script.now tables.now clause.now }
    requires top { top.0 ≡ top_of script.now clause.now }
    requires placed { placed.now ≡ auxiliaries script.now clause.now }
    requires few { length clause.now.vars + length placed.now ≤ most_variables }
    requires narrow { first_without_room script.now clause.now ≡ None }
    requires names { naming_by names.now ≡ names_of script.now clause.now }
    requires known { AreFound (constant_in tables.now.constants) (naming_by names.now) script.now.terms.nodes known.old }
    ensures { IfOk result (λ made. made ≡ normal_clause script.now clause.now) }
{
    has_number(top);
    script.terms.arena_law();
    let made = made(alloc, &script.terms, tables, names, known, clause, placed)?;
    Ok(made)
}

/// The normal clause of an assertion, by what is told of the script's terms. `TooWide` tells where the
/// first term without room starts, and else `Count` where an assertion with too many variables or body
/// atoms does.
pub(crate) fn normal_with(
    alloc: Global,
    script: &Script,
    tables: &Tables,
    clause: &HornClause,
) -> Result<Clause, NormalStop>
    requires { IsGiven script.now tables.now clause.now }
    ensures made { IfOk result (λ made. made ≡ normal_clause script.now clause.now) }
    ensures room { OnOk result (first_without_room script.now clause.now ≡ None) }
    ensures few { OnOk result (is_too_large script.now clause.now ≡ false) }
    ensures wide { (offset : ℕ) → IsErrOf result (NormalStop.TooWide offset) → IsWideAt script.now clause.now offset }
    ensures count { (offset : ℕ) → IsErrOf result (NormalStop.Count offset) → IsTooLargeAt script.now clause.now offset }
{
    let assertion = assertion_of(script, clause);
    let top = assertion.term;
    let placed = auxiliaries(alloc, script, tables, clause, top)?;
    let placed = placed.as_slice();
    let own = clause.vars.as_slice();
    if own.len() + placed.len() > MOST_VARIABLES {
        judged_apart(alloc, script, tables, clause, placed, top)?;
        return Err(NormalStop::Count {
            offset: assertion.offset,
        });
    }
    let names = names_of(alloc, script, clause, placed)?;
    let mut known = nothing_read(alloc);
    judged_own(alloc, script, tables, &names, &mut known, clause, top)?;
    if is_too_large(clause, placed.len()) {
        return Err(NormalStop::Count {
            offset: assertion.offset,
        });
    }
    let made = made_own(
        alloc, script, tables, &names, &mut known, clause, placed, top,
    )?;
    Ok(made)
}

/// The normal clause of an assertion: a guard over integer variables, of which the assertion's own
/// come first and the others are determined by them, and atoms at variables. The instances of the
/// clause are the points of the guard. `TooWide` names the first term of which a linear form, or else
/// a difference of two sides, has a coefficient or constant of 2^63 or more in magnitude. `Count` comes
/// after it: more than 1,024 variables of the assertion's own, 64 body atoms, or 2,048 variables in
/// all. For every assertion of a script in turn `read_clauses` looks at each term once.
pub fn normal(alloc: Global, script: &Script, clause: &HornClause) -> Result<Clause, NormalStop>
    requires legal { IsLegalScript script.now }
    requires clause { IsClauseOf script.now clause.now.assertion clause.now }
    ensures made { IfOk result (λ made. made ≡ normal_clause script.now clause.now) }
    ensures room { OnOk result (first_without_room script.now clause.now ≡ None) }
    ensures few { OnOk result (is_too_large script.now clause.now ≡ false) }
    ensures wide { (offset : ℕ) → IsErrOf result (NormalStop.TooWide offset) → IsWideAt script.now clause.now offset }
    ensures count { (offset : ℕ) → IsErrOf result (NormalStop.Count offset) → IsTooLargeAt script.now clause.now offset }
{
    let tables = tables_of(alloc, script.preds.as_slice(), &script.terms)?;
    normal_with(alloc, script, &tables, clause)
}
