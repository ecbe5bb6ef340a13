//! The forms of a row: the calls with what their contracts ask.

ghost use Rattle.std.specs.Prelude.{◌≡◌, ◌≤◌, true};
ghost use Rattle.term_tables.specs.machinery.Table.{constant_in};
ghost use Rattle.term_forms.specs.Found.{AreFound};
ghost use Rattle.term_formulas.specs.Written.{HasRoom, naming_by};
ghost use Rattle.test_clauses.specs.machinery.Samples.{AreGiven};

use crate::samples::Given;
use base::Items;
use lin_atoms::{Form, Lin};
use std::alloc::Global;
use std::collections::BTreeMap;
use std::mem;
use std::process::Abort;
use term_forms::nothing_read;
use term_formulas::{formula, place_form, place_forms};
use term_tables::short_constants_are_constants;
use term_tree::TermId;
use term_widths::first_wide;

/// Makes sure that the term is there and all its numbers have room.
fn judge(rt: &impl Abort, alloc: Global, given: &Given, known: &mut BTreeMap<u32, Lin>, id: TermId)
    requires given { AreGiven given.now.terms.nodes given.now.constants given.now.names.own.items given.now.names.auxiliary }
    requires known { AreFound (constant_in given.now.constants) (naming_by given.now.names) given.now.terms.nodes known.old }
    ensures room { HasRoom (constant_in given.now.constants) (naming_by given.now.names) given.now.terms.nodes id.0 }
    ensures known { AreFound (constant_in given.now.constants) (naming_by given.now.names) given.now.terms.nodes known.new }
{
    assert!(rt; (id.0 as usize) < given.terms.len());
    given.terms.arena_law();
    short_constants_are_constants();
    let (terms, constants, names) = (&given.terms, &given.constants, &given.names);
    match first_wide(alloc, terms, constants, names, known, id) {
        Ok(wide) => assert!(rt; wide.is_none()),
        Err(_) => rt.panic("memory"),
    }
}

/// Where the term is true, or where it is false.
pub fn written(rt: &impl Abort, alloc: Global, given: &Given, id: u32, sign: bool) -> Form
    requires given { AreGiven given.now.terms.nodes given.now.constants given.now.names.own.items given.now.names.auxiliary }
{
    let mut known = nothing_read(alloc);
    judge(rt, alloc, given, &mut known, TermId(id));
    let (terms, sorts) = (&given.terms, &given.sorts);
    let (constants, names) = (&given.constants, &given.names);
    let made = formula(
        alloc,
        terms,
        sorts,
        constants,
        names,
        &mut known,
        TermId(id),
        sign,
    );
    mem::forget(known);
    made.expect(rt, "memory")
}

/// Whether the variable v may stand for the term of that number: no other term has it.
fn may_stand(v: u32, id: u32) -> bool
    ensures low { result ≡ true → 4 ≤ v }
    ensures same { result ≡ true → v ≡ 4 → id ≡ 8 }
{
    if v < 4 {
        return false;
    }
    if v > 4 {
        return true;
    }
    id == 8
}

/// What determines the variable v for the term.
pub fn determined(rt: &impl Abort, alloc: Global, given: &Given, v: u32, id: u32) -> Form
    requires given { AreGiven given.now.terms.nodes given.now.constants given.now.names.own.items given.now.names.auxiliary }
{
    if !may_stand(v, id) {
        rt.panic("the variable is another term's");
    }
    let mut known = nothing_read(alloc);
    judge(rt, alloc, given, &mut known, TermId(id));
    let (terms, sorts) = (&given.terms, &given.sorts);
    let (constants, names) = (&given.constants, &given.names);
    let made = place_form(
        alloc,
        terms,
        sorts,
        constants,
        names,
        &mut known,
        v,
        TermId(id),
    );
    mem::forget(known);
    made.expect(rt, "memory")
}

/// What determines the variable 4 for the term 8, and 5 for another term, behind `True`.
pub fn all_determined(rt: &impl Abort, alloc: Global, given: &Given, other: u32) -> Items<Form>
    requires given { AreGiven given.now.terms.nodes given.now.constants given.now.names.own.items given.now.names.auxiliary }
{
    let mut known = nothing_read(alloc);
    judge(rt, alloc, given, &mut known, TermId(8));
    judge(rt, alloc, given, &mut known, TermId(other));
    let mut out = Items::new(alloc);
    out.push(Form::True).expect(rt, "memory");
    let (terms, sorts) = (&given.terms, &given.sorts);
    let (constants, names) = (&given.constants, &given.names);
    let placed = [8, other];
    let put = place_forms(
        alloc, terms, sorts, constants, names, &mut known, 4, &placed, &mut out,
    );
    put.expect(rt, "memory");
    mem::forget(known);
    out
}
