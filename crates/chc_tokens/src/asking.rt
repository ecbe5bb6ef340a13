ghost use Rattle.std.specs.Prelude.{◌≡◌, ◌&&◌, Some, None, IfOk, is_some, map, true, if◌then◌else◌};
ghost use Rattle.chc_tokens.specs.Queries.{base, base_at, base_in, forms_at, goal_has_room, has_used, may_use, query, query_at, query_in, used_form, used_have_room};
ghost use Rattle.chc_tokens.specs.declared.goal.Goal.TheVariants.{Holds};

use crate::atoms::{has_places, has_used};
use crate::forms::{base_form, push_used, query_form};
use crate::goal::Goal;
use crate::used::Used;
use base::{Items, Memory};
use clause_form::{Atom, Clause, System};
use cube_forms::Lemma;
use lin_atoms::{Form, Lit, WideStop};
use std::alloc::Global;

/// The guard, and that the head lies in the cube, unless the numbers have no room.
fn if_base(alloc: Global, clause: &Clause, cube: &[Lit]) -> Result<Option<Form>, Memory>
    ensures { IfOk result (λ found. found ≡ (if goal_has_room clause.now (Holds cube.now) then Some (base clause.now (Holds cube.now)) else None)) }
{
    match base_form(alloc, clause, cube) {
        Ok(form) => Ok(Some(form)),
        Err(WideStop::Wide) => Ok(None),
        Err(WideStop::Memory) => Err(Memory),
    }
}

/// The query whether the head lies in the cube, unless an atom of a used lemma isn't there or the
/// numbers have no room.
fn if_query(
    alloc: Global,
    clause: &Clause,
    cube: &[Lit],
    used: &[Used],
) -> Result<Option<Form>, Memory>
    ensures { IfOk result (λ found. found ≡ (if may_use clause.now (Holds cube.now) used.now then Some (query clause.now (Holds cube.now) used.now) else None)) }
{
    if !has_used(clause.atoms.as_slice(), used) {
        return Ok(None);
    }
    match query_form(alloc, clause, cube, used) {
        Ok(form) => Ok(Some(form)),
        Err(WideStop::Wide) => Ok(None),
        Err(WideStop::Memory) => Err(Memory),
    }
}

/// The forms of used lemmas, unless an atom of one isn't there or the numbers have no room.
fn if_forms(alloc: Global, atoms: &[Atom], used: &[Used]) -> Result<Option<Items<Form>>, Memory>
    ensures { IfOk result (λ found. found ≡ (if has_used atoms.now used.now && used_have_room atoms.now used.now then Some (map (used_form atoms.now) used.now) else None)) }
{
    if !has_used(atoms, used) {
        return Ok(None);
    }
    let mut forms = Vec::new(alloc);
    match push_used(alloc, &mut forms, atoms, used) {
        Ok(_) => Ok(Some(Items::from_vec(forms))),
        Err(WideStop::Wide) => Ok(None),
        Err(WideStop::Memory) => Err(Memory),
    }
}

/// The query whether the head breaks the lemma.
pub(crate) fn query_of_lemma(
    alloc: Global,
    clause: &Clause,
    lemma: &Lemma,
    used: &[Used],
) -> Result<Option<Form>, Memory>
    ensures { IfOk result (λ found. found ≡ query_in (Some clause.now) (Holds lemma.now) used.now) }
{
    if !has_places(&clause.head, lemma) {
        return Ok(None);
    }
    if_query(alloc, clause, lemma.cube().lits(), used)
}

/// The base of a clause that is there.
fn base_of_goal(alloc: Global, clause: &Clause, goal: &Goal) -> Result<Option<Form>, Memory>
    ensures { IfOk result (λ found. found ≡ base_in (Some clause.now) goal.now) }
{
    match goal {
        Goal::Query => if_base(alloc, clause, &[]),
        Goal::Holds(lemma) => {
            if !has_places(&clause.head, lemma) {
                return Ok(None);
            }
            if_base(alloc, clause, lemma.cube().lits())
        }
    }
}

/// The query of a clause that is there.
fn query_of_goal(
    alloc: Global,
    clause: &Clause,
    goal: &Goal,
    used: &[Used],
) -> Result<Option<Form>, Memory>
    ensures { IfOk result (λ found. found ≡ query_in (Some clause.now) goal.now used.now) }
{
    match goal {
        Goal::Query => if_query(alloc, clause, &[], used),
        Goal::Holds(lemma) => query_of_lemma(alloc, clause, lemma, used),
    }
}

/// The form of a clause's guard and a goal, as `base_of` has it. There is none exactly where the
/// clause isn't there, a lemma's place isn't there on its head, or the coefficients of an argument
/// that stands at several places add up to 2^63 or more in magnitude.
pub fn checked_base_of(
    alloc: Global,
    sys: &System,
    clause: u32,
    goal: &Goal,
) -> Result<Option<Form>, Memory>
    ensures { IfOk result (λ found. found ≡ base_at sys.now clause goal.now) }
{
    match sys.clauses().get(clause as usize) {
        Some(clause) => base_of_goal(alloc, clause, goal),
        None => Ok(None),
    }
}

/// The forms of used lemmas, as `forms_of` has them. There are none exactly where the clause, a
/// lemma's atom or a place of it isn't there, or a lemma has no room at its atom's arguments.
pub fn checked_forms_of(
    alloc: Global,
    sys: &System,
    clause: u32,
    used: &[Used],
) -> Result<Option<Items<Form>>, Memory>
    ensures { IfOk result (λ found. found ≡ forms_at sys.now clause used.now) }
{
    match sys.clauses().get(clause as usize) {
        Some(clause) => if_forms(alloc, clause.atoms.as_slice(), used),
        None => Ok(None),
    }
}

/// The form of a query, as `query_of` has it. There is none exactly where there is none of the
/// clause and the goal, a used lemma's atom or a place of it isn't there, or a used lemma has no
/// room at its atom's arguments.
pub fn checked_query_of(
    alloc: Global,
    sys: &System,
    clause: u32,
    goal: &Goal,
    used: &[Used],
) -> Result<Option<Form>, Memory>
    ensures { IfOk result (λ found. found ≡ query_at sys.now clause goal.now used.now) }
{
    match sys.clauses().get(clause as usize) {
        Some(clause) => query_of_goal(alloc, clause, goal, used),
        None => Ok(None),
    }
}

/// The form of a clause's guard and a goal: the conjunction of the guard and then of each literal of
/// the goal's cube, in order, at the head's arguments. Where it isn't known that there is one,
/// `checked_base_of` tells it.
pub fn base_of(alloc: Global, sys: &System, clause: u32, goal: &Goal) -> Result<Form, Memory>
    requires { is_some (base_at sys.now clause goal.now) ≡ true }
    ensures { IfOk result (λ form. base_at sys.now clause goal.now ≡ Some form) }
{
    match checked_base_of(alloc, sys, clause, goal)? {
        Some(form) => Ok(form),
        None => unreachable!(),
    }
}

/// The forms of used lemmas at their atoms' arguments, in order. Where it isn't known that there are
/// such forms, `checked_forms_of` tells it. A solver that is given the form of `base_of` and these
/// decides the query of `query_of`: `a_query_joins_its_base_and_lemmas`.
pub fn forms_of(
    alloc: Global,
    sys: &System,
    clause: u32,
    used: &[Used],
) -> Result<Items<Form>, Memory>
    requires { is_some (forms_at sys.now clause used.now) ≡ true }
    ensures { IfOk result (λ forms. forms_at sys.now clause used.now ≡ Some forms) }
{
    match checked_forms_of(alloc, sys, clause, used)? {
        Some(forms) => Ok(forms),
        None => unreachable!(),
    }
}

/// The form of a query: the conjunction of the form of `base_of` and then of each used lemma's form
/// at its atom's arguments, in the order of the used lemmas. Where it isn't known that there is one,
/// `checked_query_of` tells it.
pub fn query_of(
    alloc: Global,
    sys: &System,
    clause: u32,
    goal: &Goal,
    used: &[Used],
) -> Result<Form, Memory>
    requires { is_some (query_at sys.now clause goal.now used.now) ≡ true }
    ensures { IfOk result (λ form. query_at sys.now clause goal.now used.now ≡ Some form) }
{
    match checked_query_of(alloc, sys, clause, goal, used)? {
        Some(form) => Ok(form),
        None => unreachable!(),
    }
}
