ghost use Rattle.std.specs.Prelude.{◌≡◌, [], ◌∷◌, ◌++◌, IfOk, IfSome, OnOk, MatchOption, true, false};
ghost use Rattle.std.specs.List.{list_all, list_any};
ghost use Rattle.base.specs.Widths.{is_short};
ghost use Rattle.lin_atoms.specs.Denial.{denial, linear_of, lit_fits};
ghost use Rattle.lin_atoms.specs.Linear.{fits};
ghost use Rattle.cube_forms.specs.Cubes.{cube_is_short, lit_at, lit_is_short};
ghost use Rattle.book_rules.specs.Areas.{cover, is_among, stands_in};
ghost use Rattle.book_rules.specs.Same.{same_cube};
ghost use Rattle.cube_rules.specs.machinery.Literals.{form_fits, roomy_denials};

use crate::same::same_lit;
use base::{Copied, Memory};
use cube_forms::lit_at;
use lin_atoms::{Form, Lin, Lit, WideStop, denied};
use std::alloc::Global;

/// Tells that a linear form that is kept has room.
fn lin_has_room(lin: &Lin)
    ensures { fits lin.now ≡ true }
{
    let _terms = lin.terms();
    let _constant = lin.constant();
}

/// Tells it of a literal.
pub(crate) fn has_room(lit: &Lit)
    ensures { lit_fits lit.now ≡ true }
{
    match lit {
        Lit::Le(lin) => lin_has_room(lin),
        Lit::Eq(lin) => lin_has_room(lin),
        Lit::Div(_, lin) => lin_has_room(lin),
        Lit::NDiv(_, lin) => lin_has_room(lin),
    }
}

/// Tells it of literals.
pub fn have_room(lits: &[Lit])
    ensures { list_all lit_fits lits.now ≡ true }
{
    for lit in lits {
        has_room(lit);
    }
}

/// Tells it of the literals of a form.
#[cycle(form_has_room)]
pub fn form_has_room(form: &Form)
    ensures { form_fits form.now ≡ true }
{
    match form {
        Form::True => {}
        Form::False => {}
        Form::Lit(lit) => has_room(lit),
        Form::And(parts) => all_have_room(parts.as_slice()),
        Form::Or(parts) => all_have_room(parts.as_slice()),
    }
}

#[cycle(form_has_room)]
fn all_have_room(forms: &[Form])
    ensures { list_all form_fits forms.now ≡ true }
{
    for form in forms {
        form_has_room(form);
    }
}

/// Whether the literal is one of these.
pub fn is_among(lits: &[Lit], lit: &Lit) -> bool
    ensures { result ≡ is_among lits.now lit.now }
{
    for one in lits {
        if same_lit(lit, one) {
            return true;
        }
    }
    false
}

/// Whether each of them is one of these.
pub(crate) fn are_among(lits: &[Lit], those: &[Lit]) -> bool
    ensures { result ≡ list_all (is_among lits.now) those.now }
{
    for lit in those {
        if !is_among(lits, lit) {
            return false;
        }
    }
    true
}

/// Whether one of them is one of these.
pub(crate) fn any_among(lits: &[Lit], those: &[Lit]) -> bool
    ensures { result ≡ list_any (is_among lits.now) those.now }
{
    for lit in those {
        if is_among(lits, lit) {
            return true;
        }
    }
    false
}

/// Whether they are the same literals, in the same order.
pub fn same_cube(lits: &[Lit], others: &[Lit]) -> bool
    ensures { result ≡ same_cube lits.now others.now }
{
    if lits.len() != others.len() {
        return false;
    }
    for (i, lit) in lits.iter().enumerate() {
        if !same_lit(lit, &others[i]) {
            return false;
        }
    }
    true
}

/// Whether the literals cover the form: it is true, one of them, a conjunction of which they cover
/// each part, or a disjunction of which they cover some part.
#[cycle(cover)]
pub fn cover(lits: &[Lit], form: &Form) -> bool
    ensures { result ≡ cover lits.now form.now }
{
    match form {
        Form::True => true,
        Form::False => false,
        Form::Lit(lit) => is_among(lits, lit),
        Form::And(parts) => cover_all(lits, parts.as_slice()),
        Form::Or(parts) => cover_some(lits, parts.as_slice()),
    }
}

#[cycle(cover)]
fn cover_all(lits: &[Lit], forms: &[Form]) -> bool
    ensures { result ≡ list_all (cover lits.now) forms.now }
{
    for form in forms {
        if !cover(lits, form) {
            return false;
        }
    }
    true
}

#[cycle(cover)]
fn cover_some(lits: &[Lit], forms: &[Form]) -> bool
    ensures { result ≡ list_any (cover lits.now) forms.now }
{
    for form in forms {
        if cover(lits, form) {
            return true;
        }
    }
    false
}

/// Whether the literal stands in the form.
#[cycle(stands_in)]
pub(crate) fn stands_in(lit: &Lit, form: &Form) -> bool
    ensures { result ≡ stands_in lit.now form.now }
{
    match form {
        Form::True => false,
        Form::False => false,
        Form::Lit(other) => same_lit(lit, other),
        Form::And(parts) => stands_in_some(lit, parts.as_slice()),
        Form::Or(parts) => stands_in_some(lit, parts.as_slice()),
    }
}

#[cycle(stands_in)]
fn stands_in_some(lit: &Lit, forms: &[Form]) -> bool
    ensures { result ≡ list_any (stands_in lit.now) forms.now }
{
    for form in forms {
        if stands_in(lit, form) {
            return true;
        }
    }
    false
}

/// The literal at the arguments; none where a number has no room.
fn placed(alloc: Global, lit: &Lit, args: &[u32]) -> Result<Option<Lit>, Memory>
    ensures made { IfOk result (λ found. MatchOption found (lit_fits (lit_at args.now lit.now) ≡ false) (λ made. made ≡ lit_at args.now lit.now)) }
    ensures room { IfOk result (λ found. IfSome found (λ made. lit_fits made ≡ true)) }
{
    match lit_at(alloc, lit, args) {
        Ok(lit) => Ok(Some(lit)),
        Err(WideStop::Wide) => Ok(None),
        Err(WideStop::Memory) => Err(Memory),
    }
}

/// Adds copies of the literals.
fn push_all(alloc: Global, lits: &mut Vec<Lit>, more: &[Lit]) -> Result<(), Memory>
    ensures { OnOk result (lits.new.items ≡ lits.old.items ++ more.now) }
{
    for lit in more {
        let lit = lit.copy(alloc)?;
        lits.push(lit)?;
    }
    Ok(())
}

/// Adds the literal's denials.
fn push_denials(alloc: Global, lits: &mut Vec<Lit>, lit: &Lit) -> Result<(), Memory>
    requires short { is_short (linear_of lit.now).constant ≡ true }
    requires room { lit_fits lit.now ≡ true }
    ensures { OnOk result (lits.new.items ≡ lits.old.items ++ denial lit.now) }
{
    match denied(alloc, lit) {
        Ok(denials) => {
            push_all(alloc, lits, denials.as_slice())?;
            Ok(())
        }
        Err(WideStop::Wide) => unreachable!(),
        Err(WideStop::Memory) => Err(Memory),
    }
}

/// The literal at the arguments, denied; nothing where it has no room.
fn push_placed(alloc: Global, lits: &mut Vec<Lit>, lit: &Lit, args: &[u32]) -> Result<(), Memory>
    requires { lit_is_short lit.now ≡ true }
    ensures { OnOk result (lits.new.items ≡ lits.old.items ++ roomy_denials args.now (lit.now ∷ [])) }
{
    match placed(alloc, lit, args)? {
        Some(placed) => {
            push_denials(alloc, lits, &placed)?;
            Ok(())
        }
        None => Ok(()),
    }
}

/// The literals at the arguments, denied one after another, without those that have no room: what a
/// lemma's form at the arguments is a disjunction of.
pub(crate) fn push_roomy(
    alloc: Global,
    lits: &mut Vec<Lit>,
    cube: &[Lit],
    args: &[u32],
) -> Result<(), Memory>
    requires { cube_is_short cube.now ≡ true }
    ensures { OnOk result (lits.new.items ≡ lits.old.items ++ roomy_denials args.now cube.now) }
{
    for lit in cube {
        push_placed(alloc, lits, lit, args)?;
    }
    Ok(())
}
