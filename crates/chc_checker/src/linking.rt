//! Links as literals, so that a solver has no cases for them.

ghost use Rattle.std.specs.Prelude.{◌≡◌, ℤ, List, true, IfSome, IfOk};
ghost use Rattle.lin_atoms.specs.Truth.{truth};
ghost use Rattle.lin_atoms.specs.declared.form.Form.TheViews.{And, Or};
ghost use Rattle.chc_checker.specs.machinery.Links.{AreWithin, Replaces, SayTheSame};

use crate::bounds::{mark, unmarked};
use crate::links::{link_literals, link_of};
use base::{Items, Memory};
use lin_atoms::Form;
use std::alloc::Global;

/// The literals in place of a disjunction of these parts, if it is a link.
fn link(alloc: Global, parts: &[Form], low: &[bool], high: &[bool]) -> Result<Option<Form>, Memory>
    ensures { IfOk result (λ made. IfSome made (Replaces low.now high.now (Or parts.now))) }
{
    match link_of(parts, low, high) {
        Some((u, v, same)) => link_literals(alloc, u, v, same),
        None => Ok(None),
    }
}

/// The formula with literals in place of the links that stand in it where it is a conjunction.
#[cycle(linked)]
#[tactic(auto, using(crate::proofs::ReplaceLemmas::by_parts))]
fn linked(alloc: Global, form: &Form, low: &[bool], high: &[bool]) -> Result<Form, Memory>
    ensures { IfOk result (Replaces low.now high.now form.now) }
{
    match form {
        Form::And(parts) => Ok(Form::And(all_linked(alloc, parts.as_slice(), low, high)?)),
        Form::Or(parts) => match link(alloc, parts.as_slice(), low, high)? {
            Some(made) => Ok(made),
            None => form.copy(alloc),
        },
        _ => form.copy(alloc),
    }
}

#[cycle(linked)]
#[tactic(auto, using(crate::proofs::ReplaceLemmas::all_parts))]
fn all_linked(
    alloc: Global,
    parts: &[Form],
    low: &[bool],
    high: &[bool],
) -> Result<Items<Form>, Memory>
    ensures { IfOk result (λ made. Replaces low.now high.now (And parts.now) (And made)) }
{
    let mut made = Items::new(alloc);
    for part in parts {
        made.push(linked(alloc, part, low, high)?)?;
    }
    Ok(made)
}

/// Whether a link stands in it.
#[cycle(has_link)]
fn has_link(form: &Form, low: &[bool], high: &[bool]) -> bool {
    match form {
        Form::And(parts) => any_has_link(parts.as_slice(), low, high),
        Form::Or(parts) => link_of(parts.as_slice(), low, high).is_some(),
        _ => false,
    }
}

#[cycle(has_link)]
fn any_has_link(parts: &[Form], low: &[bool], high: &[bool]) -> bool {
    for part in parts {
        if has_link(part, low, high) {
            return true;
        }
    }
    false
}

/// The marks of a formula with variables below `vars`: those that are at least 0, and at most 1.
fn marked(alloc: Global, form: &Form, vars: u32) -> Result<(Vec<bool>, Vec<bool>), Memory>
    ensures { IfOk result (λ marks. (point : List ℤ) → truth point form.now ≡ true → AreWithin marks.0.items marks.1.items point) }
{
    let mut low = unmarked(alloc, vars)?;
    let mut high = unmarked(alloc, vars)?;
    mark(form, low.as_mut_slice(), high.as_mut_slice());
    Ok((low, high))
}

/// The formula with literals in place of its links, as the marks tell them; none where it has no link.
fn rewritten(
    alloc: Global,
    form: &Form,
    low: &[bool],
    high: &[bool],
) -> Result<Option<Form>, Memory>
    requires { (point : List ℤ) → truth point form.now ≡ true → AreWithin low.now high.now point }
    ensures { IfOk result (λ made. IfSome made (SayTheSame form.now)) }
{
    if !has_link(form, low, high) {
        return Ok(None);
    }
    let made = linked(alloc, form, low, high)?;
    Ok(Some(made))
}

/// A formula that is true at the same points, with literals in place of links: two variables of which
/// each is 1 exactly where the other one is, or exactly where it isn't. None where no link stands in it.
/// A variable counts as 0 or 1 by literals that stand in the formula where it is a conjunction, and only
/// links there are looked for. The variables are below `vars`; what others say isn't seen.
pub(crate) fn without_links(alloc: Global, form: &Form, vars: u32) -> Result<Option<Form>, Memory>
    ensures { IfOk result (λ made. IfSome made (SayTheSame form.now)) }
{
    let (low, high) = marked(alloc, form, vars)?;
    rewritten(alloc, form, low.as_slice(), high.as_slice())
}
