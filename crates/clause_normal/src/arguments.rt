//! Atoms at variables.

ghost use Rattle.std.specs.Prelude.{◌≡◌, ◌<◌, length, map, option_map, slice_get, IfOk};
ghost use Rattle.term_formulas.specs.Written.{naming_by};
ghost use Rattle.clause_normal.specs.Normal.{argument_variable, normal_atom};
ghost use Rattle.clause_normal.specs.machinery.Making.{AreThere, IsHeadThere, IsThere};

use base::{Items, Memory};
use clause_form::Atom;
use horn_shape::{AtomUse, Part};
use std::alloc::Global;
use term_forms::{Names, auxiliary_of};
use term_tree::{Node, Terms};

/// The variable that stands for an argument: the argument itself, or its auxiliary one.
fn argument_variable(terms: &Terms, names: &Names, part: &Part) -> u32
    requires { part.now.term.0 < length terms.now.nodes }
    ensures { result ≡ argument_variable (naming_by names.now).auxiliary part.now.term.0 (slice_get terms.now.nodes part.now.term.0) }
{
    match terms.node(part.term) {
        Node::Var { binder, .. } => *binder,
        _ => auxiliary_of(names, part.term).unwrap_or(0),
    }
}

fn normal_atom(alloc: Global, terms: &Terms, names: &Names, atom: &AtomUse) -> Result<Atom, Memory>
    requires { IsThere terms.now.nodes atom.now }
    ensures { IfOk result (λ made. made ≡ normal_atom (naming_by names.now) terms.now.nodes atom.now) }
{
    let mut args = Items::new(alloc);
    for part in atom.args.as_slice() {
        args.push(argument_variable(terms, names, part))?;
    }
    Ok(Atom {
        pred: atom.pred,
        args,
    })
}

/// The body.
pub(crate) fn normal_atoms(
    alloc: Global,
    terms: &Terms,
    names: &Names,
    atoms: &[AtomUse],
) -> Result<Items<Atom>, Memory>
    requires { AreThere terms.now.nodes atoms.now }
    ensures { IfOk result (λ made. made ≡ map (normal_atom (naming_by names.now) terms.now.nodes) atoms.now) }
{
    let mut made = Items::new(alloc);
    for atom in atoms {
        made.push(normal_atom(alloc, terms, names, atom)?)?;
    }
    Ok(made)
}

/// The head, where there is one.
pub(crate) fn normal_head(
    alloc: Global,
    terms: &Terms,
    names: &Names,
    head: &Option<AtomUse>,
) -> Result<Option<Atom>, Memory>
    requires { IsHeadThere terms.now.nodes head.now }
    ensures { IfOk result (λ made. made ≡ option_map (normal_atom (naming_by names.now) terms.now.nodes) head.now) }
{
    match head {
        None => Ok(None),
        Some(atom) => Ok(Some(normal_atom(alloc, terms, names, atom)?)),
    }
}
