//! The linear forms of terms, each subterm read once.

ghost use Rattle.std.specs.Prelude.{◌≡◌, ◌<◌, [], ◌∷◌, ◌++◌, ℕ, length, Some, IsTrue, IfOk, OnOk};
ghost use Rattle.std.specs.List.{list_all};
ghost use Rattle.std.specs.Ordering.{nat_cmp};
ghost use Rattle.std.specs.BTreeMap.{get};
ghost use Rattle.term_tree.specs.Arena.{is_below};
ghost use Rattle.term_tables.specs.machinery.Table.{constant_in};
ghost use Rattle.term_forms.specs.Found.{Tells, naming_in};
ghost use Rattle.term_forms.specs.machinery.Reading.{AreRead, TellsAll, each, formed, judged, reading, told_reading};

use crate::leaves::{is_leaf, text_parts};
use crate::names::Names;
use crate::node_form::node_form;
use crate::stop::FormStop;
use base::{Copied, Items, Memory};
use lin_atoms::{Lin, WideStop};
use std::alloc::Global;
use std::collections::BTreeMap;
use term_tables::ConstantTable;
use term_tree::{Node, TermId, Terms};

/// A copy of the form that is kept of the term, where it was read before.
fn kept(alloc: Global, known: &BTreeMap<u32, Lin>, id: TermId) -> Result<Option<Lin>, Memory>
    ensures { IfOk result (λ found. found ≡ get nat_cmp known.now id.0) }
{
    match known.get(&id.0) {
        None => Ok(None),
        Some(form) => Ok(Some(form.copy(alloc)?)),
    }
}

/// The form of a node over those of its parts, or that it is wide.
fn of_node(
    alloc: Global,
    node: &Node,
    own: TermId,
    constants: &ConstantTable,
    names: &Names,
    forms: &[Lin],
) -> Result<Lin, FormStop>
    ensures { Tells (judged own.0 (formed (constant_in constants.now) (naming_in names.now.own.items names.now.auxiliary) node.now own.0 forms.now)) result }
{
    match node_form(alloc, node, own, constants, names, forms) {
        Ok(form) => Ok(form),
        Err(WideStop::Memory) => Err(FormStop::Memory),
        Err(WideStop::Wide) => Err(FormStop::Wide { term: own }),
    }
}

fn keep(known: &mut BTreeMap<u32, Lin>, id: TermId, form: Lin) -> Result<(), Memory>
    ensures here { OnOk result (get nat_cmp known.new id.0 ≡ Some form) }
    ensures others { OnOk result ((q : ℕ) → (id.0 ≡ q → ⊥) → get nat_cmp known.new q ≡ get nat_cmp known.old q) }
{
    known.insert(id.0, form)?;
    Ok(())
}

fn put(forms: &mut Items<Lin>, form: Lin) -> Result<(), Memory>
    ensures { OnOk result (forms.new ≡ forms.old ++ form ∷ []) }
{
    forms.push(form)?;
    Ok(())
}

/// The linear form of the term, or the first of its subterms, parts before the whole, whose form is
/// wide. What was read is kept, so that a term that a name is bound to is read once.
#[cycle(read)]
fn read_form(
    alloc: Global,
    terms: &Terms,
    constants: &ConstantTable,
    names: &Names,
    known: &mut BTreeMap<u32, Lin>,
    id: TermId,
) -> Result<Lin, FormStop>
    requires there { id.0 < length terms.now.nodes }
    requires known { AreRead (constant_in constants.now) (naming_in names.now.own.items names.now.auxiliary) terms.now.nodes known.old }
    ensures told { Tells (reading (constant_in constants.now) (naming_in names.now.own.items names.now.auxiliary) terms.now.nodes id.0) result }
    ensures known { OnOk result (AreRead (constant_in constants.now) (naming_in names.now.own.items names.now.auxiliary) terms.now.nodes known.new) }
{
    if let Some(form) = kept(alloc, known, id)? {
        return Ok(form);
    }
    let node = terms.node(id);
    let parts = text_parts(alloc, node)?;
    match read_forms(alloc, terms, constants, names, known, id, parts.as_slice()) {
        Err(stop) => Err(stop),
        Ok(forms) => match of_node(alloc, node, id, constants, names, forms.as_slice()) {
            Err(stop) => Err(stop),
            Ok(form) => {
                keep(known, id, form.copy(alloc)?)?;
                Ok(form)
            }
        },
    }
}

/// The linear form of a part, or the first of its subterms, parts before the whole, whose form is wide.
/// The form of a term without parts is made, and not kept.
#[cycle(read)]
pub(crate) fn read_part(
    alloc: Global,
    terms: &Terms,
    constants: &ConstantTable,
    names: &Names,
    known: &mut BTreeMap<u32, Lin>,
    id: TermId,
) -> Result<Lin, FormStop>
    requires there { id.0 < length terms.now.nodes }
    requires known { AreRead (constant_in constants.now) (naming_in names.now.own.items names.now.auxiliary) terms.now.nodes known.old }
    ensures told { Tells (reading (constant_in constants.now) (naming_in names.now.own.items names.now.auxiliary) terms.now.nodes id.0) result }
    ensures known { OnOk result (AreRead (constant_in constants.now) (naming_in names.now.own.items names.now.auxiliary) terms.now.nodes known.new) }
{
    let node = terms.node(id);
    if is_leaf(node) {
        return of_node(alloc, node, id, constants, names, &[]);
    }
    read_form(alloc, terms, constants, names, known, id)
}

/// The linear forms of some parts of the term of that number, in order.
#[cycle(read)]
fn read_forms(
    alloc: Global,
    terms: &Terms,
    constants: &ConstantTable,
    names: &Names,
    known: &mut BTreeMap<u32, Lin>,
    above: TermId,
    ids: &[TermId],
) -> Result<Items<Lin>, FormStop>
    requires there { above.0 < length terms.now.nodes }
    requires below { IsTrue (list_all (is_below above.0) ids.now) }
    requires known { AreRead (constant_in constants.now) (naming_in names.now.own.items names.now.auxiliary) terms.now.nodes known.old }
    ensures told { TellsAll (each (told_reading (constant_in constants.now) (naming_in names.now.own.items names.now.auxiliary) terms.now.nodes) [] ids.now) result }
    ensures known { OnOk result (AreRead (constant_in constants.now) (naming_in names.now.own.items names.now.auxiliary) terms.now.nodes known.new) }
{
    let mut forms = Items::new(alloc);
    for id in ids {
        match read_part(alloc, terms, constants, names, known, *id) {
            Ok(form) => put(&mut forms, form)?,
            Err(stop) => return Err(stop),
        }
    }
    Ok(forms)
}
