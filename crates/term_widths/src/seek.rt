//! The walk for comparisons with a wide difference.

ghost use Rattle.std.specs.Prelude.{◌≡◌, ◌<◌, ℕ, Bool, length, slice_get, Some, None, true, IsTrue, IfOk, OnOk};
ghost use Rattle.std.specs.List.{list_all};
ghost use Rattle.std.specs.Ordering.{nat_cmp};
ghost use Rattle.std.specs.BTreeMap.{get};
ghost use Rattle.term_tree.specs.declared.node.Node.{Node};
ghost use Rattle.term_tree.specs.Arena.{is_below};
ghost use Rattle.linear_terms.specs.Width.{first_among, first_where, text_parts};
ghost use Rattle.term_tables.specs.machinery.Table.{constant_in};
ghost use Rattle.term_forms.specs.Found.{AreFound, naming_in};
ghost use Rattle.term_widths.specs.Wide.{has_wide_sides, numbered};
ghost use Rattle.term_widths.specs.machinery.Seen.{AreClear, AreNarrowTerms, IsNarrowTerm};

use crate::relation::is_wide_relation;
use base::Memory;
use lin_atoms::Lin;
use std::alloc::Global;
use std::collections::BTreeMap;
use term_forms::{Names, is_leaf, text_parts};
use term_tables::ConstantTable;
use term_tree::{TermId, Terms};

/// Whether the term was seen before.
fn is_seen(seen: &BTreeMap<u32, bool>, id: TermId) -> bool
    ensures { IsTrue result → (b : Bool) × (get nat_cmp seen.now id.0 ≡ Some b) }
{
    match seen.get(&id.0) {
        Some(_) => true,
        None => false,
    }
}

fn keep(seen: &mut BTreeMap<u32, bool>, id: TermId) -> Result<(), Memory>
    ensures here { OnOk result (get nat_cmp seen.new id.0 ≡ Some true) }
    ensures others { OnOk result ((q : ℕ) → (id.0 ≡ q → ⊥) → get nat_cmp seen.new q ≡ get nat_cmp seen.old q) }
{
    seen.insert(id.0, true)?;
    Ok(())
}

/// Whether the term is itself a comparison with a wide difference, where none of its parts has any.
fn at_node(
    alloc: Global,
    terms: &Terms,
    constants: &ConstantTable,
    names: &Names,
    known: &mut BTreeMap<u32, Lin>,
    seen: &mut BTreeMap<u32, bool>,
    id: TermId,
) -> Result<Option<TermId>, Memory>
    requires there { id.0 < length terms.now.nodes }
    requires narrow { IsNarrowTerm (constant_in constants.now) (naming_in names.now.own.items names.now.auxiliary) terms.now.nodes id.0 }
    requires parts { (node : Node) → slice_get terms.now.nodes id.0 ≡ Some node →
        first_among (first_where (has_wide_sides (constant_in constants.now) (naming_in names.now.own.items names.now.auxiliary) terms.now.nodes) terms.now.nodes) (text_parts node) ≡ None }
    requires known { AreFound (constant_in constants.now) (naming_in names.now.own.items names.now.auxiliary) terms.now.nodes known.old }
    requires seen { AreClear (constant_in constants.now) (naming_in names.now.own.items names.now.auxiliary) terms.now.nodes seen.old }
    ensures told { IfOk result (λ found. numbered found ≡ first_where (has_wide_sides (constant_in constants.now)
        (naming_in names.now.own.items names.now.auxiliary) terms.now.nodes) terms.now.nodes id.0) }
    ensures known { OnOk result (AreFound (constant_in constants.now) (naming_in names.now.own.items names.now.auxiliary) terms.now.nodes known.new) }
    ensures seen { OnOk result (AreClear (constant_in constants.now) (naming_in names.now.own.items names.now.auxiliary) terms.now.nodes seen.new) }
{
    let node = terms.node(id);
    if is_wide_relation(alloc, terms, constants, names, known, node)? {
        return Ok(Some(id));
    }
    keep(seen, id)?;
    Ok(None)
}

/// The first comparison in the term's text, parts before the whole, that has a wide difference. No
/// linear form in the text is wide. What was seen is kept, so that a term that a name is bound to is
/// looked at once.
#[cycle(seek)]
pub(crate) fn seek(
    alloc: Global,
    terms: &Terms,
    constants: &ConstantTable,
    names: &Names,
    known: &mut BTreeMap<u32, Lin>,
    seen: &mut BTreeMap<u32, bool>,
    id: TermId,
) -> Result<Option<TermId>, Memory>
    requires there { id.0 < length terms.now.nodes }
    requires narrow { IsNarrowTerm (constant_in constants.now) (naming_in names.now.own.items names.now.auxiliary) terms.now.nodes id.0 }
    requires known { AreFound (constant_in constants.now) (naming_in names.now.own.items names.now.auxiliary) terms.now.nodes known.old }
    requires seen { AreClear (constant_in constants.now) (naming_in names.now.own.items names.now.auxiliary) terms.now.nodes seen.old }
    ensures told { IfOk result (λ found. numbered found ≡ first_where (has_wide_sides (constant_in constants.now)
        (naming_in names.now.own.items names.now.auxiliary) terms.now.nodes) terms.now.nodes id.0) }
    ensures known { OnOk result (AreFound (constant_in constants.now) (naming_in names.now.own.items names.now.auxiliary) terms.now.nodes known.new) }
    ensures seen { OnOk result (AreClear (constant_in constants.now) (naming_in names.now.own.items names.now.auxiliary) terms.now.nodes seen.new) }
{
    if is_seen(seen, id) {
        return Ok(None);
    }
    let node = terms.node(id);
    let parts = text_parts(alloc, node)?;
    match seek_all(
        alloc,
        terms,
        constants,
        names,
        known,
        seen,
        id,
        parts.as_slice(),
    )? {
        Some(found) => Ok(Some(found)),
        None => at_node(alloc, terms, constants, names, known, seen, id),
    }
}

/// The first comparison in the text of a part, parts before the whole, that has a wide difference. A
/// term without parts is no comparison, and isn't kept.
#[cycle(seek)]
fn seek_part(
    alloc: Global,
    terms: &Terms,
    constants: &ConstantTable,
    names: &Names,
    known: &mut BTreeMap<u32, Lin>,
    seen: &mut BTreeMap<u32, bool>,
    id: TermId,
) -> Result<Option<TermId>, Memory>
    requires there { id.0 < length terms.now.nodes }
    requires narrow { IsNarrowTerm (constant_in constants.now) (naming_in names.now.own.items names.now.auxiliary) terms.now.nodes id.0 }
    requires known { AreFound (constant_in constants.now) (naming_in names.now.own.items names.now.auxiliary) terms.now.nodes known.old }
    requires seen { AreClear (constant_in constants.now) (naming_in names.now.own.items names.now.auxiliary) terms.now.nodes seen.old }
    ensures told { IfOk result (λ found. numbered found ≡ first_where (has_wide_sides (constant_in constants.now)
        (naming_in names.now.own.items names.now.auxiliary) terms.now.nodes) terms.now.nodes id.0) }
    ensures known { OnOk result (AreFound (constant_in constants.now) (naming_in names.now.own.items names.now.auxiliary) terms.now.nodes known.new) }
    ensures seen { OnOk result (AreClear (constant_in constants.now) (naming_in names.now.own.items names.now.auxiliary) terms.now.nodes seen.new) }
{
    let node = terms.node(id);
    if is_leaf(node) {
        return Ok(None);
    }
    seek(alloc, terms, constants, names, known, seen, id)
}

/// The first comparison that has a wide difference in the text of some parts of the term of that
/// number, in order.
#[cycle(seek)]
fn seek_all(
    alloc: Global,
    terms: &Terms,
    constants: &ConstantTable,
    names: &Names,
    known: &mut BTreeMap<u32, Lin>,
    seen: &mut BTreeMap<u32, bool>,
    above: TermId,
    ids: &[TermId],
) -> Result<Option<TermId>, Memory>
    requires there { above.0 < length terms.now.nodes }
    requires below { IsTrue (list_all (is_below above.0) ids.now) }
    requires narrow { AreNarrowTerms (constant_in constants.now) (naming_in names.now.own.items names.now.auxiliary) terms.now.nodes ids.now }
    requires known { AreFound (constant_in constants.now) (naming_in names.now.own.items names.now.auxiliary) terms.now.nodes known.old }
    requires seen { AreClear (constant_in constants.now) (naming_in names.now.own.items names.now.auxiliary) terms.now.nodes seen.old }
    ensures told { IfOk result (λ found. numbered found ≡ first_among (first_where
        (has_wide_sides (constant_in constants.now) (naming_in names.now.own.items names.now.auxiliary) terms.now.nodes) terms.now.nodes) ids.now) }
    ensures known { OnOk result (AreFound (constant_in constants.now) (naming_in names.now.own.items names.now.auxiliary) terms.now.nodes known.new) }
    ensures seen { OnOk result (AreClear (constant_in constants.now) (naming_in names.now.own.items names.now.auxiliary) terms.now.nodes seen.new) }
{
    for id in ids {
        let found = seek_part(alloc, terms, constants, names, known, seen, *id)?;
        if found.is_some() {
            return Ok(found);
        }
    }
    Ok(None)
}
