ghost use Rattle.std.specs.Prelude.{◌<◌, ℕ, ℤ, List, Option, length, OnOk};
ghost use Rattle.term_tree.specs.declared.node.Node.{Node};
ghost use Rattle.linear_terms.specs.Linear.{Naming};
ghost use Rattle.term_tables.specs.machinery.Table.{constant_in};
ghost use Rattle.term_forms.specs.Found.{AreFound, Tells, form_or_wide, naming_in};

use crate::names::Names;
use crate::reading::read_part;
use crate::stop::FormStop;
use lin_atoms::Lin;
use std::alloc::Global;
use std::collections::BTreeMap;
use term_tables::ConstantTable;
use term_tree::{TermId, Terms};

/// The linear form of the term, or the first of its subterms, parts before the whole, whose form is
/// wide. What was read is kept, so that a term that a name is bound to is read once. Begin with
/// nothing kept, and hand on what is kept for the terms of one text.
pub fn linear_form(
    alloc: Global,
    terms: &Terms,
    constants: &ConstantTable,
    names: &Names,
    known: &mut BTreeMap<u32, Lin>,
    id: TermId,
) -> Result<Lin, FormStop>
    requires there { id.0 < length terms.now.nodes }
    requires known { AreFound (constant_in constants.now) (naming_in names.now.own.items names.now.auxiliary) terms.now.nodes known.old }
    ensures told { Tells (form_or_wide (constant_in constants.now) (naming_in names.now.own.items names.now.auxiliary) terms.now.nodes id.0) result }
    ensures known { OnOk result (AreFound (constant_in constants.now) (naming_in names.now.own.items names.now.auxiliary) terms.now.nodes known.new) }
{
    terms.arena_law();
    read_part(alloc, terms, constants, names, known, id)
}

/// Where no term was read yet.
pub fn nothing_read(alloc: Global) -> BTreeMap<u32, Lin>
    ensures { (constant : ℕ → Option ℤ) (naming : Naming) (nodes : List Node) → AreFound constant naming nodes result }
{
    BTreeMap::new(alloc)
}
