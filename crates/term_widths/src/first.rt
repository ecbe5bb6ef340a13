ghost use Rattle.std.specs.Prelude.{◌≡◌, ◌<◌, length, None, IfOk};
ghost use Rattle.term_tables.specs.machinery.Table.{constant_in};
ghost use Rattle.term_forms.specs.Found.{AreFound, naming_in};
ghost use Rattle.term_widths.specs.Wide.{first_wide_by, numbered};

use crate::seek::seek;
use base::Memory;
use lin_atoms::Lin;
use std::alloc::Global;
use std::collections::BTreeMap;
use term_forms::{FormStop, Names, linear_form};
use term_tables::ConstantTable;
use term_tree::{TermId, Terms};

/// The first term of the text without room: an integer term whose linear form has a coefficient or
/// constant of 2^63 or more in magnitude, its parts before itself, and else a comparison of which a
/// difference of two sides has one. The forms that are found are kept for what is made of them.
pub fn first_wide(
    alloc: Global,
    terms: &Terms,
    constants: &ConstantTable,
    names: &Names,
    known: &mut BTreeMap<u32, Lin>,
    top: TermId,
) -> Result<Option<TermId>, Memory>
    requires there { top.0 < length terms.now.nodes }
    requires known { AreFound (constant_in constants.now) (naming_in names.now.own.items names.now.auxiliary) terms.now.nodes known.old }
    ensures told { IfOk result (λ found. numbered found ≡ first_wide_by (constant_in constants.now) (naming_in names.now.own.items names.now.auxiliary) terms.now.nodes top.0) }
    ensures known { IfOk result (λ found. numbered found ≡ None → AreFound (constant_in constants.now) (naming_in names.now.own.items names.now.auxiliary) terms.now.nodes known.new) }
{
    match linear_form(alloc, terms, constants, names, known, top) {
        Err(FormStop::Memory) => Err(Memory),
        Err(FormStop::Wide { term }) => Ok(Some(term)),
        Ok(_) => {
            let mut seen = BTreeMap::new(alloc);
            seek(alloc, terms, constants, names, known, &mut seen, top)
        }
    }
}
