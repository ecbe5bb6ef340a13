//! Whether a node is a comparison with a wide difference.

ghost use Rattle.std.specs.Prelude.{◌≡◌, length, Some, IfOk, OnOk, IsTrue};
ghost use Rattle.term_tree.specs.Arena.{has_parts_below};
ghost use Rattle.linear_terms.specs.Width.{is_relation, is_wide_relation, text_parts};
ghost use Rattle.term_tables.specs.machinery.Table.{constant_in};
ghost use Rattle.term_forms.specs.Found.{AreFound, form_by, naming_in};
ghost use Rattle.term_widths.specs.machinery.Seen.{AreNarrowTerms};

use crate::narrow::narrow_forms;
use crate::sides::has_wide_difference;
use base::Memory;
use lin_atoms::Lin;
use std::alloc::Global;
use std::collections::BTreeMap;
use term_forms::Names;
use term_tables::ConstantTable;
use term_tree::{Node, OpKind, Terms};

/// Whether the operator compares its sides.
pub fn is_relation(op: OpKind) -> bool
    ensures { result ≡ is_relation op }
{
    match op {
        OpKind::Eq | OpKind::Distinct => true,
        OpKind::Le | OpKind::Lt | OpKind::Ge | OpKind::Gt => true,
        _ => false,
    }
}

/// Whether the node is a comparison of which a difference of sides is wide.
pub(crate) fn is_wide_relation(
    alloc: Global,
    terms: &Terms,
    constants: &ConstantTable,
    names: &Names,
    known: &mut BTreeMap<u32, Lin>,
    node: &Node,
) -> Result<bool, Memory>
    requires there { IsTrue (has_parts_below (length terms.now.nodes) node.now) }
    requires narrow { AreNarrowTerms (constant_in constants.now) (naming_in names.now.own.items names.now.auxiliary) terms.now.nodes (text_parts node.now) }
    requires known { AreFound (constant_in constants.now) (naming_in names.now.own.items names.now.auxiliary) terms.now.nodes known.old }
    ensures told { IfOk result (λ wide. wide ≡ is_wide_relation (form_by (constant_in constants.now) (naming_in names.now.own.items names.now.auxiliary) terms.now.nodes) (Some node.now)) }
    ensures known { OnOk result (AreFound (constant_in constants.now) (naming_in names.now.own.items names.now.auxiliary) terms.now.nodes known.new) }
{
    let Node::Op { op, args } = node else {
        return Ok(false);
    };
    if !is_relation(*op) {
        return Ok(false);
    }
    let forms = narrow_forms(alloc, terms, constants, names, known, args.as_slice())?;
    has_wide_difference(alloc, *op, forms.as_slice())
}
