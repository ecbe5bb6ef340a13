//! Where a Bool term is true and where it is false, both at once.

ghost use Rattle.std.specs.Prelude.{◌≡◌, ◌<◌, [], ◌∷◌, is_some, length, slice_get, Some, IfOk, IfSome, OnOk, true, false};
ghost use Rattle.term_tree.specs.declared.node.Node.TheVariants.{Op};
ghost use Rattle.linear_terms.specs.Text.{are_truths};
ghost use Rattle.linear_terms.specs.Width.{is_relation};
ghost use Rattle.term_tables.specs.machinery.Table.{constant_in, sort_in};
ghost use Rattle.term_forms.specs.Found.{AreFound};
ghost use Rattle.term_formulas.specs.Written.{HasRoom, formula_by, naming_by};
ghost use Rattle.term_formulas.specs.machinery.Parts.{relates_integers_there};

use crate::relations::Both;
use crate::sides::of_both_sides;
use crate::writing::{are_truths, formula};
use base::Memory;
use lin_atoms::Lin;
use std::alloc::Global;
use std::collections::BTreeMap;
use term_forms::Names;
use term_tables::{ConstantTable, SortTable};
use term_tree::{Node, OpKind, TermId, Terms};
use term_widths::is_relation;

/// A relation of two integer terms.
#[derive(Clone, Copy)]
struct Relation {
    op: OpKind,
    first: TermId,
    second: TermId,
}

/// The relation of two integer terms that the term is, where it is one.
fn relation_of(terms: &Terms, sorts: &SortTable, id: TermId) -> Option<Relation>
    requires { id.0 < length terms.now.nodes }
    ensures found { is_some result ≡ relates_integers_there (sort_in sorts.now) (slice_get terms.now.nodes id.0) }
    ensures node { IfSome result (λ r. slice_get terms.now.nodes id.0 ≡ Some (Op r.op (r.first ∷ r.second ∷ []))) }
    ensures numbers { IfSome result (λ r. are_truths (sort_in sorts.now) (r.first ∷ r.second ∷ []) ≡ false) }
    ensures relation { IfSome result (λ r. is_relation r.op ≡ true) }
{
    match terms.node(id) {
        Node::Op { op, args } => {
            let args = args.as_slice();
            match args {
                [first, second] if is_relation(*op) && !are_truths(sorts, args) => Some(Relation {
                    op: *op,
                    first: *first,
                    second: *second,
                }),
                _ => None,
            }
        }
        _ => None,
    }
}

/// The formulas of a Bool term: where it is true, and where it is false. The difference of two sides is
/// made once for both.
pub(crate) fn formulas(
    alloc: Global,
    terms: &Terms,
    sorts: &SortTable,
    constants: &ConstantTable,
    names: &Names,
    known: &mut BTreeMap<u32, Lin>,
    id: TermId,
) -> Result<Both, Memory>
    requires room { HasRoom (constant_in constants.now) (naming_by names.now) terms.now.nodes id.0 }
    requires known { AreFound (constant_in constants.now) (naming_by names.now) terms.now.nodes known.old }
    ensures holds { IfOk result (λ both. both.holds ≡ formula_by (constant_in constants.now) (sort_in sorts.now) (naming_by names.now) terms.now.nodes id.0 true) }
    ensures fails { IfOk result (λ both. both.fails ≡ formula_by (constant_in constants.now) (sort_in sorts.now) (naming_by names.now) terms.now.nodes id.0 false) }
    ensures known { OnOk result (AreFound (constant_in constants.now) (naming_by names.now) terms.now.nodes known.new) }
{
    terms.arena_law();
    if let Some(relation) = relation_of(terms, sorts, id) {
        let (op, first, second) = (relation.op, relation.first, relation.second);
        return of_both_sides(alloc, terms, constants, names, known, op, first, second);
    }
    let holds = formula(alloc, terms, sorts, constants, names, known, id, true)?;
    let fails = formula(alloc, terms, sorts, constants, names, known, id, false)?;
    Ok(Both { holds, fails })
}
