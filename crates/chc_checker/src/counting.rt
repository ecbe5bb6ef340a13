//! That operations have no more arguments than a list can hold, for proofs that need it.

ghost use Rattle.std.specs.Prelude.{◌≡◌, ◌<◌, ◌^◌, List, length};
ghost use Rattle.term_tree.specs.declared.definition.Definition.{Definition};
ghost use Rattle.term_tree.specs.declared.node.TermId.{TermId};
ghost use Rattle.term_tree.specs.declared.node.OpKind.{OpKind};
ghost use Rattle.term_tree.specs.declared.node.Node.TheVariants.{Op};
ghost use Rattle.clause_normal.specs.machinery.Making.{HasFewArguments};
ghost use Rattle.chc_checker.specs.machinery.Judging.{HaveFewArguments};

use clause_normal::has_number;
use term_tree::{Definition, Node, Script, TermId, Terms};

/// Of one node.
fn count_own(node: &Node)
    ensures { (op : OpKind) (args : List TermId) → node.now ≡ Op op args → length args < 2 ^ 63 }
{
    if let Node::Op { args, .. } = node {
        let _count = args.as_slice().len();
    }
}

/// Of all terms.
fn count_arguments(terms: &Terms)
    ensures { HasFewArguments terms.now.nodes }
{
    for i in 0..terms.len() {
        let Ok(number) = u32::try_from(i) else {
            return;
        };
        count_own(terms.node(TermId(number)));
    }
}

/// Of a definition, whose term has a number of 32 bits.
fn count_definition(definition: &Definition)
    ensures terms { HasFewArguments definition.now.terms.nodes }
    ensures number { definition.now.body.0 < 2 ^ 32 }
{
    has_number(definition.body);
    count_arguments(&definition.terms);
}

/// Of the terms of a script and of definitions.
pub(crate) fn count_all(script: &Script, definitions: &[Definition])
    ensures { HaveFewArguments script.now definitions.now }
{
    count_arguments(&script.terms);
    for definition in definitions {
        count_definition(definition);
    }
}
