//! Which terms have an auxiliary variable where they stand.

ghost use Rattle.std.specs.Prelude.{◌≡◌, List, Some};
ghost use Rattle.term_tree.specs.declared.node.TermId.{TermId};
ghost use Rattle.term_tree.specs.declared.node.Node.TheVariants.{Op};
ghost use Rattle.term_tree.specs.declared.sort.Sort.TheVariants.{Bool as Truth};
ghost use Rattle.term_tree.specs.declared.sort.Sort.TheVariants.{Int as IntSort};
ghost use Rattle.term_tree.specs.Sorts.{has_sort};
ghost use Rattle.linear_terms.specs.Text.{is_ready, is_unit, is_variable, is_wanted, needs_one};

use linear_terms::Standing;
use term_tree::{Node, OpKind, Sort};

fn is_integer(sort: Option<Sort>) -> bool
    ensures { result ≡ has_sort IntSort sort }
{
    match sort {
        Some(Sort::Int) => true,
        _ => false,
    }
}

fn is_bool(sort: Option<Sort>) -> bool
    ensures { result ≡ has_sort Truth sort }
{
    match sort {
        Some(Sort::Bool) => true,
        _ => false,
    }
}

fn is_unit(sort: Option<Sort>, node: &Node) -> bool
    ensures { result ≡ is_unit sort node.now }
{
    match node {
        Node::Op { op, .. } => is_unit_operation(sort, *op),
        _ => false,
    }
}

fn is_unit_operation(sort: Option<Sort>, op: OpKind) -> bool
    ensures { (args : List TermId) → result ≡ is_unit sort (Op op args) }
{
    match op {
        OpKind::Ite => is_integer(sort),
        OpKind::Abs => true,
        OpKind::Div => true,
        OpKind::Mod => true,
        _ => false,
    }
}

fn is_ready(node: &Node) -> bool
    ensures { result ≡ is_ready node.now }
{
    matches!(node, Node::Var { .. } | Node::True | Node::False)
}

fn is_variable(node: &Node) -> bool
    ensures { result ≡ is_variable node.now }
{
    matches!(node, Node::Var { .. })
}

fn is_wanted(standing: Standing, sort: Option<Sort>, node: &Node) -> bool
    ensures { result ≡ is_wanted standing sort node.now }
{
    match standing {
        Standing::Plain => false,
        Standing::Bit => { if is_ready(node) { false } else { is_bool(sort) } }
        Standing::Argument => !is_variable(node),
    }
}

/// Whether the term has an auxiliary variable where it stands so.
pub(crate) fn needs_one(standing: Standing, sort: Option<Sort>, node: &Node) -> bool
    ensures { result ≡ needs_one standing sort (Some node.now) }
{
    is_unit(sort, node) || is_wanted(standing, sort, node)
}
