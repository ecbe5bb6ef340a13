//! The terms of definitions.

ghost use Rattle.std.specs.Prelude.{◌≡◌, ◌<◌, ◌++◌, length, OnOk, IsTrue};
ghost use Rattle.std.specs.List.{list_all};
ghost use Rattle.term_tree.specs.Arena.{is_below, has_parts_below};
ghost use Rattle.answer_text.specs.Names.{number_text, after_spaces};
ghost use Rattle.answer_text.specs.Terms.{operator_word, parameter_name, divisible_text, node_text, term_text};

use crate::pieces::{push_integer, push_numeral};
use base::Memory;
use term_tree::{Node, OpKind, TermId, Terms};

fn operator_word(op: OpKind) -> &'static [u8]
    ensures { result.now ≡ operator_word op }
{
    match op {
        OpKind::Not => b"not",
        OpKind::And => b"and",
        OpKind::Or => b"or",
        OpKind::Xor => b"xor",
        OpKind::Implies => b"=>",
        OpKind::Eq => b"=",
        OpKind::Distinct => b"distinct",
        OpKind::Ite => b"ite",
        OpKind::Add => b"+",
        OpKind::Mul => b"*",
        OpKind::Sub => b"-",
        OpKind::Abs => b"abs",
        OpKind::Div => b"div",
        OpKind::Mod => b"mod",
        OpKind::Le => b"<=",
        OpKind::Lt => b"<",
        OpKind::Ge => b">=",
        OpKind::Gt => b">",
    }
}

/// The name of the parameter of that number: `x0`, `x1` and so on.
pub fn push_parameter_name(out: &mut Vec<u8>, number: u64) -> Result<(), Memory>
    ensures { OnOk result (out.new.items ≡ out.old.items ++ parameter_name number) }
{
    out.extend_from_slice(b"x")?;
    push_numeral(out, number)?;
    Ok(())
}

/// The text of a term. The recursion is as deep as the term; terms of lemmas have a depth below 10.
#[cycle(term)]
pub fn push_term(out: &mut Vec<u8>, terms: &Terms, id: TermId) -> Result<(), Memory>
    requires { id.0 < length terms.now.nodes }
    ensures { OnOk result (out.new.items ≡ out.old.items ++ term_text terms.now.nodes id.0) }
{
    let node = terms.node(id);
    push_node(out, terms, id, node)?;
    Ok(())
}

/// The text of a node, which has this number.
#[cycle(term)]
fn push_node(out: &mut Vec<u8>, terms: &Terms, id: TermId, node: &Node) -> Result<(), Memory>
    requires within { id.0 < length terms.now.nodes }
    requires below { IsTrue (has_parts_below id.0 node.now) }
    ensures { OnOk result (out.new.items ≡ out.old.items ++ node_text (term_text terms.now.nodes) node.now) }
{
    match node {
        Node::Num(number) => push_number(out, *number)?,
        Node::True => out.extend_from_slice(b"true")?,
        Node::False => out.extend_from_slice(b"false")?,
        Node::Var { binder, .. } => push_parameter_name(out, u64::from(*binder))?,
        Node::Op { op, args } => {
            out.extend_from_slice(b"(")?;
            out.extend_from_slice(operator_word(*op))?;
            push_arguments(out, terms, id, args.as_slice())?;
            out.extend_from_slice(b")")?;
        }
        Node::Divisible { by, arg } => {
            push_divisible(out, *by)?;
            push_term(out, terms, *arg)?;
            out.extend_from_slice(b")")?;
        }
        Node::LetVar { .. } => {}
        Node::Pred { .. } => {}
        Node::Let { .. } => {}
        Node::Forall { .. } => {}
        Node::Exists { .. } => {}
    }
    Ok(())
}

fn push_number(out: &mut Vec<u8>, number: i64) -> Result<(), Memory>
    ensures { OnOk result (out.new.items ≡ out.old.items ++ number_text number) }
{
    push_integer(out, i128::from(number))?;
    Ok(())
}

fn push_divisible(out: &mut Vec<u8>, by: i64) -> Result<(), Memory>
    ensures { OnOk result (out.new.items ≡ out.old.items ++ divisible_text by) }
{
    out.extend_from_slice(b"((_ divisible ")?;
    push_number(out, by)?;
    out.extend_from_slice(b") ")?;
    Ok(())
}

/// Each argument of a term after a space.
#[cycle(term)]
fn push_arguments(
    out: &mut Vec<u8>,
    terms: &Terms,
    above: TermId,
    args: &[TermId],
) -> Result<(), Memory>
    requires within { above.0 < length terms.now.nodes }
    requires below { IsTrue (list_all (is_below above.0) args.now) }
    ensures { OnOk result (out.new.items ≡ out.old.items ++ after_spaces (λ arg. term_text terms.now.nodes arg.0) args.now) }
{
    for arg in args {
        out.extend_from_slice(b" ")?;
        push_term(out, terms, *arg)?;
    }
    Ok(())
}
