//! Terms that are leaves.

ghost use Rattle.std.specs.Prelude.{◌≡◌, length, pos};
ghost use Rattle.sexp_read.specs.declared.tree.Tree.TheVariants.{Leaf};
ghost use Rattle.term_check.specs.Spelling.{numeral_if_short, numeral_atom, bare_predicate, free_symbol, bound_symbol, symbol_atom, leaf_atom, atom_part};

use crate::atom::Atom;
use crate::bytes::are_same;
use crate::context::Context;
use crate::names::sorts_of;
use crate::part::{Fault, Part};
use crate::rules::fault;
use crate::scope::Bound;
use crate::signature::Signature;
use crate::values::if_short;
use crate::words::is_reserved;
use sexp_read::{LeafKind, Tree, numeral_value, symbol_bytes};
use term_tree::{Kind, Pred, Sort};

fn bare_predicate(preds: &[Pred], start: u32, number: Option<u32>) -> Result<Atom, Fault>
    ensures { result ≡ bare_predicate preds.now start number }
{
    match number {
        Some(number) => {
            if sorts_of(preds, number).len() == 0 {
                Ok(Atom::Predicate(number))
            } else {
                Err(fault(Kind::Arity, start))
            }
        }
        None => Err(fault(Kind::UnknownSymbol, start)),
    }
}

fn free_symbol(signature: &Signature, start: u32, name: &[u8]) -> Result<Atom, Fault>
    ensures { result ≡ free_symbol signature.now start name.now }
{
    if are_same(name, b"true") {
        Ok(Atom::Truth(true))
    } else if are_same(name, b"false") {
        Ok(Atom::Truth(false))
    } else {
        bare_predicate(signature.preds(), start, signature.number_of(name))
    }
}

fn symbol_atom<'a>(context: &Context<'a>, start: u32, name: &[u8]) -> Result<Atom, Fault>
    ensures { result ≡ symbol_atom context.now.scope.preds context.now.scope.names start name.now }
{
    match context.bound_to(name) {
        Some(Bound::Variable { number, sort }) => Ok(Atom::BoundVariable { number, sort }),
        Some(
            Bound::Let {
                number,
                sort,
                constant,
            },
        ) => Ok(Atom::LetName {
            number,
            sort,
            constant,
        }),
        None => free_symbol(context.signature(), start, name),
    }
}

fn numeral_if_short(number: Option<u64>) -> Option<i64>
    ensures { result ≡ numeral_if_short number }
{
    match number {
        Some(number) => if_short(i128::from(number)),
        None => None,
    }
}

fn numeral_atom(start: u32, value: Option<i64>) -> Result<Atom, Fault>
    ensures { result ≡ numeral_atom start value }
{
    match value {
        Some(value) => Ok(Atom::Number(value)),
        None => Err(fault(Kind::TooWide, start)),
    }
}

/// What a leaf of this kind stands for as a term, or the rule that it breaks.
pub fn leaf_atom<'a>(
    context: &Context<'a>,
    kind: LeafKind,
    start: u32,
    end: u32,
) -> Result<Atom, Fault>
    ensures { result ≡ leaf_atom context.now.text context.now.scope.preds context.now.scope.names kind start end }
{
    let text = context.text();
    let leaf = Tree::Leaf { kind, start, end };
    match symbol_bytes(text, &leaf) {
        Some(name) => match kind {
            LeafKind::Symbol if is_reserved(name) => Err(fault(Kind::UnknownSymbol, start)),
            _ => symbol_atom(context, start, name),
        },
        None => match kind {
            LeafKind::Numeral => numeral_atom(start, numeral_if_short(numeral_value(text, &leaf))),
            _ => Err(fault(Kind::CommandForm, start)),
        },
    }
}

/// What the atom is to the term around it.
pub fn atom_part(start: u32, atom: Atom) -> Part
    ensures { result ≡ atom_part start atom }
{
    let (sort, constant) = match atom {
        Atom::Number(value) => (Sort::Int, Some(value)),
        Atom::Truth(_) => (Sort::Bool, None),
        Atom::BoundVariable { number: _, sort } => (sort, None),
        Atom::LetName {
            number: _,
            sort,
            constant,
        } => (sort, constant),
        Atom::Predicate(_) => (Sort::Bool, None),
    };
    Part {
        start,
        sort,
        constant,
    }
}
