//! What names stand for.

ghost use Rattle.std.specs.Prelude.{◌≡◌, codes, zero};
ghost use Rattle.term_check.specs.Spelling.{sorts_of, symbol_head, name_head};

use crate::bytes::are_same;
use crate::head::Head;
use crate::operators::operator_named;
use crate::part::Fault;
use crate::signature::Signature;
use term_tree::{Kind, Pred, Sort};

/// The sorts of the arguments of the predicate of that number.
pub fn sorts_of(preds: &[Pred], number: u32) -> &[Sort]
    ensures { result.now ≡ sorts_of preds.now number }
{
    match preds.get(number as usize) {
        Some(pred) => pred.args.as_slice(),
        None => &[],
    }
}

fn name_head(signature: &Signature, start: u32, name: &[u8]) -> Result<Head, Fault>
    ensures { result ≡ name_head signature.now start name.now }
{
    if are_same(name, b"true") || are_same(name, b"false") {
        return Ok(Head::Constant);
    }
    match signature.number_of(name) {
        Some(number) => Ok(Head::Declared(number)),
        None => Err(Fault {
            kind: Kind::UnknownSymbol,
            offset: start,
        }),
    }
}

/// The operator, predicate or constant that a head names.
pub fn symbol_head(signature: &Signature, start: u32, name: &[u8]) -> Result<Head, Fault>
    ensures { result ≡ symbol_head signature.now start name.now }
{
    match operator_named(name) {
        Some(op) => Ok(Head::Operator(op)),
        None => name_head(signature, start, name),
    }
}
