//! The terms of a text, and the formulas over parameters.

ghost use Rattle.std.specs.Prelude.{◌≡◌, ℕ, ◌+◌, ◌<◌, ◌^◌, length, IfOk, IsErrOf, Result, Ok, Err, true, []};
ghost use Rattle.term_tree.specs.Arena.{Arena};
ghost use Rattle.term_check.specs.declared.part.Fault.{Fault as AFault};
ghost use Rattle.term_check.specs.Term.{Term, IsTermAt};
ghost use Rattle.term_check.specs.Spelling.{Spelled, spelled, scope_of};
ghost use Rattle.term_check.specs.Weight.{weight};
ghost use Rattle.term_check.specs.Found.{IsFound, IsAligned, Keeps};
ghost use Rattle.term_check.specs.machinery.Reading.{Tells};
ghost use Rattle.term_check.specs.Formula.{bool_term, spelled_formula};
ghost use Rattle.term_check.specs.machinery.TellsFormula.{TellsFormula};

use crate::bindings::Bindings;
use crate::context::Context;
use crate::found::Found;
use crate::reading::read_term;
use crate::rules::same_sort;
use crate::signature::Signature;
use crate::stop::TermStop;
use base::Memory;
use keyed_hash::KeyedState;
use sexp_read::Tree;
use std::alloc::Global;
use term_tree::{Name, Sort, TermId, Terms};
use thiserror::Error;

/// Reads a tree as a term over the declared predicates, without names bound around it, and puts it
/// into the arena. A refusal leaves the terms that were there where they are.
pub fn check_term(
    alloc: Global,
    text: &[u8],
    signature: &Signature,
    tree: &Tree,
    terms: &mut Terms,
) -> Result<Found, TermStop>
    requires aligned { IsAligned terms.old }
    requires weight { weight tree.now < 2 ^ 32 }
    ensures found { IfOk result (λ found. IsFound (spelled text.now (scope_of signature.now [] true) 0 tree.now) terms.new found.id found.part found.next) }
    ensures fault { (fault : AFault) → IsErrOf result (TermStop.Fault fault) → spelled text.now (scope_of signature.now [] true) 0 tree.now ≡ Err fault }
    ensures keeps { Keeps terms.old terms.new }
{
    let bindings = Bindings::new(alloc, signature.key());
    let mut context = Context::new(alloc, text, signature, bindings, true);
    read_term(&mut context, 0, tree, terms)
}

/// Why a tree gave no formula.
#[derive(Debug, Drop, Error)]
pub enum FormulaStop {
    #[error("out of memory")]
    Memory,
    /// Here is the first fault.
    #[error("no formula at byte {offset}")]
    Bad { offset: u64 },
}

impl From<Memory> for FormulaStop {
    ghost use Rattle.std.specs.Prelude.{◌≡◌};
    ghost use Rattle.term_check.specs.declared.check.FormulaStop.TheVariants.{Memory as OutOfMemory};

    ghost from_gives = { λ _ e. e ≡ OutOfMemory };

    fn from(_: Memory) -> FormulaStop {
        FormulaStop::Memory
    }
}

/// Whether the answer about a tree is a formula.
fn bool_term(read: Result<Found, TermStop>) -> Result<TermId, FormulaStop>
    ensures { (arena : Arena) (outcome : Result Spelled AFault) → Tells [] outcome arena read → TellsFormula (bool_term outcome) arena result }
{
    match read {
        Ok(found) => {
            if same_sort(found.part.sort, Sort::Bool) {
                Ok(found.id)
            } else {
                let offset = u64::from(found.part.start);
                Err(FormulaStop::Bad { offset })
            }
        }
        Err(TermStop::Memory) => Err(FormulaStop::Memory),
        Err(TermStop::Fault(fault)) => {
            let offset = u64::from(fault.offset);
            Err(FormulaStop::Bad { offset })
        }
    }
}

/// Reads a tree as a formula, a Bool term without predicates and quantifiers, over parameters, which
/// are its variables by number. A predicate is an unknown symbol at its name, and a quantifier is
/// refused at its own start. Names are hashed under the key.
pub fn check_formula(
    alloc: Global,
    key: KeyedState,
    text: &[u8],
    tree: &Tree,
    params: &[(Name, Sort)],
) -> Result<(Terms, TermId), FormulaStop>
    requires weight { length params.now + weight tree.now < 2 ^ 32 }
    ensures formula { IfOk result (λ made. (term : Term) × (spelled_formula text.now params.now tree.now ≡ Ok term) × IsTermAt made.0 [] term made.1.0) }
    ensures bad { (offset : ℕ) → IsErrOf result (FormulaStop.Bad offset) → spelled_formula text.now params.now tree.now ≡ Err offset }
{
    let signature = Signature::new(alloc, key);
    let mut bindings = Bindings::new(alloc, key);
    bindings.bind_params(0, params)?;
    let mut context = Context::new(alloc, text, &signature, bindings, false);
    let mut terms = Terms::new(alloc);
    let read = read_term(&mut context, params.len() as u32, tree, &mut terms);
    match bool_term(read) {
        Ok(id) => Ok((terms, id)),
        Err(stop) => Err(stop),
    }
}
