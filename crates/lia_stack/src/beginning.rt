//! A search before its first node is examined.

ghost use Rattle.std.specs.Prelude.{◌≡◌, ◌++◌, ◌∷◌, [], ◌<◌, ◌^◌, drop, IfOk, OnOk, pos, true};
ghost use Rattle.lin_atoms.specs.Linear.{of_constant};
ghost use Rattle.lin_atoms.specs.declared.lit.Lit.TheVariants.{Le};
ghost use Rattle.refutation_trees.specs.Refutation.{form_end};
ghost use Rattle.lia_stack.specs.Short.{has_short_multiples};
ghost use Rattle.lia_stack.specs.machinery.Opened.{first_open, left_from};
ghost use Rattle.lia_stack.specs.machinery.Searched.{IsSearch};

use crate::flat::{lent_disjunctions, lent_literals};
use crate::lent::Lent;
use crate::state::Search;
use crate::waiting::{LeftOut, Open};
use base::{Copied, Items, Memory};
use lia_close::numbered;
use lin_atoms::{Form, Lit};
use refutation_trees::form_end;
use std::alloc::Global;

/// The literals of the flattened form from one on, with their numbers, which are left out.
fn left_out<'a>(
    alloc: Global,
    lits: &[Lent<'a, Lit>],
    from: usize,
) -> Result<Items<LeftOut<'a>>, Memory>
    ensures { IfOk result (λ made. made ≡ left_from from (drop from lits.now)) }
{
    let count = lits.len().saturating_sub(from);
    let mut made = Items::from_vec(Vec::with_capacity(alloc, count)?);
    let mut at = from;
    'left: while at < lits.len() {
        made.push(LeftOut {
            lit: lits[at].copy(alloc)?,
            number: numbered(at)?,
        })?;
        at += 1;
    }
    Ok(made)
}

/// A literal of the flattened form joins as the last, by its number.
fn join(
    alloc: Global,
    lits: &mut Items<Lit>,
    numbers: &mut Items<u32>,
    lit: &Lit,
    at: usize,
) -> Result<(), Memory>
    ensures lits { OnOk result (lits.new ≡ lits.old ++ lit.now ∷ []) }
    ensures numbers { OnOk result (numbers.new ≡ numbers.old ++ at ∷ []) }
{
    lits.push(lit.copy(alloc)?)?;
    numbers.push(numbered(at)?)?;
    Ok(())
}

/// The first node: the first `taken` literals of the flattened form have joined.
fn first<'a>(
    alloc: Global,
    lent: &[Lent<'a, Lit>],
    cases: Items<Lent<'a, Items<Form>>>,
    taken: usize,
) -> Result<Open<'a>, Memory>
    ensures { IfOk result (λ waiting. waiting ≡ first_open taken lent.now cases.entry) }
{
    let count = taken.min(lent.len());
    let mut lits = Items::from_vec(Vec::with_capacity(alloc, count)?);
    let mut numbers = Items::from_vec(Vec::with_capacity(alloc, count)?);
    let mut at = 0;
    'taken: while at < taken && at < lent.len() {
        join(alloc, &mut lits, &mut numbers, lent[at].get(), at)?;
        at += 1;
    }
    let left_out = left_out(alloc, lent, at)?;
    Ok(Open {
        lits,
        numbers,
        reasons: Items::new(alloc),
        known: lent.len(),
        left_out,
        cases,
    })
}

/// One more than the greatest variable of the formula, where it is known to be small.
fn small_end(form: &Form) -> u32
    requires { form_end form.now < 2 ^ 31 }
    ensures { result ≡ form_end form.now }
{
    form_end(form) as u32
}

/// Where a search begins. `False` in the form is lent by `falsehood`.
pub fn begun<'a>(
    alloc: Global,
    form: &'a Form,
    falsehood: &'a Lit,
    taken: usize,
    nodes: u32,
) -> Result<Search<'a>, Memory>
    requires falsehood { falsehood.now ≡ Le (of_constant (pos 1)) }
    requires short { has_short_multiples form.now ≡ true }
    requires few { form_end form.now < 2 ^ 31 }
    ensures is { IfOk result (λ search. IsSearch search) }
    ensures none { IfOk result (λ search. search.count ≡ 0) }
    ensures form { IfOk result (λ search. search.form.now ≡ form.now) }
    ensures nodes { IfOk result (λ search. search.nodes ≡ nodes) }
{
    let end = small_end(form);
    let lits = lent_literals(alloc, form, falsehood)?;
    let cases = lent_disjunctions(alloc, form)?;
    let waiting = first(alloc, lits.as_slice(), cases, taken)?;
    let mut stack = Vec::new(alloc);
    stack.push(waiting)?;
    let steps = Vec::new(alloc);
    Ok(Search {
        form,
        end,
        nodes,
        count: 0,
        is_first: true,
        stack,
        steps,
        kept: None,
    })
}
