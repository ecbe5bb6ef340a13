//! The nodes below one that is split.

ghost use Rattle.std.specs.Prelude.{◌≡◌, ◌+◌, ◌+ℤ◌, ◌++◌, ◌∷◌, [], ◌<◌, drop, length, map, neg_ℤ, pos, reverse, slice_index_or, take, IfOk, OnOk};
ghost use Rattle.std.specs.List.{flat_map};
ghost use Rattle.refutation_trees.specs.Flatten.{disjunctions, literals};
ghost use Rattle.refutation_trees.specs.Split.{at_least, at_most};
ghost use Rattle.lia_stack.specs.machinery.Opened.{opened_part, with_lit, with_lits};

use crate::flat::{falsehood, push_disjunctions};
use crate::lent::Lent;
use crate::waiting::Open;
use base::{Copied, Items, Memory};
use lia_node::{above, at_most};
use lin_atoms::{Form, Lin, Lit};
use std::alloc::Global;

/// Disjunctions after others.
fn push_all<'a>(
    alloc: Global,
    made: &mut Vec<Lent<'a, Items<Form>>>,
    cases: &[Lent<'a, Items<Form>>],
) -> Result<(), Memory>
    ensures { OnOk result (made.new.items ≡ made.old.items ++ cases.now) }
{
    for parts in cases {
        made.push(parts.copy(alloc)?)?;
    }
    Ok(())
}

/// The disjunctions with those of a part in place of one of them.
fn replaced<'a>(
    alloc: Global,
    cases: &[Lent<'a, Items<Form>>],
    which: usize,
    part: &'a Form,
) -> Result<Items<Lent<'a, Items<Form>>>, Memory>
    requires { which < length cases.now }
    ensures { IfOk result (λ made. made ≡ take which cases.now ++ (disjunctions part.now ++ drop (which + 1) cases.now)) }
{
    let mut made = Vec::new(alloc);
    push_all(alloc, &mut made, &cases[..which])?;
    push_disjunctions(part, &mut made)?;
    push_all(alloc, &mut made, &cases[which + 1..])?;
    Ok(Items::from_vec(made))
}

/// The literals of a form become known and join as the last, in order.
#[cycle(joining)]
fn add_literals(alloc: Global, waiting: &mut Open, form: &Form) -> Result<(), Memory>
    ensures { OnOk result (waiting.new ≡ with_lits waiting.old (literals form.now)) }
{
    match form {
        Form::True => Ok(()),
        Form::False => waiting.add(falsehood(alloc)),
        Form::Lit(lit) => waiting.add(lit.copy(alloc)?),
        Form::And(parts) => add_all_literals(alloc, waiting, parts.as_slice()),
        Form::Or(_) => Ok(()),
    }
}

#[cycle(joining)]
fn add_all_literals(alloc: Global, waiting: &mut Open, parts: &[Form]) -> Result<(), Memory>
    ensures { OnOk result (waiting.new ≡ with_lits waiting.old (flat_map literals parts.now)) }
{
    for part in parts {
        add_literals(alloc, waiting, part)?;
    }
    Ok(())
}

/// The node below for a part of an open disjunction.
fn in_part<'a>(
    alloc: Global,
    waiting: &Open<'a>,
    which: usize,
    part: &'a Form,
) -> Result<Open<'a>, Memory>
    requires { which < length waiting.now.cases }
    ensures { IfOk result (λ below. below ≡ opened_part which waiting.now part.now) }
{
    let cases = replaced(alloc, waiting.cases.as_slice(), which, part)?;
    let mut below = waiting.with_cases(alloc, cases)?;
    add_literals(alloc, &mut below, part)?;
    Ok(below)
}

/// The nodes below for the parts of an open disjunction: the first on top.
pub(crate) fn push_parts<'a>(
    alloc: Global,
    stack: &mut Vec<Open<'a>>,
    waiting: &Open<'a>,
    which: usize,
) -> Result<usize, Memory>
    requires { which < length waiting.now.cases }
    ensures stack { OnOk result (reverse stack.new.items ≡ map (opened_part which waiting.now) (slice_index_or waiting.now.cases which []) ++ reverse stack.old.items) }
    ensures count { IfOk result (λ count. count ≡ length (slice_index_or waiting.now.cases which [])) }
{
    let parts = waiting.cases.as_slice()[which].get().as_slice();
    let mut left = parts.len();
    'parts: while left > 0 {
        left -= 1;
        let below = in_part(alloc, waiting, which, &parts[left])?;
        stack.push(below)?;
    }
    Ok(parts.len())
}

/// The form that is at most 0 where the variable or quotient is at most the number.
pub(crate) fn side(alloc: Global, variable: u32, floor: i64) -> Result<Lin, Memory>
    ensures { IfOk result (λ lin. lin ≡ record { terms = (variable, pos 1) ∷ []; constant = neg_ℤ floor }) }
{
    let lit = at_most(alloc, variable, floor)?;
    Ok(lit.into_linear())
}

/// The node below that has one literal more.
fn push_with<'a>(stack: &mut Vec<Open<'a>>, waiting: Open<'a>, lit: Lit) -> Result<(), Memory>
    ensures { OnOk result (stack.new.items ≡ stack.old.items ++ with_lit waiting.entry lit ∷ []) }
{
    let mut below = waiting;
    below.add(lit)?;
    stack.push(below)?;
    Ok(())
}

/// The node below where the variable or quotient is at most the number.
fn push_low<'a>(
    alloc: Global,
    stack: &mut Vec<Open<'a>>,
    waiting: Open<'a>,
    variable: u32,
    floor: i64,
) -> Result<(), Memory>
    ensures { OnOk result (stack.new.items ≡ stack.old.items ++ with_lit waiting.entry (at_most variable floor) ∷ []) }
{
    let lit = at_most(alloc, variable, floor)?;
    push_with(stack, waiting, lit)?;
    Ok(())
}

/// The node below where it is greater.
fn push_high<'a>(
    alloc: Global,
    stack: &mut Vec<Open<'a>>,
    waiting: Open<'a>,
    variable: u32,
    floor: i64,
) -> Result<(), Memory>
    ensures { OnOk result (stack.new.items ≡ stack.old.items ++ with_lit waiting.entry (at_least variable (floor +ℤ pos 1)) ∷ []) }
{
    let lit = above(alloc, variable, floor)?;
    push_with(stack, waiting, lit)?;
    Ok(())
}

/// The nodes below for the two sides of a branch: that at most the floor on top.
pub(crate) fn push_sides<'a>(
    alloc: Global,
    stack: &mut Vec<Open<'a>>,
    waiting: Open<'a>,
    variable: u32,
    floor: i64,
) -> Result<(), Memory>
    ensures { OnOk result (reverse stack.new.items ≡ with_lit waiting.entry (at_most variable floor) ∷ with_lit waiting.entry (at_least variable (floor +ℤ pos 1)) ∷ reverse stack.old.items) }
{
    let low = waiting.copy(alloc)?;
    push_high(alloc, stack, waiting, variable, floor)?;
    push_low(alloc, stack, low, variable, floor)?;
    Ok(())
}
