//! The recursion over trees: which term a tree spells, put into an arena, or its first fault. It goes
//! as deep as the tree.

ghost use Rattle.std.specs.Prelude.{◌≡◌, ◌+◌, ◌^◌, ◌<◌, ◌≤◌, length, IfOk, OnOk};
ghost use Rattle.term_check.specs.machinery.Known.{IsReady};
ghost use Rattle.term_check.specs.machinery.Reading.{next_spelled, each_spelled, applied_list, any_list, IsGathered, Tells, TellsAll, TellsMore};
ghost use Rattle.term_check.specs.machinery.Reading.{item_bound, all_bound, under_lets, let_list, under_variables, quantifier_list};
ghost use Rattle.term_check.specs.Rules.{unless};
ghost use Rattle.term_check.specs.Spelling.{spelled, nothing_yet, quantifier_fault, Gathered};
ghost use Rattle.term_check.specs.Found.{Keeps};
ghost use Rattle.term_check.specs.Weight.{weight, weights};

use crate::apply::{add_binding, add_quantifier, apply, read_leaf};
use crate::binders::{binder_fault, items_of, let_names_fault, sorts_bound, variables_fault};
use crate::bytes::are_same;
use crate::context::Context;
use crate::found::{Found, FoundAll};
use crate::heads::{head_fault, head_of};
use crate::stop::{TermStop, bad_form};
use crate::trees::word_bytes;
use sexp_read::Tree;
use term_tree::Terms;

/// Reads a tree as a term. After a refusal the context is of no use.
#[cycle(term)]
pub fn read_term<'a>(
    context: &mut Context<'a>,
    next: u32,
    tree: &Tree,
    terms: &mut Terms,
) -> Result<Found, TermStop>
    requires ready { IsReady context.old terms.old next (weight tree.now) }
    ensures told { Tells context.old.lets (spelled context.old.text context.old.scope next tree.now) terms.new result }
    ensures keeps { Keeps terms.old terms.new }
    ensures kept { OnOk result (context.new ≡ context.old) }
    ensures next { IfOk result (λ found. found.next ≤ next + weight tree.now) }
{
    match tree {
        Tree::Leaf { kind, start, end } => read_leaf(context, next, *kind, *start, *end, terms),
        Tree::List { items, start, .. } => {
            read_list(context, next, *start, items.as_slice(), terms)
        }
    }
}

/// Reads a list, by its trees, as a term.
#[cycle(term)]
fn read_list<'a>(
    context: &mut Context<'a>,
    next: u32,
    start: u32,
    items: &[Tree],
    terms: &mut Terms,
) -> Result<Found, TermStop>
    requires ready { IsReady context.old terms.old next (weights items.now) }
    ensures told { Tells context.old.lets (any_list context.old.text context.old.scope next start items.now) terms.new result }
    ensures keeps { Keeps terms.old terms.new }
    ensures kept { OnOk result (context.new ≡ context.old) }
    ensures next { IfOk result (λ found. found.next ≤ next + weights items.now) }
{
    match items {
        [] => Err(bad_form(start)),
        [head, rest @ ..] => {
            match word_bytes(context.text(), head) {
                Some(word) if are_same(word, b"let") => {
                    read_let(context, next, start, rest, terms)
                }
                Some(word) if are_same(word, b"forall") => {
                    read_quantifier(context, next, start, true, rest, terms)
                }
                Some(word) if are_same(word, b"exists") => {
                    read_quantifier(context, next, start, false, rest, terms)
                }
                _ => read_application(context, next, start, head, rest, terms),
            }
        }
    }
}

/// Reads a head and its arguments.
#[cycle(term)]
fn read_application<'a>(
    context: &mut Context<'a>,
    next: u32,
    start: u32,
    head: &Tree,
    args: &[Tree],
    terms: &mut Terms,
) -> Result<Found, TermStop>
    requires ready { IsReady context.old terms.old next (weights args.now) }
    ensures told { Tells context.old.lets (applied_list context.old.text context.old.scope next start head.now args.now) terms.new result }
    ensures keeps { Keeps terms.old terms.new }
    ensures kept { OnOk result (context.new ≡ context.old) }
    ensures next { IfOk result (λ found. found.next ≤ next + weights args.now) }
{
    let signature = context.signature();
    let head = match head_of(context.text(), signature, head) {
        Ok(head) => head,
        Err(fault) => return Err(TermStop::Fault(fault)),
    };
    if let Some(fault) = head_fault(signature.preds(), head, start, args.len()) {
        return Err(TermStop::Fault(fault));
    }
    match read_arguments(context, next, args, terms) {
        Ok(all) => {
            let made = apply(
                signature.preds(),
                head,
                start,
                all.ids,
                &all.parts,
                all.next,
                terms,
            );
            context.give_back(all.parts)?;
            made
        }
        Err(stop) => Err(stop),
    }
}

/// Reads trees one after another.
#[cycle(term)]
fn read_arguments<'a>(
    context: &mut Context<'a>,
    next: u32,
    args: &[Tree],
    terms: &mut Terms,
) -> Result<FoundAll, TermStop>
    requires ready { IsReady context.old terms.old next (weights args.now) }
    ensures told { TellsAll context.old.lets (each_spelled context.old.text context.old.scope (nothing_yet next) args.now) terms.new result }
    ensures keeps { Keeps terms.old terms.new }
    ensures kept { OnOk result (context.new ≡ context.old) }
    ensures next { IfOk result (λ all. all.next ≤ next + weights args.now) }
    ensures count { IfOk result (λ all. length all.ids.items ≡ length args.now) }
{
    let none = context.no_parts(args.len())?;
    let mut all = FoundAll::with_room(context.alloc(), none, args.len(), next)?;
    for arg in args {
        match read_next(context, &mut all, arg, terms) {
            Ok(()) => {}
            Err(stop) => return Err(stop),
        }
    }
    Ok(all)
}

/// Reads one more tree behind those that were read.
#[cycle(term)]
fn read_next<'a>(
    context: &mut Context<'a>,
    all: &mut FoundAll,
    tree: &Tree,
    terms: &mut Terms,
) -> Result<(), TermStop>
    requires ready { IsReady context.old terms.old all.old.next (weight tree.now) }
    ensures told { (g : Gathered) → IsGathered context.old.lets terms.old g all.old.ids.items all.old.parts.items all.old.next
        → TellsMore context.old.lets (next_spelled context.old.text context.old.scope g tree.now) terms.new all.new result }
    ensures keeps { Keeps terms.old terms.new }
    ensures kept { OnOk result (context.new ≡ context.old) }
    ensures next { OnOk result (all.new.next ≤ all.old.next + weight tree.now) }
    ensures count { OnOk result (length all.new.ids.items ≡ length all.old.ids.items + 1) }
{
    match read_term(context, all.next, tree, terms) {
        Ok(found) => Ok(all.add(found)?),
        Err(stop) => Err(stop),
    }
}

/// Reads what follows the word `let`.
#[cycle(term)]
fn read_let<'a>(
    context: &mut Context<'a>,
    next: u32,
    start: u32,
    rest: &[Tree],
    terms: &mut Terms,
) -> Result<Found, TermStop>
    requires ready { IsReady context.old terms.old next (weights rest.now) }
    ensures told { Tells context.old.lets (let_list context.old.text context.old.scope next start rest.now) terms.new result }
    ensures keeps { Keeps terms.old terms.new }
    ensures kept { OnOk result (context.new ≡ context.old) }
    ensures next { IfOk result (λ found. found.next ≤ next + weights rest.now) }
{
    match rest {
        [binder, body] => {
            if let Some(fault) = binder_fault(context.text(), binder) {
                return Err(TermStop::Fault(fault));
            }
            let items = items_of(binder);
            match read_bound(context, next, items, terms) {
                Ok(all) => read_under_lets(context, start, items, all, body, terms),
                Err(stop) => Err(stop),
            }
        }
        _ => Err(bad_form(start)),
    }
}

/// Reads the terms that the items of a `let` bind.
#[cycle(term)]
fn read_bound<'a>(
    context: &mut Context<'a>,
    next: u32,
    items: &[Tree],
    terms: &mut Terms,
) -> Result<FoundAll, TermStop>
    requires ready { IsReady context.old terms.old next (weights items.now) }
    ensures told { TellsAll context.old.lets (all_bound context.old.text context.old.scope (nothing_yet next) items.now) terms.new result }
    ensures keeps { Keeps terms.old terms.new }
    ensures kept { OnOk result (context.new ≡ context.old) }
    ensures next { IfOk result (λ all. all.next ≤ next + weights items.now) }
    ensures count { IfOk result (λ all. length all.ids.items ≤ length items.now) }
{
    let none = context.no_parts(items.len())?;
    let mut all = FoundAll::with_room(context.alloc(), none, items.len(), next)?;
    for item in items {
        match read_item(context, &mut all, items_of(item), terms) {
            Ok(()) => {}
            Err(stop) => return Err(stop),
        }
    }
    Ok(all)
}

/// Reads the term of an item of a `let`, a name and a term.
#[cycle(term)]
fn read_item<'a>(
    context: &mut Context<'a>,
    all: &mut FoundAll,
    item: &[Tree],
    terms: &mut Terms,
) -> Result<(), TermStop>
    requires ready { IsReady context.old terms.old all.old.next (weights item.now) }
    ensures told { (g : Gathered) → IsGathered context.old.lets terms.old g all.old.ids.items all.old.parts.items all.old.next
        → TellsMore context.old.lets (item_bound context.old.text context.old.scope g item.now) terms.new all.new result }
    ensures keeps { Keeps terms.old terms.new }
    ensures kept { OnOk result (context.new ≡ context.old) }
    ensures next { OnOk result (all.new.next ≤ all.old.next + weights item.now) }
    ensures count { OnOk result (length all.new.ids.items ≤ length all.old.ids.items + 1) }
{
    match item {
        [_, term] => read_next(context, all, term, terms),
        _ => Ok(()),
    }
}

/// Reads the term below the names of a `let`, whose own terms were read.
#[cycle(term)]
fn read_under_lets<'a>(
    context: &mut Context<'a>,
    start: u32,
    items: &[Tree],
    all: FoundAll,
    body: &Tree,
    terms: &mut Terms,
) -> Result<Found, TermStop>
    requires ready { IsReady context.old terms.old all.next (weight body.now) }
    requires room { length context.old.lets + (length items.now + weight body.now) < 2 ^ 32 }
    requires count { length all.ids.items ≤ length items.now }
    requires gathered { (g : Gathered) × IsGathered context.old.lets terms.old g all.ids.items all.parts.items all.next }
    ensures told { (g : Gathered) → IsGathered context.old.lets terms.old g all.ids.items all.parts.items all.next
        → Tells context.old.lets (under_lets context.old.text context.old.scope start items.now body.now g) terms.new result }
    ensures keeps { Keeps terms.old terms.new }
    ensures kept { OnOk result (context.new ≡ context.old) }
    ensures next { IfOk result (λ found. found.next ≤ all.next + weight body.now) }
{
    if let Some(fault) = let_names_fault(context.alloc(), context.key(), context.text(), items)? {
        return Err(TermStop::Fault(fault));
    }
    let (names, lets) = (context.names(), context.lets());
    context.bind_lets(items, &all.parts, &all.ids)?;
    match read_term(context, all.next, body, terms) {
        Ok(found) => {
            context.leave(names, lets);
            add_binding(start, all, found, terms)
        }
        Err(stop) => Err(stop),
    }
}

/// Reads what follows the word `forall`, or the word `exists`.
#[cycle(term)]
fn read_quantifier<'a>(
    context: &mut Context<'a>,
    next: u32,
    start: u32,
    is_universal: bool,
    rest: &[Tree],
    terms: &mut Terms,
) -> Result<Found, TermStop>
    requires ready { IsReady context.old terms.old next (weights rest.now) }
    ensures told { Tells context.old.lets (unless (quantifier_fault context.old.scope.quantifies start)
        (quantifier_list context.old.text context.old.scope next start is_universal rest.now)) terms.new result }
    ensures keeps { Keeps terms.old terms.new }
    ensures kept { OnOk result (context.new ≡ context.old) }
    ensures next { IfOk result (λ found. found.next ≤ next + weights rest.now) }
{
    if !context.quantifies() {
        return Err(bad_form(start));
    }
    match rest {
        [binder, body] => {
            if let Some(fault) = binder_fault(context.text(), binder) {
                return Err(TermStop::Fault(fault));
            }
            let items = items_of(binder);
            if let Some(fault) = variables_fault(
                context.alloc(),
                context.key(),
                context.text(),
                items,
            )? {
                return Err(TermStop::Fault(fault));
            }
            read_under_variables(context, next, start, is_universal, items, body, terms)
        }
        _ => Err(bad_form(start)),
    }
}

/// Reads the term below the variables of a quantifier.
#[cycle(term)]
fn read_under_variables<'a>(
    context: &mut Context<'a>,
    next: u32,
    start: u32,
    is_universal: bool,
    items: &[Tree],
    body: &Tree,
    terms: &mut Terms,
) -> Result<Found, TermStop>
    requires ready { IsReady context.old terms.old next (length items.now + weight body.now) }
    ensures told { Tells context.old.lets (under_variables context.old.text context.old.scope next start is_universal items.now body.now) terms.new result }
    ensures keeps { Keeps terms.old terms.new }
    ensures kept { OnOk result (context.new ≡ context.old) }
    ensures next { IfOk result (λ found. found.next ≤ next + length items.now + weight body.now) }
{
    let sorts = sorts_bound(context.alloc(), context.text(), items)?;
    let (names, lets) = (context.names(), context.lets());
    context.bind_variables(next, items)?;
    let below = next + items.len() as u32;
    match read_term(context, below, body, terms) {
        Ok(found) => {
            context.leave(names, lets);
            add_quantifier(is_universal, next, sorts, start, found, terms)
        }
        Err(stop) => Err(stop),
    }
}
