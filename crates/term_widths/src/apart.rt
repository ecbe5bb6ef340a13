//! Names that are apart however many variables there are.

ghost use Rattle.std.specs.Prelude.{◌≡◌, ◌<◌, ◌≤◌, ◌^◌, ◌==◌, ℕ, position, option_map, unwrap_or, Some, IfOk, OnOk};
ghost use Rattle.std.specs.Ordering.{nat_cmp};
ghost use Rattle.std.specs.BTreeMap.{get};
ghost use Rattle.term_tree.specs.declared.node.Node.TheVariants.{Var};
ghost use Rattle.term_tree.specs.declared.sort.Sort.{Sort};
ghost use Rattle.lin_atoms.specs.Algebra.{name_in};
ghost use Rattle.term_forms.specs.Found.{naming_in};
ghost use Rattle.term_widths.specs.machinery.Apart.{AreAlike, AreFirsts, AreNoVariables, AreOwnBelow, EndsVariables, PutsFirst, placed_naming};

use base::Memory;
use std::alloc::Global;
use std::collections::BTreeMap;
use term_forms::Names;
use term_tree::{Node, TermId, Terms};

/// The variable that stands for this one.
fn class_of(own: &[u32], binder: u32) -> u32
    ensures { result ≡ name_in own.now binder }
{
    let place = binder as usize;
    if place < own.len() {
        own[place]
    } else {
        binder
    }
}

fn keep(firsts: &mut BTreeMap<u32, u32>, class: u32, number: u32) -> Result<(), Memory>
    ensures here { OnOk result (get nat_cmp firsts.new class ≡ Some number) }
    ensures others { OnOk result ((q : ℕ) → (class ≡ q → ⊥) → get nat_cmp firsts.new q ≡ get nat_cmp firsts.old q) }
{
    firsts.insert(class, number)?;
    Ok(())
}

/// The first term that is kept for the variable.
fn first_of(firsts: &BTreeMap<u32, u32>, class: u32) -> Option<u32>
    ensures { result ≡ get nat_cmp firsts.now class }
{
    firsts.get(&class).copied()
}

/// Keeps the term of that number for the variable that it stands for, where it is a variable of
/// which no term is kept.
fn put_first(
    firsts: &mut BTreeMap<u32, u32>,
    own: &[u32],
    node: &Node,
    number: u32,
) -> Result<(), Memory>
    ensures { OnOk result (PutsFirst own.now node.now number firsts.old firsts.new) }
{
    let Node::Var { binder, .. } = node else {
        return Ok(());
    };
    let class = class_of(own, *binder);
    match first_of(firsts, class) {
        Some(_) => Ok(()),
        None => {
            keep(firsts, class, number)?;
            Ok(())
        }
    }
}

/// For each variable that stands for one of the terms' own, the first term that it stands for.
fn first_terms(alloc: Global, terms: &Terms, own: &[u32]) -> Result<BTreeMap<u32, u32>, Memory>
    ensures { IfOk result (λ firsts. AreFirsts terms.now.nodes own.now firsts) }
{
    let mut firsts = BTreeMap::new(alloc);
    for i in 0..terms.len() {
        let Ok(number) = u32::try_from(i) else {
            return Ok(firsts);
        };
        put_first(&mut firsts, own, terms.node(TermId(number)), number)?;
    }
    Ok(firsts)
}

/// The number of a variable, and one more; 0 of another node.
fn variable_end(node: &Node) -> usize
    ensures each { (binder : ℕ) (sort : Sort) → node.now ≡ Var binder sort → binder < result }
    ensures short { result ≤ 2 ^ 32 }
{
    match node {
        Node::Var { binder, .. } => *binder as usize + 1,
        _ => 0,
    }
}

/// The greatest number of a variable, and one more; 0 without one.
fn variables_end(terms: &Terms) -> usize
    ensures each { EndsVariables terms.now.nodes result }
    ensures short { result ≤ 2 ^ 32 }
{
    let mut end = 0;
    for i in 0..terms.len() {
        let Ok(number) = u32::try_from(i) else {
            return end;
        };
        let next = variable_end(terms.node(TermId(number)));
        end = end.max(next);
    }
    end
}

/// Each variable below the end, named by the first term that stands for the same.
fn first_names(
    alloc: Global,
    own: &[u32],
    firsts: &BTreeMap<u32, u32>,
    end: usize,
) -> Result<Vec<u32>, Memory>
    ensures { IfOk result (λ named. (binder : ℕ) → binder < end → binder < 2 ^ 32 → name_in named.items binder ≡ unwrap_or (get nat_cmp firsts.now (name_in own.now binder)) binder) }
{
    let mut named = Vec::new(alloc);
    for binder in 0..end {
        let Ok(number) = u32::try_from(binder) else {
            return Ok(named);
        };
        let first = first_of(firsts, class_of(own, number));
        named.push(first.unwrap_or(number))?;
    }
    Ok(named)
}

/// Each of these terms, named by its own number.
fn own_numbers(alloc: Global, placed: &[u32]) -> Result<BTreeMap<u32, u32>, Memory>
    ensures { IfOk result (λ numbers. (id : ℕ) → get nat_cmp numbers id ≡ option_map (λ i. id) (position (λ p. p == id) placed.now)) }
{
    let mut numbers = BTreeMap::new(alloc);
    for id in placed {
        keep(&mut numbers, *id, *id)?;
    }
    Ok(numbers)
}

/// Names under which forms are as wide as under the given ones, where those may be too many for
/// their numbers: `own` names the variables, and the terms `placed` have auxiliary ones that are
/// numbered from somewhere behind all of those on. An auxiliary variable has its term's number, and
/// a variable that of the first term that stands for the same.
pub fn apart_names(
    alloc: Global,
    terms: &Terms,
    own: &[u32],
    placed: &[u32],
) -> Result<Names, Memory>
    requires { AreNoVariables terms.now.nodes placed.now }
    ensures { (top first : ℕ) → top < 2 ^ 32 → AreOwnBelow terms.now.nodes top own.now first →
        IfOk result (λ names. AreAlike terms.now.nodes top (placed_naming own.now first placed.now) (naming_in names.own.items names.auxiliary)) }
{
    terms.arena_law();
    let firsts = first_terms(alloc, terms, own)?;
    let own = first_names(alloc, own, &firsts, variables_end(terms))?;
    let auxiliary = own_numbers(alloc, placed)?;
    Ok(Names { own, auxiliary })
}
