//! The walk through a tree, node by node in preorder, with a stack of what waits.

ghost use Rattle.std.specs.Prelude.{◌≡◌, ℕ, ◌+◌, ◌<◌, ◌≤◌, ◌++◌, ◌∷◌, [], ◌&&◌, List, IfOk, OnOk, IfSome, IsSome, IsNone, int_le, length, map, pos, slice_index_or, true, false};
ghost use Rattle.lin_atoms.specs.Denial.{lit_fits};
ghost use Rattle.lin_atoms.specs.declared.lit.Lit.TheVariants.{Le};
ghost use Rattle.refutation_trees.specs.Combination.{are_multipliers, combined, is_above_zero, is_divided_by, one_minus};
ghost use Rattle.int_rows.specs.Ready.{rounded};
ghost use Rattle.refutation_trees.specs.Refutation.{Sound, checked, each_part, followed_by, has_parts, has_quotient, judged, judged_at, new_variable, quotient_at};
ghost use Rattle.farkas_proof.specs.machinery.Tells.{Tells};
ghost use Rattle.lin_atoms.specs.declared.form.Form.{Form};
ghost use Rattle.lin_atoms.specs.declared.lit.Lit.{Lit};
ghost use Rattle.refutation_trees.specs.Flatten.{literals};
ghost use Rattle.refutation_trees.specs.machinery.Sizes.{size, sizes};
ghost use Rattle.farkas_proof.specs.machinery.Walk.{GoesOn, Leads, after, begun, found, found_in, found_next, left_to, opened, replaced, size_of, weight, weight_of, weights};
ghost use Rattle.std.specs.List.{list_all};

use crate::flatten::{push_disjunctions, push_literals};
use crate::known::Known;
use crate::narrow::Narrow;
use crate::nodes::{above, leaf, next, round};
use crate::quotient::named;
use crate::stop::CheckStop;
use crate::sum::Sum;
use base::{Copied, Items, Memory};
use lin_atoms::{Form, Lin, Lit};
use refutation_trees::{Refutation, form_end};
use std::alloc::Global;
use std::mem;

/// What waits in a walk.
#[derive(Drop)]
pub(crate) enum Work<'a> {
    /// A tree, and the literals that its node derives.
    Tree {
        tree: &'a Refutation,
        derived: Vec<Lit>,
    },
    /// A tree, and the one literal that its node derives.
    Under {
        tree: &'a Refutation,
        lit: Lit,
    },
    /// A tree for one part of the open disjunction of that number.
    Part {
        tree: &'a Refutation,
        part: &'a Form,
        which: u32,
    },
    /// At most `depth` literals are known again.
    Forget {
        depth: usize,
    },
    /// The open disjunctions are `cases` again.
    Reopen {
        cases: Vec<&'a Items<Form>>,
    },
}

/// A walk, and where it stands.
#[derive(Drop)]
pub(crate) struct Walk<'a> {
    alloc: Global,
    /// Above the variables of the form.
    end: u64,
    lits: Known,
    cases: Vec<&'a Items<Form>>,
    /// What waits, the next at the end.
    work: Vec<Work<'a>>,
    /// The number of the next node.
    at: u32,
    /// Any sums, whose memory the nodes use in turn.
    sum: Sum,
    narrow: Narrow,
}

/// What is found in a tree for a form.
pub(crate) fn judge(alloc: Global, form: &Form, tree: &Refutation) -> Result<u32, CheckStop>
    ensures { Tells (judged lit_fits form.now tree.now) result }
{
    let mut walk = begin(alloc, form, tree)?;
    while let Some(work) = walk.work.pop() {
        match walk.turn(work) {
            Ok(()) => {}
            Err(stop) => return Err(stop),
        }
    }
    Ok(walk.at)
}

/// A walk through the tree, from the flattened form on.
fn begin<'a>(alloc: Global, form: &'a Form, tree: &'a Refutation) -> Result<Walk<'a>, Memory>
    ensures { IfOk result (λ walk. found walk ≡ judged lit_fits form.now tree.now) }
{
    let mut flat = Vec::new(alloc);
    push_literals(alloc, form, &mut flat)?;
    let mut lits = Known::nothing(alloc);
    lits.push_all(flat)?;
    let mut cases = Vec::new(alloc);
    push_disjunctions(form, &mut cases)?;
    let derived = Vec::new(alloc);
    let mut work = Vec::new(alloc);
    work.push(Work::Tree { tree, derived })?;
    Ok(Walk {
        alloc,
        end: form_end(form),
        lits,
        cases,
        work,
        at: 0,
        sum: Sum::nothing(alloc),
        narrow: Narrow::nothing(alloc),
    })
}

/// Something more waits.
fn put<'a>(waiting: &mut Vec<Work<'a>>, work: Work<'a>) -> Result<(), Memory>
    ensures { OnOk result (waiting.new.items ≡ waiting.old.items ++ work.entry ∷ []) }
{
    waiting.push(work)?;
    Ok(())
}

/// Literals beyond the first `depth` are forgotten before what waits already. A literal may wait to be
/// forgotten with those below it.
fn forget<'a>(waiting: &mut Vec<Work<'a>>, depth: usize) -> Result<(), Memory>
    ensures after { OnOk result ((end : ℕ) (lits more : List Lit) (cases : List (List Form)) (next : ℕ) → length lits ≡ depth
        → left_to end waiting.new.items (lits ++ more) cases next ≡ left_to end waiting.old.items lits cases next) }
    ensures weight { OnOk result (weights waiting.new.items ≤ weights waiting.old.items + 1) }
{
    match waiting.last() {
        Some(Work::Forget { depth: least }) => {
            if *least <= depth {
                return Ok(());
            }
        }
        _ => {}
    }
    put(waiting, Work::Forget { depth })?;
    Ok(())
}

/// The parts of the open disjunction of that number, if there are `count` of them.
fn parts_of<'a>(cases: &[&'a Items<Form>], which: u32, count: usize) -> Option<&'a [Form]>
    ensures some { IfSome result (λ parts. (parts.now ≡ slice_index_or (opened cases.now) which []) × (length parts.now ≡ count)) }
    ensures legal { IsSome result → has_parts (opened cases.now) which count ≡ true }
    ensures none { IsNone result → has_parts (opened cases.now) which count ≡ false }
{
    match cases.get(which as usize) {
        Some(parts) => {
            if parts.len() == count {
                Some(parts.as_slice())
            } else {
                None
            }
        }
        None => None,
    }
}

/// Each part waits with its tree, the first before the others.
fn push_parts<'a>(
    work: &mut Vec<Work<'a>>,
    parts: &'a [Form],
    subs: &'a [Refutation],
    which: u32,
) -> Result<(), Memory>
    requires { length parts.now ≡ length subs.now }
    ensures after { OnOk result ((end : ℕ) (lits : List Lit) (cases : List (List Form)) (next : ℕ) → left_to end work.new.items lits cases next
        ≡ followed_by (each_part (map (judged_at lit_fits end) subs.now) parts.now which lits cases next) (left_to end work.old.items lits cases)) }
    ensures weight { OnOk result (weights work.new.items ≡ weights work.old.items + sizes (map size subs.now)) }
{
    let mut left = subs.len();
    while left > 0 {
        left -= 1;
        let (tree, part) = (&subs[left], &parts[left]);
        work.push(Work::Part { tree, part, which })?;
    }
    Ok(())
}

/// The disjunctions with those of a part in place of the one that was split.
fn replaced<'a>(
    alloc: Global,
    cases: &[&'a Items<Form>],
    which: u32,
    part: &'a Form,
) -> Result<Vec<&'a Items<Form>>, Memory>
    ensures { IfOk result (λ made. opened made.items ≡ replaced (opened cases.now) which part.now) }
{
    let before = (which as usize).min(cases.len());
    let behind = (which as usize + 1).min(cases.len());
    let mut made = Vec::new(alloc);
    made.extend_from_slice(&cases[..before])?;
    push_disjunctions(part, &mut made)?;
    made.extend_from_slice(&cases[behind..])?;
    Ok(made)
}

/// Copies of the literals.
fn copies(alloc: Global, lits: &[Lit]) -> Result<Vec<Lit>, Memory>
    ensures { IfOk result (λ made. made.items ≡ lits.now) }
{
    let mut made = Vec::with_capacity(alloc, lits.len())?;
    for lit in lits {
        made.push(lit.copy(alloc)?)?;
    }
    Ok(made)
}

impl<'a> Walk<'a> {
    /// Does what waited first.
    fn turn(&mut self, work: Work<'a>) -> Result<(), CheckStop>
        ensures leads { Leads (begun self.old work.entry) (found self.new) result }
        ensures less { OnOk result (weight self.new < weight self.old + weight_of work.entry) }
    {
        match work {
            Work::Tree { tree, derived } => self.judge_with(tree, derived),
            Work::Under { tree, lit } => self.judge_under(tree, lit),
            Work::Part { tree, part, which } => self.judge_part(tree, part, which),
            Work::Forget { depth } => {
                self.lits.truncate(depth);
                Ok(())
            }
            Work::Reopen { cases } => {
                self.cases = cases;
                Ok(())
            }
        }
    }

    /// A tree, with more literals.
    fn judge_with(&mut self, tree: &'a Refutation, derived: Vec<Lit>) -> Result<(), CheckStop>
        ensures leads { Leads (followed_by (judged_at lit_fits self.old.end tree.now (self.old.lits ++ derived.items) (opened self.old.cases.items) self.old.at)
            (after self.old)) (found self.new) result }
        ensures less { OnOk result (weight self.new < weight self.old + size tree.now) }
    {
        forget(&mut self.work, self.lits.len())?;
        self.lits.push_all(derived)?;
        self.judge_tree(tree)
    }

    /// A tree, with one more literal.
    fn judge_under(&mut self, tree: &'a Refutation, lit: Lit) -> Result<(), CheckStop>
        ensures leads { Leads (followed_by (judged_at lit_fits self.old.end tree.now (self.old.lits ++ lit ∷ []) (opened self.old.cases.items) self.old.at) (after self.old)) (found self.new) result }
        ensures less { OnOk result (weight self.new < weight self.old + size tree.now) }
    {
        forget(&mut self.work, self.lits.len())?;
        self.lits.push(lit)?;
        self.judge_tree(tree)
    }

    /// A tree for a part of an open disjunction.
    fn judge_part(
        &mut self,
        tree: &'a Refutation,
        part: &'a Form,
        which: u32,
    ) -> Result<(), CheckStop>
        ensures leads { Leads (followed_by (judged_at lit_fits self.old.end tree.now (self.old.lits ++ literals part.now)
            (replaced (opened self.old.cases.items) which part.now) self.old.at) (after self.old)) (found self.new) result }
        ensures less { OnOk result (weight self.new < weight self.old + (size tree.now + 1)) }
    {
        let cases = replaced(self.alloc, self.cases.as_slice(), which, part)?;
        let mut derived = Vec::new(self.alloc);
        push_literals(self.alloc, part, &mut derived)?;
        let outside = mem::replace(&mut self.cases, cases);
        put(&mut self.work, Work::Reopen { cases: outside })?;
        self.judge_with(tree, derived)
    }

    /// The nodes of a tree, down to one that ends it or splits a disjunction.
    fn judge_tree(&mut self, tree: &'a Refutation) -> Result<(), CheckStop>
        ensures leads { Leads (found_in self.old tree.now) (found self.new) result }
        ensures less { OnOk result (weight self.new + 2 ≤ weight self.old + size tree.now) }
    {
        let mut here = tree;
        loop {
            match self.judge_node(here) {
                Ok(Some(sub)) => here = sub,
                Ok(None) => return Ok(()),
                Err(stop) => return Err(stop),
            }
        }
    }

    /// The node of a tree, what waits then, and the tree that is next where none waits before it.
    fn judge_node(&mut self, tree: &'a Refutation) -> Result<Option<&'a Refutation>, CheckStop>
        ensures on { GoesOn (found_in self.old tree.now) self.new result }
        ensures less { IfOk result (λ next. weight self.new + size_of next < weight self.old + size tree.now) }
    {
        match tree {
            Refutation::Leaf { multipliers } => self.judge_leaf(multipliers.as_slice()),
            Refutation::Round {
                multipliers,
                divisor,
                sub,
            } => self.judge_round(multipliers.as_slice(), *divisor, sub.get()),
            Refutation::Split { lin, below, above } => {
                self.judge_split(lin, below.get(), above.get())
            }
            Refutation::Cases { which, subs } => self.judge_cases(*which, subs.as_slice()),
            Refutation::Quotient { lit, sub } => self.judge_quotient(*lit, sub.get()),
        }
    }

    fn judge_leaf(
        &mut self,
        multipliers: &[(u32, i64)],
    ) -> Result<Option<&'a Refutation>, CheckStop>
        ensures on { GoesOn (followed_by (checked (are_multipliers self.old.lits multipliers.now
            && is_above_zero (combined self.old.lits multipliers.now)) true self.old.at (Sound (self.old.at + 1))) (after self.old)) self.new result }
        ensures less { IfOk result (λ next. weight self.new + size_of next ≡ weight self.old + 1) }
    {
        match leaf(
            &mut self.sum,
            &mut self.narrow,
            self.lits.as_slice(),
            multipliers,
            self.at,
        ) {
            Ok(at) => {
                self.at = at;
                Ok(None)
            }
            Err(stop) => Err(stop),
        }
    }

    fn judge_round(
        &mut self,
        multipliers: &[(u32, i64)],
        divisor: i64,
        sub: &'a Refutation,
    ) -> Result<Option<&'a Refutation>, CheckStop>
        ensures on { GoesOn (followed_by (checked (are_multipliers self.old.lits multipliers.now
            && (int_le (pos 1) divisor && is_divided_by divisor (combined self.old.lits multipliers.now)))
            (lit_fits (Le (rounded divisor (combined self.old.lits multipliers.now)))) self.old.at
            (judged_at lit_fits self.old.end sub.now (self.old.lits ++ Le (rounded divisor (combined self.old.lits multipliers.now)) ∷ [])
            (opened self.old.cases.items) (self.old.at + 1))) (after self.old)) self.new result }
        ensures less { IfOk result (λ next. weight self.new + size_of next ≤ weight self.old + (size sub.now + 1)) }
    {
        match round(
            self.alloc,
            &mut self.sum,
            &mut self.narrow,
            self.lits.as_slice(),
            multipliers,
            divisor,
            self.at,
        ) {
            Ok(derived) => {
                let next = self.go_on(sub, derived)?;
                Ok(next)
            }
            Err(stop) => Err(stop),
        }
    }

    fn judge_split(
        &mut self,
        lin: &Lin,
        low_sub: &'a Refutation,
        high_sub: &'a Refutation,
    ) -> Result<Option<&'a Refutation>, CheckStop>
        ensures on { GoesOn (followed_by (checked true (lit_fits (Le lin.now)
            && lit_fits (Le (one_minus lin.now))) self.old.at (followed_by
            (judged_at lit_fits self.old.end low_sub.now (self.old.lits ++ Le lin.now ∷ []) (opened self.old.cases.items) (self.old.at + 1))
            (judged_at lit_fits self.old.end high_sub.now (self.old.lits ++ Le (one_minus lin.now) ∷ []) (opened self.old.cases.items))))
            (after self.old)) self.new result }
        ensures less { IfOk result (λ next. weight self.new + size_of next ≤ weight self.old + (size low_sub.now + size high_sub.now + 1)) }
    {
        match above(self.alloc, lin, self.at) {
            Ok(high) => {
                let low = lin.copy(self.alloc)?;
                self.wait(high_sub, high)?;
                let next = self.go_on(low_sub, Lit::Le(low))?;
                Ok(next)
            }
            Err(stop) => Err(stop),
        }
    }

    fn judge_cases(
        &mut self,
        which: u32,
        subs: &'a [Refutation],
    ) -> Result<Option<&'a Refutation>, CheckStop>
        ensures on { GoesOn (followed_by (checked (has_parts (opened self.old.cases.items) which (length subs.now)) true self.old.at
            (each_part (map (judged_at lit_fits self.old.end) subs.now) (slice_index_or (opened self.old.cases.items) which []) which self.old.lits
            (opened self.old.cases.items) (self.old.at + 1))) (after self.old)) self.new result }
        ensures less { IfOk result (λ next. weight self.new + size_of next ≡ weight self.old + (sizes (map size subs.now) + 1)) }
    {
        match parts_of(self.cases.as_slice(), which, subs.len()) {
            Some(parts) => {
                self.at = next(self.at)?;
                push_parts(&mut self.work, parts, subs, which)?;
                Ok(None)
            }
            None => Err(CheckStop::NoProof { node: self.at }),
        }
    }

    fn judge_quotient(
        &mut self,
        lit: u32,
        sub: &'a Refutation,
    ) -> Result<Option<&'a Refutation>, CheckStop>
        ensures on { GoesOn (followed_by (checked (has_quotient self.old.lits lit (new_variable self.old.end self.old.lits))
            (list_all lit_fits (quotient_at self.old.lits lit (new_variable self.old.end self.old.lits))) self.old.at
            (judged_at lit_fits self.old.end sub.now (self.old.lits ++ quotient_at self.old.lits lit (new_variable self.old.end self.old.lits))
            (opened self.old.cases.items) (self.old.at + 1))) (after self.old)) self.new result }
        ensures less { IfOk result (λ next. weight self.new + size_of next ≤ weight self.old + (size sub.now + 1)) }
    {
        match named(self.alloc, &mut self.lits, lit, self.end, self.at) {
            Ok(derived) => {
                let derived = copies(self.alloc, derived.as_slice())?;
                let next = self.go_on_with(sub, derived)?;
                Ok(next)
            }
            Err(stop) => Err(stop),
        }
    }

    /// A tree waits, which stands on one more literal, before all that waits already.
    fn wait(&mut self, tree: &'a Refutation, lit: Lit) -> Result<(), Memory>
        ensures after { OnOk result ((next : ℕ) → after self.new next
            ≡ followed_by (judged_at lit_fits self.old.end tree.now (self.old.lits ++ lit ∷ []) (opened self.old.cases.items) next) (after self.old)) }
        ensures weight { OnOk result (weight self.new ≡ weight self.old + size tree.now) }
        ensures end { self.new.end ≡ self.old.end }
        ensures lits { self.new.lits ≡ self.old.lits }
        ensures cases { self.new.cases ≡ self.old.cases }
        ensures at { self.new.at ≡ self.old.at }
    {
        self.work.push(Work::Under { tree, lit })?;
        Ok(())
    }

    /// One node is done, and the tree comes next, which stands on one more literal.
    fn go_on(&mut self, tree: &'a Refutation, lit: Lit) -> Result<Option<&'a Refutation>, Memory>
        ensures found { IfOk result (λ next. found_next self.new next
            ≡ followed_by (judged_at lit_fits self.old.end tree.now (self.old.lits ++ lit ∷ []) (opened self.old.cases.items) (self.old.at + 1))
            (after self.old)) }
        ensures weight { IfOk result (λ next. weight self.new + size_of next ≤ weight self.old + (size tree.now + 1)) }
    {
        self.at = next(self.at)?;
        forget(&mut self.work, self.lits.len())?;
        self.lits.push(lit)?;
        Ok(Some(tree))
    }

    /// One node is done, and the tree comes next, which stands on more literals.
    fn go_on_with(
        &mut self,
        tree: &'a Refutation,
        derived: Vec<Lit>,
    ) -> Result<Option<&'a Refutation>, Memory>
        ensures found { IfOk result (λ next. found_next self.new next
            ≡ followed_by (judged_at lit_fits self.old.end tree.now (self.old.lits ++ derived.items) (opened self.old.cases.items) (self.old.at + 1))
            (after self.old)) }
        ensures weight { IfOk result (λ next. weight self.new + size_of next ≤ weight self.old + (size tree.now + 1)) }
    {
        self.at = next(self.at)?;
        forget(&mut self.work, self.lits.len())?;
        self.lits.push_all(derived)?;
        Ok(Some(tree))
    }
}
