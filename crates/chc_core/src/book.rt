ghost use Rattle.std.specs.Prelude.{◌≡◌, ◌≤◌, ◌<◌, ◌+◌, ◌-◌, ◌^◌, ℕ, [], ◌∷◌, ◌++◌, length, not, slice_index_or, replicate, None, Some, IfOk, OnOk, OnErr, IsErrOf, true};
ghost use Rattle.std.specs.Bool.{OnTrue, OnFalse};
ghost use Rattle.obligation_tree.specs.Claims.{claimed, is_held_by_another, most_workers, released};
ghost use Rattle.book_rules.specs.declared.by.By.{By as BrokenBy};
ghost use Rattle.book_rules.specs.declared.end.End.{End as BookEnd};
ghost use Rattle.book_rules.specs.declared.end.End.TheVariants.{Sat, Spent as UnitsSpent, Unsat};
ghost use Rattle.book_rules.specs.Effects.{after};
ghost use Rattle.book_rules.specs.Frames.{AreGood, IsSolution};
ghost use Rattle.book_rules.specs.Instances.{IsDerivable, instances};
ghost use Rattle.book_rules.specs.Kept.{AreDerivable, AreDistinct, AreInRange, ArePlaced, AreRecorded, IsFalse, IsOrdered, IsSound};
ghost use Rattle.book_rules.specs.Legal.{AreLegal, IsLegal, end, replay};
ghost use Rattle.book_rules.specs.Rules.{broken};
ghost use Rattle.book_rules.specs.State.{opening};
ghost use Rattle.chc_core.specs.Openings.{most_units, opening_of};
ghost use Rattle.step_rules.specs.Standing.{IsNumbered, IsStanding};
ghost use Rattle.book_rules.specs.Places.{AreOver, has_places};
ghost use Rattle.book_rules.specs.Rooted.{IsRooted};
ghost use Rattle.book_rules.specs.Values.{AreShort};
ghost use Rattle.chc_core.specs.Views.{AreMadeFor, steps_of};
ghost use Rattle.step_rules.specs.Taken.{AreProjected, IsMadeFor, step_of};
ghost use Rattle.chc_core.specs.Views.{standing_of, state_of};
ghost use Rattle.chc_core.specs.machinery.Books.{IsBook};
ghost use Rattle.chc_core.specs.machinery.Making.{CanTake, or_old, with_made};

use crate::ending::end;
use crate::entry::Entry;
use crate::made::Made;
use crate::making::{made_of, next_number};
use crate::parts::Parts;
use crate::refused::Refused;
use crate::snapshot::Snapshot;
use base::Memory;
use book_rules::End;
use clause_form::System;
use derivations::Facts;
use lemma_frames::Frames;
use obligation_tree::Tree;
use std::alloc::Global;
use std::marker::Model;
use step_rules::{Lent, Step, broken_step};

/// A system of clauses with lemmas, facts, obligations, and the journal of the legal steps that led
/// to them. Only `commit` changes what the rules speak of.
pub struct Book {
    pub(crate) parts: Parts,
}

impl Drop for Book {
    fn drop(self) {
        let Book { parts: _ } = self;
    }
}

impl Model for Book {
    ghost use Rattle.std.specs.Coded.{codes};
    ghost use Rattle.lin_atoms.specs.contracts.form.Form as form;
    ghost use Rattle.chc_core.specs.Contents.{Contents};
    ghost use Rattle.chc_core.specs.contracts.entry.Entry as entry;
    ghost use Rattle.chc_core.specs.machinery.Books.{IsBook};

    ghost Value = { Contents };

    ghost coded = { Prim.hlevel (codes, form.the_row.coded, entry.the_row.coded) };

    ghost view = { λ b. b.parts };

    ghost invariant = { λ b. IsBook b.parts };
}

/// Tells what the area of a step keeps.
fn is_projected(step: &Step)
    ensures { AreProjected step.now }
{
    match step {
        Step::OpenStep(step) => {
            let _cube = step.area.cube();
        }
        Step::LemmaStep(_) => {}
        Step::FactStep(_) => {}
        Step::LiftStep(_) => {}
        Step::RaiseStep(_) => {}
        Step::StallStep(_) => {}
        Step::DeriveStep(_) => {}
        Step::StrengthenStep(_) => {}
    }
}

/// Nothing, where the book goes on and the step breaks no rule.
fn allow(parts: &Parts, step: &Step) -> Result<(), Refused>
    requires kept { IsBook parts.now }
    requires places { has_places parts.now.system (step_of step.now) ≡ true }
    ensures ok { OnOk result (CanTake parts.now step.now) }
    ensures ended { (e : BookEnd) → IsErrOf result (Refused.Ended e) → (end (state_of parts.now) ≡ Some e) × ((units : ℕ) → e ≡ UnitsSpent units → ⊥) }
    ensures spent { (units : ℕ) → IsErrOf result (Refused.Spent units) → end (state_of parts.now) ≡ Some (UnitsSpent units) }
    ensures rule { (n : ℕ) (by : BrokenBy) → IsErrOf result (Refused.Rule n by) → (end (state_of parts.now) ≡ None) × (broken parts.now.system (state_of parts.now) (step_of step.now) ≡ Some (n, by)) }
{
    match end(parts) {
        Some(End::Spent { units }) => return Err(Refused::Spent { units }),
        Some(end) => return Err(Refused::Ended { end }),
        None => {}
    }
    match broken_step(&parts.lend(), step)? {
        Some((number, by)) => Err(Refused::Rule { number, by }),
        None => Ok(()),
    }
}

/// The new frames, where there are any.
fn put_frames(frames: &mut Frames, new: Option<Frames>)
    ensures { frames.new ≡ or_old new frames.old }
{
    if let Some(new) = new {
        *frames = new;
    }
}

/// The new facts, where there are any.
fn put_facts(facts: &mut Facts, new: Option<Facts>)
    ensures { facts.new ≡ or_old new facts.old }
{
    if let Some(new) = new {
        *facts = new;
    }
}

/// Writes the entry, and puts what was made in its place. The entry is the last that can fail.
fn put(parts: &mut Parts, entry: Entry, made: Made) -> Result<(), Memory>
    requires { length parts.old.journal < 2 ^ 32 - 1 }
    ensures ok { OnOk result (parts.new ≡ with_made parts.old made entry) }
    ensures err { OnErr result (parts.new ≡ parts.old) }
{
    parts.journal.push(entry)?;
    put_frames(&mut parts.frames, made.frames);
    put_facts(&mut parts.facts, made.facts);
    parts.tree = made.tree;
    parts.level = made.level;
    parts.spent = made.spent;
    Ok(())
}

impl Book {
    /// The book that these clauses open, with `units` units to spend: no entry, level 0, and the
    /// root at level 1. At most 1,000,000 units; clauses and predicates have numbers of 32 bits.
    pub fn new(alloc: Global, system: System, units: u32) -> Result<Book, Memory>
        requires units { units ≤ most_units }
        requires numbered { IsNumbered system }
        ensures system { IfOk result (λ book. book.system ≡ system) }
        ensures given { IfOk result (λ book. book.given ≡ units) }
        ensures state { IfOk result (λ book. state_of book ≡ opening units) }
        ensures journal { IfOk result (λ book. book.journal ≡ []) }
        ensures claims { IfOk result (λ book. book.tree.claims ≡ replicate most_workers None) }
    {
        let parts = Parts::new(alloc, system, units)?;
        Ok(Book { parts })
    }

    /// Takes a step, and answers the number of its entry, from 1. It is `Ok` exactly where the book
    /// has no end and the step breaks no rule; then the journal grows by this entry, and the book is
    /// what the step makes of it. Else it is `Spent` or `Ended` where the book has an end, and `Rule`
    /// where it has none: the first broken rule, with what breaks it in the book now. A refusal
    /// changes nothing. The step's tokens were made for the book's system, and its cubes and lemmas
    /// name only places that their predicates have.
    pub fn commit(&mut self, worker: u32, step: Step) -> Result<u64, Refused>
        requires made { IsMadeFor self.old.system step }
        requires places { has_places self.old.system (step_of step) ≡ true }
        ensures number { IfOk result (λ number. number ≡ length self.old.journal + 1) }
        ensures legal { OnOk result (IsLegal self.old.system (state_of self.old) (step_of step)) }
        ensures state { OnOk result (state_of self.new ≡ after self.old.system (state_of self.old) (step_of step)) }
        ensures journal { OnOk result (self.new.journal ≡ self.old.journal ++ (record { worker = worker; step = step }) ∷ []) }
        ensures system { OnOk result (self.new.system ≡ self.old.system) }
        ensures given { OnOk result (self.new.given ≡ self.old.given) }
        ensures claims { OnOk result (self.new.tree.claims ≡ self.old.tree.claims) }
        ensures ended { (e : BookEnd) → IsErrOf result (Refused.Ended e) → (end (state_of self.old) ≡ Some e) × ((units : ℕ) → e ≡ UnitsSpent units → ⊥) }
        ensures spent { (units : ℕ) → IsErrOf result (Refused.Spent units) → end (state_of self.old) ≡ Some (UnitsSpent units) }
        ensures rule { (n : ℕ) (by : BrokenBy) → IsErrOf result (Refused.Rule n by) → (end (state_of self.old) ≡ None) × (broken self.old.system (state_of self.old) (step_of step) ≡ Some (n, by)) }
        ensures err { OnErr result (self.new ≡ self.old) }
    {
        is_projected(&step);
        allow(&self.parts, &step)?;
        let number = next_number(&self.parts);
        let made = made_of(&self.parts, &step)?;
        put(&mut self.parts, Entry { worker, step }, made)?;
        Ok(number)
    }

    /// Claims an obligation for a worker, from 1 to 64, who holds it and no other then. It is false
    /// exactly where another worker holds it, and then nothing changes. Claims are no part of what
    /// the rules speak of.
    pub fn claim(&mut self, id: u32, worker: u32) -> bool
        requires first { 0 < worker }
        requires last { worker ≤ most_workers }
        ensures answer { result ≡ not (is_held_by_another id worker self.old.tree.claims) }
        ensures claimed { OnTrue result (self.new ≡ record self.old { tree = record self.old.tree { claims = claimed id worker self.old.tree.claims } }) }
        ensures unchanged { OnFalse result (self.new ≡ self.old) }
    {
        self.parts.tree.claim(id, worker)
    }

    /// The worker, from 1 to 64, holds no obligation from now on.
    pub fn release(&mut self, worker: u32)
        requires first { 0 < worker }
        requires last { worker ≤ most_workers }
        ensures { self.new ≡ record self.old { tree = record self.old.tree { claims = released worker self.old.tree.claims } } }
    {
        self.parts.tree.release(worker);
    }

    /// How the book has ended, if it has. Where it is sat, the lemmas of the end's level or more are
    /// a solution, and false can't be derived; where it is unsat, the fact named is false, derivable
    /// within its height.
    pub fn end(&self) -> Option<End>
        ensures is { result ≡ end (state_of self.now) }
        ensures sat { (level : ℕ) → result ≡ Some (Sat level) → IsSolution (instances self.now.system) (state_of self.now).lemmas level }
        ensures no_false { (level : ℕ) → result ≡ Some (Sat level) → (h : ℕ) → IsDerivable (instances self.now.system) h None → ⊥ }
        ensures unsat { (fact : ℕ) → result ≡ Some (Unsat fact) → IsFalse (instances self.now.system) (state_of self.now) fact }
    {
        end(&self.parts)
    }

    /// The closed level: no derivation of false has this height or less.
    pub fn level(&self) -> u32
        ensures is { result ≡ self.now.level }
        ensures no_false { (h : ℕ) → h ≤ result → IsDerivable (instances self.now.system) h None → ⊥ }
    {
        self.parts.level
    }

    /// How many units are spent: every entry but a Stall is one.
    pub fn units(&self) -> u32
        ensures is { result ≡ self.now.spent }
        ensures within { result ≤ self.now.given }
    {
        self.parts.spent
    }

    /// How many entries the journal has.
    pub fn length(&self) -> u64
        ensures { result ≡ length self.now.journal }
    {
        u64::from(self.parts.journal.count())
    }

    /// An entry by its number, from 1 to the length.
    pub fn entry(&self, number: u64) -> &Entry
        requires first { 1 ≤ number }
        requires last { number ≤ length self.now.journal }
        ensures { result.now ≡ slice_index_or self.now.journal (number - 1) result.now }
    {
        self.parts.journal.get((number - 1) as u32)
    }

    /// The lemmas. Each of level k accepts every tuple of its predicate that is derivable within k.
    pub fn frames(&self) -> &Frames
        ensures is { result.now ≡ self.now.frames }
        ensures preds { result.now.preds ≡ length self.now.system.preds }
        ensures good { AreGood (instances self.now.system) (state_of self.now).lemmas }
        ensures levels { AreInRange self.now.level (state_of self.now).lemmas }
        ensures count { length result.now.lemmas ≤ self.now.spent }
    {
        &self.parts.frames
    }

    /// The facts. In order they are a derivation, each is derivable within its height, and no two
    /// conclude the same.
    pub fn facts(&self) -> &Facts
        ensures is { result.now ≡ self.now.facts }
        ensures recorded { AreRecorded self.now.system [] (state_of self.now).facts }
        ensures derivable { AreDerivable (instances self.now.system) (state_of self.now).facts }
        ensures distinct { AreDistinct (state_of self.now).facts }
        ensures short { AreShort (state_of self.now) }
        ensures count { length result.now ≤ self.now.spent }
    {
        &self.parts.facts
    }

    /// The obligations. Each live one but the root has a live parent one level higher, its point lies
    /// in its cube and in the frame of its level, and no recorded fact of its predicate in its cube.
    pub fn tree(&self) -> &Tree
        ensures is { result.now ≡ self.now.tree }
        ensures placed { ArePlaced (state_of self.now) }
        ensures rooted { IsRooted (state_of self.now) }
        ensures count { length result.now.nodes ≤ self.now.spent + 1 }
    {
        &self.parts.tree
    }

    /// The clauses.
    pub fn system(&self) -> &System
        ensures { result.now ≡ self.now.system }
    {
        self.parts.system.get().plain()
    }

    /// Tells that the book is the replay of its journal, in which each entry is legal where it is
    /// written; that each lemma is implied by the frame below it and itself on the body, through every
    /// clause, in the frames as they are now; that cubes and lemmas name only places that their
    /// predicates have; and that the tokens of each entry were made for the clauses.
    pub fn replay_law(&self)
        ensures replayed { replay self.now.system (opening_of self.now) (steps_of self.now.journal) ≡ state_of self.now }
        ensures legal { AreLegal self.now.system (opening_of self.now) (steps_of self.now.journal) }
        ensures over { AreOver self.now.system (state_of self.now) }
        ensures sound { IsSound (instances self.now.system) (state_of self.now) }
        ensures numbered { IsNumbered self.now.system }
        ensures made { AreMadeFor self.now.system self.now.journal }
    {
        let _level = self.parts.level;
    }

    /// What the rules of a step read.
    pub fn lend(&self) -> Lent
        ensures is { result ≡ standing_of self.now }
        ensures standing { IsStanding (standing_of self.now) }
        ensures ordered { IsOrdered (state_of self.now) }
    {
        self.parts.lend()
    }

    /// The book as it is now. It shares what the book keeps, so it costs a count for each 64 items
    /// and for each predicate.
    pub fn snapshot(&self) -> Result<Snapshot, Memory>
        ensures { IfOk result (λ snapshot. snapshot ≡ self.now) }
    {
        let parts = self.parts.share()?;
        Ok(Snapshot {
            book: Book { parts },
        })
    }
}
