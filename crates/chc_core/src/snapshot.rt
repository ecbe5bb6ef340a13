ghost use Rattle.std.specs.Prelude.{◌≡◌, ◌≤◌, ◌+◌, ◌-◌, ℕ, [], length, slice_index_or, None, Some};
ghost use Rattle.book_rules.specs.declared.end.End.TheVariants.{Sat, Unsat};
ghost use Rattle.book_rules.specs.Frames.{AreGood, IsSolution};
ghost use Rattle.book_rules.specs.Instances.{IsDerivable, instances};
ghost use Rattle.book_rules.specs.Kept.{AreDerivable, AreDistinct, AreInRange, ArePlaced, AreRecorded, IsFalse, IsOrdered, IsSound};
ghost use Rattle.book_rules.specs.Legal.{AreLegal, end, replay};
ghost use Rattle.chc_core.specs.Openings.{opening_of};
ghost use Rattle.step_rules.specs.Standing.{IsNumbered, IsStanding};
ghost use Rattle.book_rules.specs.Places.{AreOver};
ghost use Rattle.book_rules.specs.Rooted.{IsRooted};
ghost use Rattle.book_rules.specs.Values.{AreShort};
ghost use Rattle.chc_core.specs.Views.{AreMadeFor, steps_of};
ghost use Rattle.chc_core.specs.Views.{standing_of, state_of};

use crate::book::Book;
use crate::entry::Entry;
use book_rules::End;
use clause_form::System;
use derivations::Facts;
use lemma_frames::Frames;
use obligation_tree::Tree;
use std::marker::Model;
use step_rules::Lent;

/// A book as it was at one moment, with the claims of then. It can be read as the book can, and
/// doesn't change.
#[derive(Drop)]
pub struct Snapshot {
    pub(crate) book: Book,
}

impl Model for Snapshot {
    ghost use Rattle.std.specs.Coded.{codes};
    ghost use Rattle.lin_atoms.specs.contracts.form.Form as form;
    ghost use Rattle.chc_core.specs.Contents.{Contents};
    ghost use Rattle.chc_core.specs.contracts.entry.Entry as entry;

    ghost Value = { Contents };

    ghost coded = { Prim.hlevel (codes, form.the_row.coded, entry.the_row.coded) };

    ghost view = { λ s. s.book };
}

impl Snapshot {
    /// How the book has ended, if it has. Where it is sat, the lemmas of the end's level or more are
    /// a solution, and false can't be derived; where it is unsat, the fact named is false, derivable
    /// within its height.
    pub fn end(&self) -> Option<End>
        ensures is { result ≡ end (state_of self.now) }
        ensures sat { (level : ℕ) → result ≡ Some (Sat level) → IsSolution (instances self.now.system) (state_of self.now).lemmas level }
        ensures no_false { (level : ℕ) → result ≡ Some (Sat level) → (h : ℕ) → IsDerivable (instances self.now.system) h None → ⊥ }
        ensures unsat { (fact : ℕ) → result ≡ Some (Unsat fact) → IsFalse (instances self.now.system) (state_of self.now) fact }
    {
        self.book.end()
    }

    /// The closed level: no derivation of false has this height or less.
    pub fn level(&self) -> u32
        ensures is { result ≡ self.now.level }
        ensures no_false { (h : ℕ) → h ≤ result → IsDerivable (instances self.now.system) h None → ⊥ }
    {
        self.book.level()
    }

    /// How many units are spent: every entry but a Stall is one.
    pub fn units(&self) -> u32
        ensures is { result ≡ self.now.spent }
        ensures within { result ≤ self.now.given }
    {
        self.book.units()
    }

    /// How many entries the journal has.
    pub fn length(&self) -> u64
        ensures { result ≡ length self.now.journal }
    {
        self.book.length()
    }

    /// An entry by its number, from 1 to the length.
    pub fn entry(&self, number: u64) -> &Entry
        requires first { 1 ≤ number }
        requires last { number ≤ length self.now.journal }
        ensures { result.now ≡ slice_index_or self.now.journal (number - 1) result.now }
    {
        self.book.entry(number)
    }

    /// The lemmas. Each of level k accepts every tuple of its predicate that is derivable within k.
    pub fn frames(&self) -> &Frames
        ensures is { result.now ≡ self.now.frames }
        ensures preds { result.now.preds ≡ length self.now.system.preds }
        ensures good { AreGood (instances self.now.system) (state_of self.now).lemmas }
        ensures levels { AreInRange self.now.level (state_of self.now).lemmas }
        ensures count { length result.now.lemmas ≤ self.now.spent }
    {
        self.book.frames()
    }

    /// The facts. In order they are a derivation, each is derivable within its height, and no two
    /// conclude the same.
    pub fn facts(&self) -> &Facts
        ensures is { result.now ≡ self.now.facts }
        ensures recorded { AreRecorded self.now.system [] (state_of self.now).facts }
        ensures derivable { AreDerivable (instances self.now.system) (state_of self.now).facts }
        ensures distinct { AreDistinct (state_of self.now).facts }
        ensures short { AreShort (state_of self.now) }
        ensures count { length result.now ≤ self.now.spent }
    {
        self.book.facts()
    }

    /// The obligations. Each live one but the root has a live parent one level higher, its point lies
    /// in its cube and in the frame of its level, and no recorded fact of its predicate in its cube.
    pub fn tree(&self) -> &Tree
        ensures is { result.now ≡ self.now.tree }
        ensures placed { ArePlaced (state_of self.now) }
        ensures rooted { IsRooted (state_of self.now) }
        ensures count { length result.now.nodes ≤ self.now.spent + 1 }
    {
        self.book.tree()
    }

    /// What the rules of a step read.
    pub fn lend(&self) -> Lent
        ensures is { result ≡ standing_of self.now }
        ensures standing { IsStanding (standing_of self.now) }
        ensures ordered { IsOrdered (state_of self.now) }
    {
        self.book.lend()
    }

    /// The clauses.
    pub fn system(&self) -> &System
        ensures { result.now ≡ self.now.system }
    {
        self.book.system()
    }

    /// Tells that the book is the replay of its journal, in which each entry is legal where it is
    /// written; that each lemma is implied by the frame below it and itself on the body, through every
    /// clause, in the frames as they are now; that cubes and lemmas name only places that their
    /// predicates have; and that the tokens of each entry were made for the clauses.
    pub fn replay_law(&self)
        ensures replayed { replay self.now.system (opening_of self.now) (steps_of self.now.journal) ≡ state_of self.now }
        ensures legal { AreLegal self.now.system (opening_of self.now) (steps_of self.now.journal) }
        ensures over { AreOver self.now.system (state_of self.now) }
        ensures sound { IsSound (instances self.now.system) (state_of self.now) }
        ensures numbered { IsNumbered self.now.system }
        ensures made { AreMadeFor self.now.system self.now.journal }
    {
        self.book.replay_law();
    }
}
