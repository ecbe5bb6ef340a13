use clause_index::IndexedSystem;
use derivations::Facts;
use lemma_frames::Frames;
use obligation_tree::Tree;
use std::alloc::Global;
use std::marker::Model;

/// What stands in a book, lent to the rules of a step.
#[derive(Drop)]
pub struct Lent<'a> {
    pub alloc: Global,
    pub system: &'a IndexedSystem,
    pub given: u32,
    pub level: u32,
    pub spent: u32,
    /// How many entries the journal has.
    pub entries: u32,
    pub frames: &'a Frames,
    pub facts: &'a Facts,
    pub tree: &'a Tree,
}

impl<'a> Model for Lent<'a> {
    ghost use Rattle.step_rules.specs.Standing.{Standing};
    ghost use Rattle.lin_atoms.specs.contracts.form.Form as form;
    ghost use Rattle.std.specs.Coded.{codes};

    ghost Value = { Standing };

    ghost coded = { Prim.hlevel (codes, form.the_row.coded) };

    ghost view = { λ p. record { system = p.system.now; given = p.given; level = p.level; spent = p.spent; entries = p.entries; frames = p.frames.now; facts = p.facts.now; tree = p.tree.now } };
}
