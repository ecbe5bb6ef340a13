ghost use Rattle.std.specs.Prelude.{◌≡◌, ◌↔◌, [], ◌∷◌, ◌++◌, ◌<◌, ◌-◌, ◌^◌, length, IfOk, OnOk, OnErr, IsTrue};
ghost use Rattle.lemma_frames.specs.Frames.{IsBare, IsFrame, IsUpper, lemma_of, level_of, lifted, pred_of};

use crate::bare::is_bare;
use crate::framed::{Framed, lemma_at, level_at, pred_at};
use crate::listed::listed;
use crate::rank::rank;
use crate::rows::{Row, add_in, lift_in, row_of};
use base::{Items, Memory};
use cube_forms::{Held, Lemma, Table, share_all};
use std::alloc::Global;
use std::marker::Model;

/// The lemmas of a book, numbered from 0 in the order in which they came, each with its predicate
/// and its level. A version that is shared stays as it is.
pub struct Frames {
    lemmas: Table<Framed>,
    rows: Vec<Row>,
}

impl Drop for Frames {
    fn drop(self) {
        let Frames { lemmas: _, rows: _ } = self;
    }
}

impl Model for Frames {
    ghost use Rattle.std.specs.Prelude.{length};
    ghost use Rattle.lemma_frames.specs.Frames.{Lemmas};
    ghost use Rattle.lemma_frames.specs.machinery.Index.{IsIndexed};

    ghost Value = { Lemmas };

    ghost view = { λ f. record { preds = length f.rows.items; lemmas = f.lemmas } };

    ghost invariant = { λ f. IsIndexed f.rows.items f.lemmas };
}

impl Frames {
    /// No lemmas, over `preds` predicates.
    pub fn new(alloc: Global, preds: u32) -> Result<Frames, Memory>
        ensures { IfOk result (λ frames. frames ≡ record { preds = preds; lemmas = [] }) }
    {
        let lemmas = Table::new(alloc)?;
        let mut rows = Vec::with_capacity(alloc, preds as usize)?;
        for _ in 0..preds {
            rows.push(Held::new(alloc, Items::new(alloc))?)?;
        }
        Ok(Frames { lemmas, rows })
    }

    /// How many lemmas there are: their numbers are those below it.
    pub fn count(&self) -> u32
        ensures { result ≡ length self.now.lemmas }
    {
        self.lemmas.count()
    }

    /// How many predicates there are.
    pub fn preds(&self) -> usize
        ensures { result ≡ self.now.preds }
    {
        self.rows.len()
    }

    /// A lemma by its number.
    pub fn lemma(&self, id: u32) -> &Lemma
        requires { id < length self.now.lemmas }
        ensures { result.now ≡ lemma_of self.now.lemmas id }
    {
        lemma_at(&self.lemmas, id).get()
    }

    /// The level of a lemma.
    pub fn level_of(&self, id: u32) -> u32
        requires { id < length self.now.lemmas }
        ensures { result ≡ level_of self.now.lemmas id }
    {
        level_at(&self.lemmas, id)
    }

    /// The predicate on which a lemma stands.
    pub fn pred_of(&self, id: u32) -> u32
        requires { id < length self.now.lemmas }
        ensures pred { result ≡ pred_of self.now.lemmas id }
        ensures there { result < self.now.preds }
    {
        pred_at(&self.lemmas, id)
    }

    /// The lemmas of a predicate and of this level or more, in order of number.
    pub fn at_level(&self, pred: u32, level: u32) -> Result<Vec<u32>, Memory>
        requires { pred < self.now.preds }
        ensures { IfOk result (λ numbers. IsFrame self.now.lemmas pred level numbers.items) }
    {
        let alloc = *self.rows.allocator();
        listed(alloc, &self.lemmas, pred, level)
    }

    /// The lemmas of a predicate and of this level or more, by level downwards, and within a level by
    /// number upwards. They are lent, and found in the logarithm of the predicate's lemmas.
    pub fn upper(&self, pred: u32, level: u32) -> &[u32]
        requires pred { pred < self.now.preds }
        requires level { 0 < level }
        ensures { IsUpper self.now.lemmas pred level result.now }
    {
        let row = row_of(&self.rows, pred);
        let end = rank(&self.lemmas, row, level - 1, 0);
        &row[..end]
    }

    /// Whether no lemma has exactly this level. It takes one search in each predicate's lemmas.
    pub fn level_is_bare(&self, level: u32) -> bool
        ensures { IsTrue result ↔ IsBare self.now.lemmas level }
    {
        is_bare(&self.lemmas, self.rows.as_slice(), level)
    }

    /// An equal version, which shares all lemmas. It costs a count for each 64 of them and for each
    /// predicate.
    pub fn share(&self) -> Result<Frames, Memory>
        ensures { IfOk result (λ frames. frames ≡ self.now) }
    {
        let alloc = *self.rows.allocator();
        let lemmas = self.lemmas.share()?;
        let rows = share_all(alloc, self.rows.as_slice())?;
        Ok(Frames { lemmas, rows })
    }

    /// Adds a lemma, and answers its number.
    pub fn add(&mut self, pred: u32, lemma: Lemma, level: u32) -> Result<u32, Memory>
        requires pred { pred < self.old.preds }
        requires room { length self.old.lemmas < 2 ^ 32 - 1 }
        ensures number { IfOk result (λ number. number ≡ length self.old.lemmas) }
        ensures ok { OnOk result (self.new ≡ record self.old { lemmas = self.old.lemmas ++ (record { pred = pred; level = level; lemma = lemma }) ∷ [] }) }
        ensures err { OnErr result (self.new ≡ self.old) }
    {
        let alloc = *self.rows.allocator();
        let number = self.lemmas.count();
        let lemma = Held::new(alloc, lemma)?;
        let framed = Framed { pred, level, lemma };
        add_in(alloc, &mut self.lemmas, &mut self.rows, framed)?;
        Ok(number)
    }

    /// Raises a lemma by one level.
    pub fn lift(&mut self, id: u32) -> Result<(), Memory>
        requires there { id < length self.old.lemmas }
        requires room { level_of self.old.lemmas id < 2 ^ 32 - 1 }
        ensures ok { OnOk result (self.new ≡ record self.old { lemmas = lifted self.old.lemmas id }) }
        ensures err { OnErr result (self.new ≡ self.old) }
    {
        let alloc = *self.rows.allocator();
        lift_in(alloc, &mut self.lemmas, &mut self.rows, id)?;
        Ok(())
    }
}
