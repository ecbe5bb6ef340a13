ghost use Rattle.std.specs.Prelude.{◌≡◌, ◌↔◌, [], ◌∷◌, ◌++◌, ◌<◌, ◌-◌, ◌^◌, ℕ, Some, length, slice_index_or, IfOk, OnOk, OnErr};
ghost use Rattle.std.specs.List.{All};
ghost use Rattle.derivations.specs.Facts.{AreOf, AreRecorded, AreSteps, AreUnder, Concludes, IsBare, height_of};

use crate::fact::Fact;
use crate::marks::steps;
use crate::notes::Notes;
use crate::parts::sought;
use crate::rows::{Rows, add_in, by_number, by_tuple, keys_by_tuple, parts_of};
use crate::search::begun;
use base::Memory;
use cube_forms::share_all;
use std::alloc::Global;
use std::marker::Model;

/// The facts of a book, numbered from 0 in the order in which they came. No conclusion is recorded
/// twice, and premises are earlier facts. A version that is shared stays as it is.
pub struct Facts {
    notes: Notes,
    rows: Rows,
}

impl Drop for Facts {
    fn drop(self) {
        let Facts { notes: _, rows: _ } = self;
    }
}

impl Model for Facts {
    ghost use Rattle.std.specs.Prelude.{List};
    ghost use Rattle.derivations.specs.declared.fact.Fact.{Fact};
    ghost use Rattle.derivations.specs.machinery.Index.{IsIndexed};

    ghost Value = { List Fact };

    ghost view = { λ f. f.notes };

    ghost invariant = { λ f. IsIndexed f.rows.items f.notes };
}

impl Facts {
    /// No facts.
    pub fn new(alloc: Global) -> Result<Facts, Memory>
        ensures { IfOk result (λ facts. facts ≡ []) }
    {
        let notes = Notes::new(alloc)?;
        Ok(Facts {
            notes,
            rows: Vec::new(alloc),
        })
    }

    /// How many facts there are: their numbers are those below it.
    pub fn count(&self) -> u32
        ensures { result ≡ length self.now }
    {
        self.notes.count()
    }

    /// A fact by its number.
    pub fn fact(&self, id: u32) -> &Fact
        requires { id < length self.now }
        ensures { result.now ≡ slice_index_or self.now id result.now }
    {
        self.notes.fact(id)
    }

    /// 1 plus the greatest height of the fact's premises, 0 for none.
    pub fn height(&self, id: u32) -> u32
        requires { id < length self.now }
        ensures { result ≡ height_of self.now id }
    {
        self.notes.height(id)
    }

    /// The number of the fact that this tuple is in this predicate. It takes no memory, and
    /// looks into as many maps as the logarithm of the number of the predicate's facts at most.
    pub fn find(&self, pred: u32, tuple: &[i64]) -> Option<u32>
        ensures { (n : ℕ) → (result ≡ Some n) ↔ Concludes self.now n (Some pred) tuple.now }
    {
        sought(parts_of(&self.rows, pred), tuple)
    }

    /// The facts of a predicate, in order of number. They are lent.
    pub fn of(&self, pred: u32) -> &[u32]
        ensures { AreOf self.now pred result.now }
    {
        by_number(&self.rows, pred)
    }

    /// The facts of a predicate whose tuples begin with these values, in order of tuple. They are lent,
    /// and found in the logarithm of the predicate's facts and their own number.
    pub fn under(&self, pred: u32, front: &[i64]) -> &[u32]
        ensures { AreUnder self.now pred front.now result.now }
    {
        let row = by_tuple(&self.rows, pred);
        let keys = keys_by_tuple(&self.rows, pred);
        begun(&self.notes, row, keys, front)
    }

    /// Exactly the facts on which a fact rests, itself the last, in order of number.
    pub fn steps_to(&self, id: u32) -> Result<Vec<u32>, Memory>
        requires { id < length self.now }
        ensures { IfOk result (λ steps. AreSteps self.now id steps.items) }
    {
        let alloc = *self.rows.allocator();
        steps(alloc, &self.notes, id)
    }

    /// Tells that premises are earlier facts, that no conclusion is recorded twice, and that false has
    /// no tuple: so it is recorded once at most.
    pub fn record_law(&self)
        ensures { AreRecorded self.now }
    {
        let _notes = &self.notes;
    }

    /// An equal version, which shares all facts. It costs a count for each 64 of them and for each
    /// predicate.
    pub fn share(&self) -> Result<Facts, Memory>
        ensures { IfOk result (λ facts. facts ≡ self.now) }
    {
        let alloc = *self.rows.allocator();
        let notes = self.notes.share()?;
        let rows = share_all(alloc, self.rows.as_slice())?;
        Ok(Facts { notes, rows })
    }

    /// Adds a fact, and answers its number. Its premises are there, and its conclusion isn't; that of
    /// false has no tuple.
    pub fn add(&mut self, fact: Fact) -> Result<u32, Memory>
        requires there { All (λ p. p < length self.old) fact.premises }
        requires fresh { (n : ℕ) → Concludes self.old n fact.pred fact.tuple → ⊥ }
        requires bare { IsBare fact }
        requires room { length self.old < 2 ^ 32 - 1 }
        ensures number { IfOk result (λ number. number ≡ length self.old) }
        ensures ok { OnOk result (self.new ≡ self.old ++ fact ∷ []) }
        ensures err { OnErr result (self.new ≡ self.old) }
    {
        let alloc = *self.rows.allocator();
        let number = self.notes.count();
        add_in(alloc, &mut self.notes, &mut self.rows, fact)?;
        Ok(number)
    }
}
