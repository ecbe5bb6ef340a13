ghost use Rattle.std.specs.Prelude.{◌≡◌, ◌+◌, ◌<◌, ◌^◌, ◌++◌, [], ◌∷◌, length, None, OnOk, OnErr};
ghost use Rattle.term_check.specs.Spelling.{pred_from};

use base::{Items, Memory};
use indexmap::IndexSet;
use keyed_hash::KeyedState;
use std::alloc::Global;
use std::marker::Model;
use term_tree::Pred;

/// The declared predicates, numbered from 0 in their order, which is that of their names in a set. Their
/// names differ. They are found by hashes under a key, so that no choice of names makes it slow.
#[derive(Drop)]
pub struct Signature {
    alloc: Global,
    preds: Vec<Pred>,
    names: IndexSet<Vec<u8>, KeyedState>,
}

impl Model for Signature {
    ghost use Rattle.std.specs.Prelude.{List, map, ◌≡◌, ◌<◌, ◌^◌, vec_len};
    ghost use Rattle.term_tree.specs.declared.script.Pred.{Pred as APred};

    ghost Value = { List APred };

    ghost view = { λ s. s.preds.items };

    ghost invariant = { λ s. (vec_len s.preds < 2 ^ 32) × (map (λ key. key.items) s.names.keys ≡ map (λ p. p.name.bytes) s.preds.items) };
}

impl Signature {
    /// No predicates yet. Names are hashed under this key.
    pub fn new(alloc: Global, key: KeyedState) -> Signature
        ensures { result ≡ [] }
    {
        Signature {
            alloc,
            preds: Vec::new(alloc),
            names: IndexSet::with_hasher(alloc, key),
        }
    }

    /// The key under which names are hashed.
    pub fn key(&self) -> KeyedState {
        *self.names.hasher()
    }

    /// How many predicates are declared.
    pub fn len(&self) -> usize
        ensures count { result ≡ length self.now }
        ensures small { result < 2 ^ 32 }
    {
        self.preds.len()
    }

    /// The predicates in their order.
    pub fn preds(&self) -> &[Pred]
        ensures { result.now ≡ self.now }
    {
        self.preds.as_slice()
    }

    /// The number of the predicate of that name.
    pub fn number_of(&self, name: &[u8]) -> Option<u32>
        ensures { result ≡ pred_from 0 name.now self.now }
    {
        match self.names.get_index_of(name) {
            Some(number) => Some(number as u32),
            None => None,
        }
    }

    /// Declares a predicate whose name is new.
    pub fn declare(&mut self, pred: Pred) -> Result<(), Memory>
        requires room { length self.old + 1 < 2 ^ 32 }
        requires new { pred_from 0 pred.name.bytes self.old ≡ None }
        ensures declared { OnOk result (self.new ≡ self.old ++ pred ∷ []) }
        ensures unchanged { OnErr result (self.new ≡ self.old) }
    {
        let name = Vec::from_slice(self.alloc, pred.name.bytes.as_slice())?;
        self.preds.reserve(1)?;
        self.names.insert(name)?;
        self.preds.push(pred).unwrap();
        Ok(())
    }

    /// The predicates, to keep.
    pub fn into_preds(self) -> Items<Pred>
        ensures { result ≡ self }
    {
        Items::from_vec(self.preds)
    }
}
