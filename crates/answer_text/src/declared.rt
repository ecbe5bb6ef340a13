ghost use Rattle.std.specs.Prelude.{◌≡◌, ◌<◌, ◌^◌, length, IfOk};
ghost use Rattle.std.specs.Option.{IfSome};
ghost use Rattle.term_check.specs.Spelling.{pred_from, sorts_of};
ghost use Rattle.answer_text.specs.machinery.Places.{AreNumbers};
ghost use Rattle.answer_text.specs.Reading.{arity};

use base::Memory;
use indexmap::IndexMap;
use keyed_hash::{KeyedState, NameKey};
use std::alloc::Global;
use std::marker::Model;
use term_tree::{Pred, Sort};

/// The declared predicates, by number, and each found by its name, by hashes under a key, so that no choice
/// of names makes it slow.
#[derive(Drop)]
pub struct Declared<'a> {
    preds: &'a [Pred],
    numbers: IndexMap<NameKey<'a>, u32, KeyedState>,
}

impl<'a> Model for Declared<'a> {
    ghost use Rattle.std.specs.Prelude.{List, ◌<◌, ◌^◌, length};
    ghost use Rattle.term_tree.specs.declared.script.Pred.{Pred as APred};
    ghost use Rattle.answer_text.specs.machinery.Places.{AreNumbers};

    ghost Value = { List APred };

    ghost view = { λ d. d.preds.now };

    ghost invariant = { λ d. (length d.preds.now < 2 ^ 32) × AreNumbers 0 d.preds.now d.numbers.entries };
}

impl<'a> Declared<'a> {
    /// These predicates. Names are hashed under this key.
    pub fn new(alloc: Global, key: KeyedState, preds: &'a [Pred]) -> Result<Declared<'a>, Memory>
        requires { length preds.now < 2 ^ 32 }
        ensures { IfOk result (λ declared. declared ≡ preds.now) }
    {
        let numbers = numbers_of(alloc, key, preds)?;
        Ok(Declared { preds, numbers })
    }

    /// The key under which names are hashed.
    pub fn key(&self) -> KeyedState {
        *self.numbers.hasher()
    }

    /// How many predicates there are.
    pub fn len(&self) -> usize
        ensures { result ≡ length self.now }
    {
        self.preds.len()
    }

    /// The number of the predicate of that name.
    pub fn number_of(&self, name: &[u8]) -> Option<u32>
        ensures number { result ≡ pred_from 0 name.now self.now }
        ensures within { IfSome result (λ number. number < length self.now) }
    {
        match self.numbers.get(&NameKey { bytes: name }) {
            Some(number) => Some(*number),
            None => None,
        }
    }

    /// The sorts of the arguments of the predicate of that number.
    pub fn sorts_of(&self, number: u32) -> &'a [Sort]
        ensures { result.now ≡ sorts_of self.now number }
    {
        match self.preds.get(number as usize) {
            Some(pred) => pred.args.as_slice(),
            None => &[],
        }
    }

    /// How many arguments it has.
    pub fn arity(&self, number: u32) -> usize
        ensures { result ≡ arity self.now number }
    {
        self.sorts_of(number).len()
    }
}

/// The numbers of the predicates by their names. The first of a name is the last that is put in.
fn numbers_of<'a>(
    alloc: Global,
    key: KeyedState,
    preds: &'a [Pred],
) -> Result<IndexMap<NameKey<'a>, u32, KeyedState>, Memory>
    requires { length preds.now < 2 ^ 32 }
    ensures { IfOk result (λ numbers. AreNumbers 0 preds.now numbers.entries) }
{
    let mut numbers = IndexMap::with_hasher(alloc, key);
    let mut number = preds.len();
    while number > 0 {
        number -= 1;
        let bytes = preds[number].name.bytes.as_slice();
        numbers.insert(NameKey { bytes }, number as u32)?;
    }
    Ok(numbers)
}
