ghost use Rattle.std.specs.Cmp.Lexicographic.{pointwise, lists_equiv};
ghost use Rattle.std.specs.Cmp.Rules.{comparing, hashing};
ghost use Rattle.std.specs.Hash as fed;
ghost use Rattle.std.specs.Hash.{items_Alike};
ghost use Rattle.std.specs.Ordering.{int_eq};
ghost use Rattle.std.proofs.Common.{rules};
ghost use Rattle.std.proofs.lemmas.Cmp.{int_eq_equiv};

use base::Memory;
use cube_forms::{Held, Tuple};
use indexmap::Equivalent;
use std::hash::{Hash, Hasher};
use std::marker::Model;

/// A tuple as the key of maps, which share it.
pub(crate) struct Key {
    pub(crate) tuple: Held<Tuple>,
}

impl Drop for Key {
    fn drop(self) {
        let Key { tuple: _ } = self;
    }
}

impl Model for Key {
    ghost use Rattle.std.specs.Prelude.{List, ℤ};

    ghost Value = { List ℤ };

    ghost view = { λ k. k.tuple };
}

impl Key {
    ghost use Rattle.std.specs.Prelude.{◌≡◌, IfOk};

    /// An equal key, which shares the tuple.
    pub(crate) fn share(&self) -> Result<Key, Memory>
        ensures { IfOk result (λ key. key ≡ self.now) }
    {
        Ok(Key {
            tuple: self.tuple.share()?,
        })
    }

    fn as_slice(&self) -> &[i64]
        ensures { result.now ≡ self.now }
    {
        self.tuple.get().as_slice()
    }
}

impl PartialEq for Key {
    ghost eq = { pointwise int_eq };

    ghost laws = { Prim.search (comparing, rules) };

    fn eq(&self, other: &Key) -> bool {
        self.as_slice() == other.as_slice()
    }
}

impl Eq for Key {
    ghost laws = { lists_equiv int_eq_equiv };
}

impl Hash for Key {
    ghost hash_input = { fed.slice fed.i64 };

    ghost respects_eq = { Prim.search (hashing, rules) };

    fn hash<H: Hasher>(&self, state: &mut H) {
        self.as_slice().hash(state);
    }
}

impl Equivalent<Key> for &[i64] {
    ghost equivalent = { λ q k. pointwise int_eq q.now k };

    ghost respects_hash = { λ q k. (items_Alike {E = int_eq} {F = fed.i64} (Prim.search (hashing, rules))).fed q.now k };

    ghost respects_eq = { λ q x y. (lists_equiv int_eq_equiv).congr q.now x y };

    fn equivalent(&self, key: &Key) -> bool {
        *self == key.as_slice()
    }
}
