ghost use Rattle.std.specs.Prelude.{◌≡◌, ◌++◌, [], ◌∷◌, true, OnOk};
ghost use Rattle.answer_text.specs.Reading.{is_new};

use base::{Items, Memory};
use indexmap::IndexSet;
use keyed_hash::{KeyedState, NameKey};
use std::alloc::Global;
use std::marker::Model;
use term_tree::{Name, Sort};

/// The parameters of a definition so far, each found by its name, by hashes under a key, so that no choice
/// of names makes it slow.
#[derive(Drop)]
pub struct Found<'a> {
    params: Vec<(Name, Sort)>,
    names: IndexSet<NameKey<'a>, KeyedState>,
}

impl<'a> Model for Found<'a> {
    ghost use Rattle.std.specs.Prelude.{◌≡◌, List, map};
    ghost use Rattle.term_tree.specs.declared.script.Name.{Name as AName};
    ghost use Rattle.term_tree.specs.declared.sort.Sort.{Sort as ASort};

    ghost Value = { List (AName × ASort) };

    ghost view = { λ f. f.params.items };

    ghost invariant = { λ f. map (λ key. key.bytes.now) f.names.keys ≡ map (λ p. p.0.bytes) f.params.items };
}

impl<'a> Found<'a> {
    /// No parameters yet. Names are hashed under this key.
    pub fn new(alloc: Global, key: KeyedState) -> Found<'a>
        ensures { result ≡ [] }
    {
        Found {
            params: Vec::new(alloc),
            names: IndexSet::with_hasher(alloc, key),
        }
    }

    /// Whether no parameter has that name.
    pub fn is_new(&self, name: &[u8]) -> bool
        ensures { result ≡ is_new self.now name.now }
    {
        !self.names.contains(&NameKey { bytes: name })
    }

    /// Adds a parameter whose name is new.
    pub fn add(&mut self, alloc: Global, name: &'a [u8], sort: Sort) -> Result<(), Memory>
        requires { is_new self.old name.now ≡ true }
        ensures { OnOk result (self.new ≡ self.old ++ (record { bytes = name.now }, sort) ∷ []) }
    {
        let bytes = Items::from_slice(alloc, name)?;
        self.params.reserve(1)?;
        self.names.insert(NameKey { bytes: name })?;
        self.params.push((Name { bytes }, sort)).unwrap();
        Ok(())
    }

    /// The parameters, to keep.
    pub fn into_items(self) -> Items<(Name, Sort)>
        ensures { result ≡ self.entry }
    {
        Items::from_vec(self.params)
    }
}
