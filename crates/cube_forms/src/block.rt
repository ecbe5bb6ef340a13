ghost use Rattle.std.specs.Prelude.{◌≡◌, [], ◌∷◌, ◌++◌, ◌<◌, length, slice_index_or, slice_set, IfOk, OnOk, OnErr};

use crate::held::{Held, share_all};
use base::Memory;
use std::alloc::Global;
use std::marker::Model;

/// The most items of a block.
pub(crate) const SIZE: u32 = 64;

/// A few items of a table in a row. Contracts see it as their list.
pub(crate) struct Block<T> {
    items: Vec<Held<T>>,
}

impl<T: Drop> Drop for Block<T> {
    fn drop(self) {
        let Block { items: _ } = self;
    }
}

impl<T> Model for Block<T> {
    ghost use Rattle.std.specs.Prelude.{List};
    ghost use Rattle.std.specs.Coded.{coded_list};

    ghost Value = { List T };

    ghost coded = { coded_list T.code };

    ghost view = { λ b. b.items.items };
}

impl<T: Drop> Block<T> {
    /// A block of one item.
    pub(crate) fn one(alloc: Global, item: Held<T>) -> Result<Block<T>, Memory>
        ensures { IfOk result (λ block. block ≡ item ∷ []) }
    {
        let mut items = Vec::new(alloc);
        items.push(item)?;
        Ok(Block { items })
    }

    /// An equal block, with one more owner of each item, and room for one more.
    fn share(&self, alloc: Global) -> Result<Block<T>, Memory>
        ensures { IfOk result (λ block. block ≡ self.now) }
    {
        Ok(Block {
            items: share_all(alloc, self.items.as_slice())?,
        })
    }

    pub(crate) fn get(&self, at: usize) -> &T
        requires { at < length self.now }
        ensures { result.now ≡ slice_index_or self.now at result.now }
    {
        self.items[at].get()
    }

    fn push(&mut self, item: Held<T>) -> Result<(), Memory>
        ensures ok { OnOk result (self.new ≡ self.old ++ item ∷ []) }
        ensures err { OnErr result (self.new ≡ self.old) }
    {
        self.items.push(item)?;
        Ok(())
    }

    /// Puts another value in an item's place.
    fn set(&mut self, alloc: Global, at: usize, value: T) -> Result<(), Memory>
        requires { at < length self.old }
        ensures ok { OnOk result (self.new ≡ slice_set self.old at value) }
        ensures err { OnErr result (self.new ≡ self.old) }
    {
        self.items[at].set(alloc, value)
    }

    /// Puts another item in an item's place.
    fn replace(&mut self, at: usize, item: Held<T>)
        requires { at < length self.old }
        ensures { self.new ≡ slice_set self.old at item }
    {
        self.items[at] = item;
    }
}

/// Adds an item to a block: in place where nobody else owns the block, else to a version of its own
/// that shares the items.
pub(crate) fn push_to<T: Drop>(
    alloc: Global,
    block: &mut Held<Block<T>>,
    item: Held<T>,
) -> Result<(), Memory>
    ensures ok { OnOk result (block.new ≡ block.old ++ item ∷ []) }
    ensures err { OnErr result (block.new ≡ block.old) }
{
    match block.get_mut() {
        Some(own) => own.push(item),
        None => {
            let mut own = block.get().share(alloc)?;
            own.push(item)?;
            *block = Held::new(alloc, own)?;
            Ok(())
        }
    }
}

/// Puts another value in an item's place: of the block where nobody else owns it, else of a version
/// of its own that shares the other items.
pub(crate) fn set_in<T: Drop>(
    alloc: Global,
    block: &mut Held<Block<T>>,
    at: usize,
    value: T,
) -> Result<(), Memory>
    requires { at < length block.old }
    ensures ok { OnOk result (block.new ≡ slice_set block.old at value) }
    ensures err { OnErr result (block.new ≡ block.old) }
{
    match block.get_mut() {
        Some(own) => own.set(alloc, at, value),
        None => {
            let item = Held::new(alloc, value)?;
            let mut own = block.get().share(alloc)?;
            own.replace(at, item);
            *block = Held::new(alloc, own)?;
            Ok(())
        }
    }
}
