ghost use Rattle.std.specs.Prelude.{◌≡◌, [], ◌∷◌, ◌++◌, ◌<◌, ◌+◌, ◌-◌, ◌^◌, length, slice_index_or, slice_set, Ok, IfOk, OnOk, OnErr};
ghost use Rattle.cube_forms.specs.machinery.Blocks.{joined, AreFilled};

use crate::block::{Block, SIZE, push_to, set_in};
use crate::held::{Held, share_all};
use base::Memory;
use std::alloc::Global;
use std::marker::Model;

/// A list whose versions share what they have in common: a version costs a count for each block of
/// 64 items, and a change of one leaves the others as they are. Items are never copied. Contracts
/// see it as the list.
pub struct Table<T> {
    blocks: Vec<Held<Block<T>>>,
    count: u32,
}

impl<T: Drop> Drop for Table<T> {
    fn drop(self) {
        let Table {
            blocks: _,
            count: _,
        } = self;
    }
}

impl<T> Model for Table<T> {
    ghost use Rattle.std.specs.Prelude.{List};
    ghost use Rattle.std.specs.Coded.{coded_list};
    ghost use Rattle.cube_forms.specs.machinery.Blocks.{joined, AreFilled};

    ghost Value = { List T };

    ghost coded = { coded_list T.code };

    ghost view = { λ t. joined t.blocks.items };

    ghost invariant = { λ t. AreFilled t.count t.blocks.items };
}

impl<T: Drop> Table<T> {
    /// A table without items.
    pub fn new(alloc: Global) -> Result<Table<T>, Memory>
        ensures { result ≡ Ok [] }
    {
        Ok(Table {
            blocks: Vec::new(alloc),
            count: 0,
        })
    }

    /// How many items there are.
    pub fn count(&self) -> u32
        ensures { result ≡ length self.now }
    {
        self.count
    }

    /// An equal table, which shares all blocks.
    pub fn share(&self) -> Result<Table<T>, Memory>
        ensures { IfOk result (λ table. table ≡ self.now) }
    {
        let alloc = *self.blocks.allocator();
        Ok(Table {
            blocks: share_all(alloc, self.blocks.as_slice())?,
            count: self.count,
        })
    }

    /// The item at a place.
    pub fn get(&self, at: u32) -> &T
        requires { at < length self.now }
        ensures { result.now ≡ slice_index_or self.now at result.now }
    {
        let block = (at / SIZE) as usize;
        let place = (at % SIZE) as usize;
        self.blocks[block].get().get(place)
    }

    /// Adds an item at the end.
    pub fn push(&mut self, item: T) -> Result<(), Memory>
        requires { length self.old < 2 ^ 32 - 1 }
        ensures ok { OnOk result (self.new ≡ self.old ++ item ∷ []) }
        ensures err { OnErr result (self.new ≡ self.old) }
    {
        let alloc = *self.blocks.allocator();
        let item = Held::new(alloc, item)?;
        add(alloc, &mut self.blocks, self.count, item)?;
        self.count += 1;
        Ok(())
    }

    /// Puts another item in the place of one.
    pub fn set(&mut self, at: u32, item: T) -> Result<(), Memory>
        requires { at < length self.old }
        ensures ok { OnOk result (self.new ≡ slice_set self.old at item) }
        ensures err { OnErr result (self.new ≡ self.old) }
    {
        let alloc = *self.blocks.allocator();
        let block = (at / SIZE) as usize;
        let place = (at % SIZE) as usize;
        set_in(alloc, &mut self.blocks[block], place, item)?;
        Ok(())
    }
}

/// Adds an item to the last block, or where that is full as a block of its own.
fn add<T: Drop>(
    alloc: Global,
    blocks: &mut Vec<Held<Block<T>>>,
    count: u32,
    item: Held<T>,
) -> Result<(), Memory>
    requires { AreFilled count blocks.old.items }
    ensures items { OnOk result (joined blocks.new.items ≡ joined blocks.old.items ++ item ∷ []) }
    ensures filled { OnOk result (AreFilled (count + 1) blocks.new.items) }
    ensures err { OnErr result (blocks.new.items ≡ blocks.old.items) }
{
    if count % SIZE == 0 {
        let block = Block::one(alloc, item)?;
        blocks.push(Held::new(alloc, block)?)?;
        Ok(())
    } else {
        let last = (count / SIZE) as usize;
        push_to(alloc, &mut blocks[last], item)?;
        Ok(())
    }
}
