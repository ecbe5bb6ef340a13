ghost use Rattle.std.specs.Prelude.{◌≡◌, IfOk, IfSome, OnOk, OnErr};
ghost use Rattle.std.specs.Borrow.{LendsIf, sem};
ghost use Rattle.cube_forms.specs.contracts.held.Held.{the_row};

use base::Memory;
use std::alloc::Global;
use std::marker::Model;
use std::sync::Arc;

/// A value with several owners. Contracts see the value alone, so two owners of one value are
/// equal.
pub struct Held<T> {
    inner: Arc<T>,
}

impl<T: Drop> Drop for Held<T> {
    fn drop(self) {
        let Held { inner: _ } = self;
    }
}

impl<T> Model for Held<T> {
    ghost use Rattle.std.specs.Arc.{arc_value};

    ghost Value = { T };

    ghost coded = { T.code };

    ghost view = { λ h. arc_value h.inner };
}

impl<T> Held<T> {
    /// The value.
    pub fn get(&self) -> &T
        ensures { result.now ≡ self.now }
    {
        &self.inner
    }

    /// One more owner of the same value. Nothing is copied.
    pub fn share(&self) -> Result<Held<T>, Memory>
        ensures { IfOk result (λ held. held ≡ self.now) }
    {
        Ok(Held {
            inner: Arc::try_clone(&self.inner)?,
        })
    }

    /// The value to change in place, where this is its one owner. Where it isn't, make a new value
    /// and a new owner of it.
    pub fn get_mut(&mut self) -> Option<&mut T>
        ensures* writes_back { sem 𝓛 (LendsIf (the_row T.row) T.row self.entry result (λ w. w) self.old) }
        ensures value { IfSome result (λ x. x.now ≡ self.old) }
    {
        Arc::get_mut(&mut self.inner)
    }
}

impl<T: Drop> Held<T> {
    /// The first owner of a value.
    pub fn new(alloc: Global, value: T) -> Result<Held<T>, Memory>
        ensures { IfOk result (λ held. held ≡ value) }
    {
        Ok(Held {
            inner: Arc::new(alloc, value)?,
        })
    }

    /// Owns another value from now on: in the old one's place, where this was its one owner.
    pub fn set(&mut self, alloc: Global, value: T) -> Result<(), Memory>
        ensures ok { OnOk result (self.new ≡ value) }
        ensures err { OnErr result (self.new ≡ self.old) }
    {
        match self.get_mut() {
            Some(place) => *place = value,
            None => *self = Held::new(alloc, value)?,
        }
        Ok(())
    }
}

/// One more owner of each value, in a list with room for one more.
pub fn share_all<T: Drop>(alloc: Global, held: &[Held<T>]) -> Result<Vec<Held<T>>, Memory>
    ensures { IfOk result (λ shares. shares.items ≡ held.now) }
{
    let mut shares = Vec::with_capacity(alloc, held.len() + 1)?;
    for one in held {
        shares.push(one.share()?)?;
    }
    Ok(shares)
}
