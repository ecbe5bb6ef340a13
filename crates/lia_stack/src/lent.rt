ghost use Rattle.std.specs.Prelude.{◌≡◌};

use base::{Copied, Memory};
use std::alloc::Global;
use std::marker::Model;

/// A part of the form that is searched. Contracts see the part alone, and a copy lends it once more.
#[derive(Drop)]
pub struct Lent<'a, T> {
    inner: &'a T,
}

impl<'a, T> Model for Lent<'a, T> {
    ghost Value = { T };

    ghost coded = { T.code };

    ghost view = { λ l. l.inner.now };
}

impl<'a, T> Lent<'a, T> {
    /// Lends a part.
    pub(crate) fn new(part: &'a T) -> Lent<'a, T>
        ensures { result ≡ part.now }
    {
        Lent { inner: part }
    }

    /// The part.
    pub(crate) fn get(&self) -> &'a T
        ensures { result.now ≡ self.now }
    {
        self.inner
    }
}

impl<'a, T> Copied for Lent<'a, T> {
    fn copy(&self, _alloc: Global) -> Result<Lent<'a, T>, Memory> {
        Ok(Lent { inner: self.inner })
    }
}
