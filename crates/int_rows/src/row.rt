ghost use Rattle.std.specs.Prelude.{◌≡◌, ◌<◌, length, true, false, IfSome, IsSome, IsNone};
ghost use Rattle.int_rows.specs.Rows.{entry, is_row};

use crate::content::{are_short, content};
use base::{Copied, Items, Memory, Same};
use std::alloc::Global;
use std::marker::Model;

/// A primitive row: integers below 2^63 in magnitude that only 1 divides. It stands for the
/// equation that the sum of its entries times the variables is 0.
#[derive(Drop)]
pub struct Row {
    entries: Items<i64>,
}

impl Model for Row {
    ghost use Rattle.std.specs.Prelude.{List, ℤ, IsTrue};
    ghost use Rattle.int_rows.specs.Rows.{are_short, is_primitive};

    ghost Value = { List ℤ };

    ghost view = { λ r. r.entries };

    ghost invariant = { λ r. IsTrue (are_short r.entries) × IsTrue (is_primitive r.entries) };
}

impl Row {
    /// The row of these entries, unless one has no room or another number than 1 divides them.
    pub fn new(entries: Vec<i64>) -> Option<Row>
        ensures made { IfSome result (λ row. row ≡ entries.items) }
        ensures legal { IsSome result → is_row entries.items ≡ true }
        ensures none { IsNone result → is_row entries.items ≡ false }
    {
        if !are_short(entries.as_slice()) || content(entries.as_slice()) != 1 {
            return None;
        }
        Some(Row {
            entries: Items::from_vec(entries),
        })
    }

    /// The entries, in order of the variables' numbers.
    pub fn entries(&self) -> &[i64]
        ensures is { result.now ≡ self.now }
        ensures legal { is_row self.now ≡ true }
    {
        self.entries.as_slice()
    }

    /// How many entries there are.
    pub fn len(&self) -> usize
        ensures { result ≡ length self.now }
    {
        self.entries.len()
    }

    /// The entry of a variable.
    pub fn entry(&self, variable: usize) -> i64
        requires { variable < length self.now }
        ensures { result ≡ entry self.now variable }
    {
        self.entries.as_slice()[variable]
    }
}

impl Same for Row {
    fn equals(&self, other: &Row) -> bool {
        self.entries.equals(&other.entries)
    }
}

impl Copied for Row {
    fn copy(&self, alloc: Global) -> Result<Row, Memory> {
        Ok(Row {
            entries: self.entries.copy(alloc)?,
        })
    }
}
