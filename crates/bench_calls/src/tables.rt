//! For `bench/tables.sh`: pushes into a table of `cube_forms`, with versions between them.

ghost use Rattle.std.specs.Prelude.{◌<◌};

use base::Memory;
use cube_forms::Table;
use std::alloc::Global;

/// An item with a list of four numbers.
#[derive(Drop)]
struct Row {
    values: Vec<u32>,
}

fn made(alloc: Global, value: u32) -> Result<Row, Memory> {
    let mut values = Vec::with_capacity(alloc, 4)?;
    values.extend_from_slice(&[value, value, value, value])?;
    Ok(Row { values })
}

/// The first number of the item at a place, if it is there.
fn value_at(table: &Table<Row>, at: u32) -> u64 {
    if at >= table.count() {
        return 0;
    }
    match table.get(at).values.first() {
        Some(value) => u64::from(*value),
        None => 0,
    }
}

/// Pushes `pushes` items, with a new version after every `every` items, and adds up what the versions'
/// last items are.
fn pushed(alloc: Global, pushes: u32, every: u32) -> Result<u64, Memory>
    requires { 0 < every }
{
    let mut table = Table::new(alloc)?;
    let mut version = table.share()?;
    let mut total: u64 = 0;
    for at in 0..pushes {
        if table.count() < u32::MAX {
            table.push(made(alloc, at)?)?;
        }
        if at % every == every - 1 {
            version = table.share()?;
            total = total.wrapping_add(value_at(&version, at));
        }
    }
    Ok(total)
}

/// Pushes `pushes` items into a table, with a share after every `every` items. Returns the sum of the
/// shares' last items, and 0 for want of memory.
#[unsafe(no_mangle)]
pub extern "C" fn cube_forms_pushes(alloc: Global, pushes: u32, every: u32) -> u64 {
    if every == 0 {
        return 0;
    }
    match pushed(alloc, pushes, every) {
        Ok(total) => total,
        Err(_) => 0,
    }
}
