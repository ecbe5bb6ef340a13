//! Tables across the ends of their blocks, with versions that are taken in between.

use cube_forms::Table;
use std::alloc::Global;
use std::mem;
use std::process::Abort;

/// An item that can't be copied: it has a list.
#[derive(Drop)]
struct Row {
    values: Vec<u32>,
}

fn made(rt: &impl Abort, alloc: Global, value: u32) -> Row {
    Row {
        values: Vec::from_array(alloc, [value]).expect(rt, "memory"),
    }
}

fn grow(rt: &impl Abort, alloc: Global, table: &mut Table<Row>, at: u32) {
    if at >= table.count() && table.count() < 10_000 {
        table.push(made(rt, alloc, at)).expect(rt, "memory");
    }
}

/// Adds rows until there are `count`, each with its place as its value.
fn fill(rt: &impl Abort, alloc: Global, table: &mut Table<Row>, count: u32) {
    for at in 0..count {
        grow(rt, alloc, table, at);
    }
}

fn value_at(table: &Table<Row>, at: u32) -> Option<u32> {
    if at < table.count() {
        table.get(at).values.first().copied()
    } else {
        None
    }
}

/// Whether each of `count` rows has its place as its value, and there are no others.
fn is_filled(table: &Table<Row>, count: u32) -> bool {
    for at in 0..count {
        if value_at(table, at) != Some(at) {
            return false;
        }
    }
    table.count() == count
}

/// Puts a value in a row's place, if it is there.
fn put(rt: &impl Abort, alloc: Global, table: &mut Table<Row>, at: u32, value: u32) {
    if at < table.count() {
        table.set(at, made(rt, alloc, value)).expect(rt, "memory");
    }
}

fn crosses_threads<X: Send + Sync>(_value: &X) {}

const COUNTS: [u32; 7] = [0, 1, 63, 64, 65, 4096, 4097];

/// Fills the table to each of these counts, and answers the versions there.
fn versions(rt: &impl Abort, alloc: Global, table: &mut Table<Row>) -> Vec<Table<Row>> {
    let mut versions = Vec::new(alloc);
    for count in COUNTS {
        fill(rt, alloc, table, count);
        assert!(rt; is_filled(table, count), "{count} rows");
        versions
            .push(table.share().expect(rt, "memory"))
            .expect(rt, "memory");
    }
    versions
}

#[test]
fn versions_on_the_ends_of_blocks_stay_as_they_were(rt: HostRuntime) {
    let mut table = Table::new(rt.alloc()).expect(&rt, "memory");
    crosses_threads(&table);
    let versions = versions(&rt, rt.alloc(), &mut table);
    fill(&rt, rt.alloc(), &mut table, 4200);
    for at in [0, 62, 63, 64, 4095, 4096] {
        put(&rt, rt.alloc(), &mut table, at, 9999);
    }
    for (version, count) in versions.iter().zip(COUNTS) {
        assert!(rt; is_filled(version, count), "the version of {count} rows");
    }
}

#[test]
fn a_write_reaches_its_own_place_of_its_own_version(rt: HostRuntime) {
    let mut table = Table::new(rt.alloc()).expect(&rt, "memory");
    fill(&rt, rt.alloc(), &mut table, 130);
    let mut other = table.share().expect(&rt, "memory");
    put(&rt, rt.alloc(), &mut table, 64, 1000);
    put(&rt, rt.alloc(), &mut table, 64, 1001);
    put(&rt, rt.alloc(), &mut other, 129, 2000);
    for (at, here, there) in [
        (0, Some(0), Some(0)),
        (63, Some(63), Some(63)),
        (64, Some(1001), Some(64)),
        (65, Some(65), Some(65)),
        (129, Some(129), Some(2000)),
        (130, None, None),
    ] {
        assert!(rt; value_at(&table, at) == here, "at {at}");
        assert!(rt; value_at(&other, at) == there, "at {at} of the other");
    }
    // the other test lets its tables go
    mem::forget(table);
    mem::forget(other);
}
