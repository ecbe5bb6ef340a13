//! The text of a generated script is read as that script, term by term and with the same numbers.

use clause_gen::script_of;
use gen_text::text_of;
use sort_check::check_text;
use std::alloc::Global;
use std::process::Abort;
use std::test::Fail;
use term_tree::{Script, TermId};

/// Depths and seeds, among them the least and the greatest.
const CASES: [(u32, u32); 5] = [(0, 0), (8, 7), (12, 2_147_483_647), (3, 1), (1, 1_000_000)];

/// Both scripts have a node of that number, and it is the same.
fn check_node(
    rt: &impl Abort,
    alloc: Global,
    read: &Script,
    made: &Script,
    index: u32,
) -> Result<(), Fail> {
    assert!(rt; (index as usize) < read.terms.len(), "a node that is read");
    assert!(rt; (index as usize) < made.terms.len(), "a node that is made");
    let a = format!(in alloc; "{:?}", read.terms.node(TermId(index)))?;
    let b = format!(in alloc; "{:?}", made.terms.node(TermId(index)))?;
    assert!(rt; a == b);
    Ok(())
}

/// The scripts have equal nodes at equal numbers, and assert and declare the same.
fn are_alike(rt: &impl Abort, alloc: Global, read: &Script, made: &Script) -> Result<(), Fail> {
    assert_eq!(rt; read.terms.len(), made.terms.len());
    for index in 0..39u32 {
        check_node(rt, alloc, read, made, index)?;
    }
    let a = format!(in alloc; "{:?}", read.preds)?;
    let b = format!(in alloc; "{:?}", made.preds)?;
    assert!(rt; a == b);
    assert_eq!(rt; read.asserts.len(), 3);
    for (a, b) in read
        .asserts
        .as_slice()
        .iter()
        .zip(made.asserts.as_slice().iter())
    {
        assert!(rt; a.term.0 == b.term.0 && a.command == b.command);
    }
    Ok(())
}

fn check_case(rt: &impl Abort, alloc: Global, depth: u32, seed: u32) -> Result<(), Fail> {
    assert!(rt;
        depth <= 12 && seed < 2_147_483_648,
        "a case within the ranges"
    );
    let text = text_of(alloc, depth, seed)?;
    let bytes = text.as_slice();
    assert!(rt; bytes.len() <= 16_777_216, "a text within the limit");
    let checked = check_text(alloc, bytes)?;
    let made = script_of(alloc, depth, seed)?;
    assert!(rt; checked.stop.is_none());
    are_alike(rt, alloc, &checked.script, &made)
}

#[test]
fn texts_are_read_as_the_scripts(rt: HostRuntime) -> Result<(), Fail> {
    for (depth, seed) in CASES {
        check_case(&rt, rt.alloc(), depth, seed)?;
    }
    Ok(())
}
