//! Words and what they say, each text cut at its spaces.

use call_words::{Limits, Words, words_of};
use std::alloc::Global;
use std::test::Fail;

fn solve(workers: u32, units: u32, nodes: u32) -> Option<Words> {
    Some(Words::Solve(Limits {
        workers,
        units,
        nodes,
    }))
}

fn check(nodes: u32) -> Option<Words> {
    Some(Words::Check { nodes })
}

fn gen_of(depth: u32, seed: u32) -> Option<Words> {
    Some(Words::Gen { depth, seed })
}

/// What the words of this text say.
fn said(alloc: Global, text: &str) -> Result<Option<Words>, Fail> {
    let mut words = Vec::new(alloc);
    for word in text.split(' ') {
        words.push(String::from_str(alloc, word)?)?;
    }
    Ok(words_of(alloc, words.as_slice())?)
}

#[test]
fn options_stand_in_any_order_and_in_both_spellings(rt: HostRuntime) -> Result<(), Fail> {
    let alloc = rt.alloc();
    assert!(rt; said(alloc, "solve")? == solve(1, 50_000, 2_000));
    assert!(rt; said(alloc, "solve --nodes=7 --units 5")? == solve(1, 5, 7));
    assert!(rt; said(alloc, "solve --units=5 --workers 1 --nodes 10000")? == solve(1, 5, 10_000));
    assert!(rt; said(alloc, "solve --workers=1 --units=0")? == solve(1, 0, 2_000));
    assert!(rt; said(alloc, "solve --workers 64")? == solve(64, 50_000, 2_000));
    assert!(rt; said(alloc, "solve --units 1000000 --")? == solve(1, 1_000_000, 2_000));
    assert!(rt; said(alloc, "check")? == check(2_000));
    assert!(rt; said(alloc, "check --nodes=1")? == check(1));
    assert!(rt; said(alloc, "gen --seed 2147483647 --depth=12")? == gen_of(12, 2_147_483_647));
    assert!(rt; said(alloc, "gen --depth 0 --seed 0")? == gen_of(0, 0));
    Ok(())
}

#[test]
fn other_words_are_no_call(rt: HostRuntime) -> Result<(), Fail> {
    let alloc = rt.alloc();
    let texts =
        "solve --units 5 --units 5|solve --units 007|solve --help|solve -h|help|--help|--version\
        |check --nodes 0|gen --depth 13 --seed 1|gen --depth 1|gen --seed 1|gen|Solve|solv|solve more\
        |solve --units|solve --units=|solve --unit 5|solve --units -5|solve --units +5|solve --units 1000001\
        |solve --workers 0|solve --workers 65|solve --nodes 10001|solve --nodes=5 --nodes 5|solve -- 5\
        |solve --units -- 5|solve --units=5=5|check --units 5|gen --depth 1 --seed 2147483648|-- solve|--units 5 solve\
        |solve solve|solve --depth 1|solve --units 5x|solve --=5|solve -|gen --depth=1 --seed= ";
    for text in texts.split('|') {
        assert!(rt; said(alloc, text)? == None);
    }
    let none: [String; 0] = [];
    assert!(rt; words_of(alloc, none.as_slice())? == None);
    Ok(())
}
