//! Texts with their trees, written by hand from the rules. A leaf is shown by the first letter of
//! its kind and its offsets, a list by its items and its offsets, and then the stop. Only the deepest trees
//! are let go, since that costs a proof.

use base::{Copied, Same};
use sexp_read::{
    LeafKind, Next, Reader, TextStop, Tree, Trees, leaf_bytes, numeral_value, read_commands,
    symbol_bytes,
};
use std::alloc::Global;
use std::mem;
use std::process::Abort;

fn letter(kind: LeafKind) -> char {
    match kind {
        LeafKind::Symbol => 's',
        LeafKind::Quoted => 'q',
        LeafKind::Numeral => 'n',
        LeafKind::Decimal => 'd',
        LeafKind::Text => 't',
        LeafKind::Keyword => 'k',
    }
}

fn shown_leaf(rt: &impl Abort, alloc: Global, kind: LeafKind, start: u32, end: u32) -> String {
    let kind = letter(kind);
    format!(in alloc; "{kind}{start}-{end}").expect(rt, "memory")
}

fn shown_end(rt: &impl Abort, alloc: Global, start: u32, end: u32) -> String {
    format!(in alloc; "){start}-{end}").expect(rt, "memory")
}

pub(crate) fn add(rt: &impl Abort, shown: &mut String, part: &str) {
    shown.push_str(part).expect(rt, "memory");
}

/// What stands in front of the tree of that place in a list.
fn before(place: usize) -> &'static str {
    if place > 0 { " " } else { "" }
}

#[cycle(show)]
fn show(rt: &impl Abort, alloc: Global, tree: &Tree, shown: &mut String) {
    match tree {
        Tree::Leaf { kind, start, end } => {
            add(
                rt,
                shown,
                shown_leaf(rt, alloc, *kind, *start, *end).as_str(),
            )
        }
        Tree::List { items, start, end } => {
            add(rt, shown, "(");
            show_all(rt, alloc, items.as_slice(), shown);
            add(rt, shown, shown_end(rt, alloc, *start, *end).as_str())
        }
    }
}

#[cycle(show)]
fn show_all(rt: &impl Abort, alloc: Global, trees: &[Tree], shown: &mut String) {
    for (place, tree) in trees.iter().enumerate() {
        add(rt, shown, before(place));
        show(rt, alloc, tree, shown);
    }
}

fn shown_stop(rt: &impl Abort, alloc: Global, stop: Option<TextStop>) -> String {
    let shown = match stop {
        None => format!(in alloc; ""),
        Some(TextStop::BadByte { offset }) => format!(in alloc; " bad {offset}"),
        Some(TextStop::Unclosed { offset }) => format!(in alloc; " unclosed {offset}"),
        Some(TextStop::Deep { offset }) => format!(in alloc; " deep {offset}"),
    };
    shown.expect(rt, "memory")
}

fn shown(rt: &impl Abort, alloc: Global, read: &Trees) -> String {
    let mut shown = String::new(alloc);
    show_all(rt, alloc, read.trees.as_slice(), &mut shown);
    add(rt, &mut shown, shown_stop(rt, alloc, read.stop).as_str());
    shown
}

/// Asserts how a text is read.
fn check(rt: &impl Abort, alloc: Global, shows: &str, text: &[u8], expected: &str) {
    assert!(rt; text.len() < 10000, "{shows}");
    let read = read_commands(alloc, text).expect(rt, "memory");
    let found = shown(rt, alloc, &read);
    mem::forget(read);
    assert!(rt; found.as_str() == expected, "{shows}");
}

/// What a case shows, its text and its reading.
const RULES: &str = "\
    kinds of white space§\
        a\tb\nc\rd e§\
        s0-1 s2-3 s4-5 s6-7 s8-9¶\
    white space alone§\
        \u{20}\t\n\r§\
        ¶\
    no text§\
        §\
        ¶\
    byte 11 is no white space§\
        a\x0bb§\
        s0-1 bad 1¶\
    byte 12 is no white space§\
        \x0c§\
        \u{20}bad 0¶\
    a comment ends with a line feed§\
        ;x\na§\
        s3-4¶\
    a comment ends with a carriage return§\
        ;x\ra§\
        s3-4¶\
    a comment ends with the text§\
        a;b c)§\
        s0-1¶\
    a comment holds any byte§\
        ;\x00(|\"#\n§\
        ¶\
    a comment ends a word§\
        ab;c\nd§\
        s0-2 s5-6¶\
    symbol bytes are one word§\
        azAZ09~!@$%^&*_-+=<>.?/§\
        s0-23¶\
    a sign is a symbol byte§\
        -5§\
        s0-2¶\
    a point may begin a symbol§\
        .5§\
        s0-2¶\
    zero§\
        0§\
        n0-1¶\
    a numeral§\
        1024§\
        n0-4¶\
    a long numeral§\
        18446744073709551616§\
        n0-20¶\
    a zero in front§\
        007§\
        \u{20}bad 0¶\
    two zeros§\
        00§\
        \u{20}bad 0¶\
    a letter behind a digit§\
        a (b 1a) c§\
        s0-1 bad 5¶\
    a sign behind a digit§\
        1-§\
        \u{20}bad 0¶\
    a decimal§\
        1.5§\
        d0-3¶\
    a decimal below one§\
        0.50§\
        d0-4¶\
    no digit behind the point§\
        1.§\
        \u{20}bad 0¶\
    two points§\
        1.5.2§\
        \u{20}bad 0¶\
    a zero in front of a decimal§\
        01.5§\
        \u{20}bad 0¶\
    a keyword§\
        :k§\
        k0-2¶\
    a keyword of any word§\
        :007§\
        k0-4¶\
    a colon alone§\
        :§\
        \u{20}bad 0¶\
    a colon apart from its word§\
        : a§\
        \u{20}bad 0¶\
    two keywords§\
        :a:b§\
        k0-2 k2-4¶\
    two colons§\
        ::a§\
        \u{20}bad 0¶\
    a colon before bars§\
        :|a|§\
        \u{20}bad 0¶\
    a quoted symbol§\
        |abc|§\
        q0-5¶\
    an empty quoted symbol§\
        ||§\
        q0-2¶\
    bars hold other bytes§\
        |a b\n;\"(|§\
        q0-9¶\
    a backslash between bars§\
        |a\\b|§\
        \u{20}bad 2¶\
    a backslash behind an open bar§\
        (|a\\§\
        \u{20}bad 3¶\
    an open bar§\
        |ab§\
        \u{20}unclosed 0¶\
    a text literal§\
        \"a\"§\
        t0-3¶\
    an empty text literal§\
        \"\"§\
        t0-2¶\
    a doubled quote§\
        \"a\"\"b\"§\
        t0-6¶\
    a doubled quote alone§\
        \"\"\"\"§\
        t0-4¶\
    a doubled quote and no end§\
        \"\"\"§\
        \u{20}unclosed 0¶\
    an open quote§\
        \"a§\
        \u{20}unclosed 0¶\
    a backslash in a text literal§\
        \"\\\"§\
        t0-3¶\
    an empty list§\
        ()§\
        ()0-2¶\
    lists in lists§\
        (a (b))§\
        (s1-2 (s4-5)3-6)0-7¶\
    space around§\
        \u{20}( a ) §\
        (s3-4)1-6¶\
    a bracket that closes nothing§\
        a)§\
        s0-1 bad 1¶\
    one bracket too many§\
        (a)) b§\
        (s1-2)0-3 bad 3¶\
    tokens side by side§\
        a|b|\"c\":d(e)§\
        s0-1 q1-4 t4-7 k7-9 (s10-11)9-12¶\
    no hexadecimal§\
        #xff§\
        \u{20}bad 0¶\
    a word before a bad byte§\
        foo#§\
        s0-3 bad 3¶\
    a bad byte in an open list§\
        (#§\
        \u{20}bad 1¶\
    a bad byte behind a tree§\
        (a (b) ,)§\
        \u{20}bad 7¶\
    trees behind the stop§\
        (a) , (b)§\
        (s1-2)0-3 bad 4¶\
    an open list§\
        (§\
        \u{20}unclosed 0¶\
    the outermost open list§\
        a (b (c§\
        s0-1 unclosed 2¶\
    an open bar in a list§\
        (a |b§\
        \u{20}unclosed 0¶\
    an open quote behind trees§\
        (a) (b \"c§\
        (s1-2)0-3 unclosed 4¶\
    a closed list in an open one§\
        ((a) b§\
        \u{20}unclosed 0¶\
    ";

/// The parts of a case.
pub(crate) fn parts(case: &str) -> Option<(&str, &str, &str)> {
    let mut parts = case.split('§');
    match (parts.next(), parts.next(), parts.next()) {
        (Some(shows), Some(text), Some(expected)) => Some((shows, text, expected)),
        _ => None,
    }
}

#[test]
fn each_rule_reads_as_it_says(rt: HostRuntime) {
    let mut tried: usize = 0;
    for case in RULES.split('¶') {
        if let Some((shows, text, expected)) = parts(case) {
            check(&rt, rt.alloc(), shows, text.as_bytes(), expected);
            tried = tried.saturating_add(1);
        }
    }
    assert!(rt; tried == 61);
}

/// How a text of one byte is read.
fn reading_of_byte(byte: u8) -> &'static str {
    if b"abcdefghijklmnopqrstuvwxyzABCDEFGHIJKLMNOPQRSTUVWXYZ~!@$%^&*_-+=<>.?/".contains(&byte) {
        return "s0-1";
    }
    if b"0123456789".contains(&byte) {
        return "n0-1";
    }
    if b"\t\n\r ;".contains(&byte) {
        return "";
    }
    if b"(|\"".contains(&byte) {
        return " unclosed 0";
    }
    " bad 0"
}

fn check_byte(rt: &impl Abort, alloc: Global, byte: u8) {
    let shows = format!(in alloc; "{byte}").expect(rt, "memory");
    check(rt, alloc, shows.as_str(), &[byte], reading_of_byte(byte));
}

#[test]
fn each_byte_is_a_text(rt: HostRuntime) {
    for byte in 0..=255u8 {
        check_byte(&rt, rt.alloc(), byte);
    }
}

#[test]
fn bytes_above_127_stand_in_comments_and_quotes_alone(rt: HostRuntime) {
    let text = b";\xff\n|\xff| \"\x80\" a\xc3";
    check(
        &rt,
        rt.alloc(),
        "bytes above 127",
        text,
        "q3-6 t7-10 s11-12 bad 12",
    );
}

/// How the tree at an offset is shown, and where it ends.
fn tree_at(
    rt: &impl Abort,
    alloc: Global,
    reader: &mut Reader,
    text: &[u8],
    at: usize,
) -> (String, usize) {
    assert!(rt; at <= text.len() && text.len() < 10000);
    let mut found = String::new(alloc);
    match reader.read(text, at).expect(rt, "memory") {
        Next::Tree { tree, end } => {
            show(rt, alloc, &tree, &mut found);
            mem::forget(tree);
            (found, end)
        }
        Next::Stop(_) => (found, text.len()),
    }
}

fn check_tree(
    rt: &impl Abort,
    alloc: Global,
    reader: &mut Reader,
    at: usize,
    expected: &str,
    behind: usize,
) {
    let (found, end) = tree_at(rt, alloc, reader, b"a (b) )", at);
    assert!(rt; found.as_str() == expected && end == behind, "{expected}");
}

fn check_stop(rt: &impl Abort, reader: &mut Reader, at: usize, offset: u32) {
    let text = b"a (b) )";
    assert!(rt; at <= text.len());
    match reader.read(text, at).expect(rt, "memory") {
        Next::Stop(stop) => assert!(rt; stop.equals(&Some(TextStop::BadByte { offset }))),
        Next::Tree { .. } => rt.panic("a tree"),
    }
}

#[test]
fn a_reader_goes_on_where_a_tree_ended(rt: HostRuntime) {
    let mut reader = Reader::new(rt.alloc());
    check_tree(&rt, rt.alloc(), &mut reader, 0, "s0-1", 1);
    check_tree(&rt, rt.alloc(), &mut reader, 1, "(s3-4)2-5", 5);
    check_stop(&rt, &mut reader, 5, 6);
    check_stop(&rt, &mut reader, 5, 6);
    mem::forget(reader);
}

/// A text with `count` copies of one byte behind it.
fn repeated(rt: &impl Abort, alloc: Global, front: &str, byte: u8, count: usize) -> Vec<u8> {
    let mut text = Vec::from_slice(alloc, front.as_bytes()).expect(rt, "memory");
    for _ in 0..count {
        text.push(byte).expect(rt, "memory");
    }
    text
}

fn check_open(
    rt: &impl Abort,
    alloc: Global,
    shows: &str,
    front: &str,
    count: usize,
    expected: &str,
) {
    let text = repeated(rt, alloc, front, b'(', count);
    check(rt, alloc, shows, text.as_slice(), expected);
}

#[test]
fn two_thousand_lists_may_be_open(rt: HostRuntime) {
    for (shows, front, count, expected) in [
        ("2,000 open lists", "", 2000, " unclosed 0"),
        ("2,001 open lists", "", 2001, " deep 2000"),
        ("trees before them", "a () ", 2001, "s0-1 ()2-4 deep 2005"),
        ("many more", "", 5000, " deep 2000"),
    ] {
        check_open(&rt, rt.alloc(), shows, front, count, expected);
    }
}

/// A text of 2,000 lists, each in the one before it, and then `(a)`.
fn deepest(rt: &impl Abort, alloc: Global) -> Vec<u8> {
    let mut text = repeated(rt, alloc, "", b'(', 2000);
    for _ in 0..2000 {
        text.push(b')').expect(rt, "memory");
    }
    text.extend_from_slice(b"(a)").expect(rt, "memory");
    text
}

/// Whether a reading is whole, and equal to its copy.
fn is_copied(rt: &impl Abort, alloc: Global, read: &Trees) -> bool {
    let copied = read.copy(alloc).expect(rt, "memory");
    read.stop.equals(&None) && copied.equals(read)
}

#[test]
fn the_deepest_tree_is_copied_compared_and_dropped(rt: HostRuntime) {
    let text = deepest(&rt, rt.alloc());
    assert!(rt; text.len() < 10000);
    let read = read_commands(rt.alloc(), text.as_slice()).expect(&rt, "memory");
    assert!(rt; read.trees.len() == 2);
    assert!(rt; is_copied(&rt, rt.alloc(), &read));
}

/// Asserts the bytes of a leaf, whether it is a symbol, and the number that it spells.
fn check_leaf(
    rt: &impl Abort,
    text: &[u8],
    tree: Option<&Tree>,
    bytes: &str,
    is_symbol: bool,
    number: Option<u64>,
) {
    let tree = tree.expect(rt, "a tree");
    let found = leaf_bytes(text, tree).expect(rt, "a leaf");
    assert!(rt; found == bytes.as_bytes(), "bytes of {bytes}");
    assert!(rt;
        symbol_bytes(text, tree).is_some() == is_symbol,
        "symbol at {bytes}"
    );
    assert!(rt; numeral_value(text, tree) == number, "number at {bytes}");
}

/// The bytes of a leaf, whether it is a symbol, and the number that it spells.
const LEAVES: [(&'static str, bool, Option<u64>); 8] = [
    ("let", true, None),
    ("let", true, None),
    ("a\"\"b", false, None),
    ("42", false, Some(42)),
    ("9223372036854775807", false, Some(9223372036854775807)),
    ("9223372036854775808", false, None),
    (":k", false, None),
    ("1.5", false, None),
];

#[test]
fn leaves_say_their_bytes_and_numbers(rt: HostRuntime) {
    let text = b"let |let| \"a\"\"b\" 42 9223372036854775807 9223372036854775808 :k 1.5 ()";
    let read = read_commands(rt.alloc(), text).expect(&rt, "memory");
    assert!(rt; read.trees.len() == 9);
    for (i, (bytes, is_symbol, number)) in LEAVES.iter().enumerate() {
        check_leaf(&rt, text, read.trees.get(i), bytes, *is_symbol, *number);
    }
    let list = read.trees.get(8).expect(&rt, "a list");
    assert!(rt; leaf_bytes(text, list).is_none());
    mem::forget(read);
}
