//! Scripts whose trees are all read before the first is checked, as by whoever wants the trees too.

ghost use Rattle.std.specs.Prelude.{◌<◌, ◌^◌, length};

use crate::cases::three;
use sexp_read::read_commands;
use sort_check::check_script;
use std::alloc::Global;
use std::mem;
use std::process::Abort;

/// What a case shows, its text, how many predicates and assertions its legal commands have, and the refusal.
const TEXTS: &str = "\
    a script§\
        (set-logic HORN)(declare-fun p (Int) Bool)(assert (p 0))(check-sat)§\
        1 1¶\
    what follows an exit§\
        (set-logic HORN)(check-sat)(exit))))§\
        0 0¶\
    an illegal command before a fault of the text§\
        (set-logic HORN)(declare-fun p (Int) Bool)(assert (q 0))(§\
        1 0 kind 10 at byte 51 after 2 commands¶\
    a fault of the text behind legal commands§\
        (set-logic HORN)(declare-const q Bool)(assert q)#§\
        1 1 kind 2 at byte 48 after 3 commands¶\
    no question§\
        (set-logic HORN)§\
        0 0 kind 18 at byte 16 after 1 commands";

/// The numbers and the refusal as one line.
fn shown(
    rt: &impl Abort,
    alloc: Global,
    preds: usize,
    asserts: usize,
    stop: Option<(u8, u64, u32)>,
) -> String {
    match stop {
        None => format!(in alloc; "{preds} {asserts}").expect(rt, "memory"),
        Some((kind, offset, command)) => {
            let told = format!(in alloc;
                "{preds} {asserts} kind {kind} at byte {offset} after {command} commands"
            );
            told.expect(rt, "memory")
        }
    }
}

/// How many predicates and assertions the text has, and its refusal. Trees and scripts aren't let go.
fn told(rt: &impl Abort, alloc: Global, text: &[u8]) -> String
    requires { length text.now < 2 ^ 32 }
{
    let trees = read_commands(alloc, text).expect(rt, "memory");
    let checked = check_script(alloc, text, &trees).expect(rt, "memory");
    let preds = checked.script.preds.len();
    let asserts = checked.script.asserts.len();
    let stop = match &checked.stop {
        None => None,
        Some(refusal) => Some((refusal.kind.number(), refusal.offset, refusal.command)),
    };
    mem::forget(trees);
    mem::forget(checked);
    shown(rt, alloc, preds, asserts, stop)
}

fn check(rt: &impl Abort, alloc: Global, shows: &str, text: &[u8], expected: &str) {
    assert!(rt; text.len() < 1000, "{shows}");
    let found = told(rt, alloc, text);
    assert!(rt; found.as_str() == expected, "{shows}");
}

#[test]
fn trees_are_checked_as_their_text_is(rt: HostRuntime) {
    let mut tried: usize = 0;
    for case in TEXTS.split('¶') {
        if let Some((shows, text, expected)) = three(case) {
            check(&rt, rt.alloc(), shows, text.as_bytes(), expected);
            tried = tried.saturating_add(1);
        }
    }
    assert!(rt; tried == 5);
}
