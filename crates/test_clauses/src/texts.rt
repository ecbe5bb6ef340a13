//! Scripts from their texts.

ghost use Rattle.std.specs.Prelude.{◌<◌, ◌^◌, length};
ghost use Rattle.horn_shape.specs.Clause.{IsLegalScript};

use crate::made::{self, parts};
use clause_form::{Clause, System};
use clause_normal::{ClauseStop, read_clauses};
use sort_check::{assertions_are_legal, check_text, scripts_are_within_limits};
use std::alloc::Global;
use std::mem;
use std::process::Abort;
use term_tree::Checked;

/// What a text begins with: the logic, and predicates p over an integer, q without arguments and r
/// over a truth value and an integer. It has 96 bytes and four commands.
pub const BEGINS: &str =
    "(set-logic HORN)(declare-fun p (Int) Bool)(declare-fun q () Bool)(declare-fun r (Bool Int) Bool)";

/// The script of a text, up to the first command that is illegal by itself.
pub fn checked(rt: &impl Abort, alloc: Global, text: &[u8]) -> Checked
    requires { length text.now < 2 ^ 32 }
    ensures { IsLegalScript result.script }
{
    match check_text(alloc, text) {
        Ok(checked) => {
            checked.script.terms.arena_law();
            assertions_are_legal();
            scripts_are_within_limits();
            checked
        }
        Err(_) => rt.panic("memory"),
    }
}

/// What is told of a refusal.
fn refused(rt: &impl Abort, alloc: Global, kind: u8, offset: u64, command: u32) -> String {
    let told = format!(in alloc; "kind {kind} at byte {offset} after {command} commands");
    told.expect(rt, "memory")
}

/// What the clauses of a text look like, or its refusal.
fn told(rt: &impl Abort, alloc: Global, text: &[u8]) -> String
    requires { length text.now < 2 ^ 32 }
{
    let checked = checked(rt, alloc, text);
    let read = read_clauses(alloc, &checked);
    let told = match &read {
        Ok(system) => all_told(rt, alloc, system),
        Err(ClauseStop::Memory) => rt.panic("memory"),
        Err(ClauseStop::Refused(refusal)) => {
            let kind = refusal.kind.number();
            refused(rt, alloc, kind, refusal.offset, refusal.command)
        }
    };
    mem::forget(checked);
    mem::forget(read);
    told
}

/// How many variables of its own the clause has, how many in all, how many body atoms, and what it
/// ends in.
fn clause_told(rt: &impl Abort, alloc: Global, clause: &Clause) -> String {
    let (user, all, atoms) = (clause.user, clause.sorts.len(), clause.atoms.len());
    let ends = if clause.head.is_some() {
        "head"
    } else {
        "false"
    };
    format!(in alloc; "{user} {all} {atoms} {ends};").expect(rt, "memory")
}

fn all_told(rt: &impl Abort, alloc: Global, system: &System) -> String {
    let mut all = String::new(alloc);
    for clause in system.clauses() {
        let one = clause_told(rt, alloc, clause);
        all.push_str(one.as_str()).expect(rt, "memory");
    }
    all
}

/// The text with its beginning and the question.
fn whole(rt: &impl Abort, alloc: Global, rest: &str) -> String {
    format!(in alloc; "{BEGINS}{rest}(check-sat)").expect(rt, "memory")
}

/// Asserts what is told of the text behind the beginning.
pub fn check(rt: &impl Abort, alloc: Global, shows: &str, rest: &str, awaited: &str) {
    let text = whole(rt, alloc, rest);
    assert!(rt; text.len() < 1 << 24);
    let found = told(rt, alloc, text.as_bytes());
    made::check(rt, found.as_str() == awaited, shows);
}

/// Checks each case of a table, and answers how many there are.
pub fn check_table(rt: &impl Abort, alloc: Global, table: &str) -> usize {
    let mut tried: usize = 0;
    for case in table.split('¶') {
        if let Some((shows, asserts, awaited)) = parts(case) {
            check(rt, alloc, shows, asserts, awaited);
            tried = tried.saturating_add(1);
        }
    }
    tried
}

/// The script of the text behind the beginning.
pub fn script_of(rt: &impl Abort, alloc: Global, rest: &str) -> Checked
    ensures { IsLegalScript result.script }
{
    let text = whole(rt, alloc, rest);
    let bytes = text.as_bytes();
    assert!(rt; bytes.len() < 1 << 24);
    checked(rt, alloc, bytes)
}
