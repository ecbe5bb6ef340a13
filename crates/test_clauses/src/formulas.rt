//! Where each Bool term of the rows is true, and where it is false.

ghost use Rattle.test_clauses.specs.machinery.Samples.{AreGiven};

use crate::made::check;
use crate::samples::{Given, all_given};
use crate::shown::shown;
use crate::written::written;
use std::alloc::Global;
use std::mem;
use std::process::Abort;
use term_tree::{Sort, TermId};

/// Each Bool term by number, the form that holds where it is true, and the one where it is false.
const FORMULAS: &str = "\
2: le -1b+1 | le +1b+0
3: le -1c+1 | le +1c+0
4: true | false
5: false | true
8: le +1x-1y+0 | le -1x+1y+1
9: le -1u+1 | le +1u+0
10: le -1u+1 | le +1u+0
11: div 3 +1x+0 | ndiv 3 +1x+0
12: le -1b+1 | le +1b+0
13: le +1b+0 | le -1b+1
14: and(le -1b+1)(le -1c+1) | or(le +1b+0)(le +1c+0)
15: or(le -1b+1)(le -1c+1) | and(le +1b+0)(le +1c+0)
16: or(le +1b+0)(le -1c+1) | and(le -1b+1)(le +1c+0)
17: ndiv 2 +1b+1c+0 | div 2 +1b+1c+0
18: eq +1b-1c+0 | eq +1b+1c-1
19: eq +1b+1c-1 | eq +1b-1c+0
20: eq +1x-1y+0 | or(le +1x-1y+1)(le -1x+1y+1)
21: or(le +1x-1y+1)(le -1x+1y+1) | eq +1x-1y+0
22: le +1x-1y+1 | le -1x+1y+0
23: le -1x+1y+0 | le +1x-1y+1
24: le -1x+1y+1 | le +1x-1y+0
25: and(or(le +1b+0)(le +1x-1y+0))(or(le -1b+1)(le +1x-1y+1)) | and(or(le +1b+0)(le -1x+1y+1))(or(le -1b+1)(le -1x+1y+0))
32: and(eq +1x-1y+0)(eq -1x+1y-2) | or(or(le +1x-1y+1)(le -1x+1y+1))(or(le -1x+1y-1)(le +1x-1y+3))
33: and(or(le +1x-1y+1)(le -1x+1y+1))(or(le -1)(le +3))(or(le -1x+1y-1)(le +1x-1y+3)) | or(eq +1x-1y+0)(eq -2)(eq -1x+1y-2)
34: and(le +1x-1y+1)(le -1x+1y-1) | or(le -1x+1y+0)(le +1x-1y+2)
35: and(eq +1b-1c+0)(eq +1c-1) | or(eq +1b+1c-1)(eq +1c+0)
36: and(eq +1b+1c-1)(eq +1b+0)(eq +1c+0) | or(eq +1b-1c+0)(eq +1b-1)(eq +1c-1)
37: ndiv 2 +1b+1c+1 | div 2 +1b+1c+1
38: or(le +1b+0)(le +1c+0)(le +1x-1y+0) | and(le -1b+1)(le -1c+1)(le -1x+1y+1)
39: le -1u+1 | le +1u+0
40: eq +0 | eq +2u-1
41: ndiv 2 +1u+0 | div 2 +1u+0
42: and(or(le +1u+0)(le -1b+1))(or(le -1u+1)(le -1c+1)) | and(or(le +1u+0)(le +1b+0))(or(le -1u+1)(le +1c+0))
";

/// The form that holds where the term is true, or where it is false.
fn side(rt: &impl Abort, alloc: Global, given: &Given, id: u32, sign: bool) -> String
    requires given { AreGiven given.now.terms.nodes given.now.constants given.now.names.own.items given.now.names.auxiliary }
{
    let form = written(rt, alloc, given, id, sign);
    let text = shown(rt, alloc, &form);
    mem::forget(form);
    text
}

fn line(rt: &impl Abort, alloc: Global, given: &Given, id: u32) -> String
    requires given { AreGiven given.now.terms.nodes given.now.constants given.now.names.own.items given.now.names.auxiliary }
{
    let yes = side(rt, alloc, given, id, true);
    let no = side(rt, alloc, given, id, false);
    format!(in alloc; "{id}: {yes} | {no}\n").expect(rt, "memory")
}

fn lines(rt: &impl Abort, alloc: Global, given: &Given) -> String
    requires given { AreGiven given.now.terms.nodes given.now.constants given.now.names.own.items given.now.names.auxiliary }
{
    let mut lines = String::new(alloc);
    for id in 0..46u32 {
        if given.sorts.sort(TermId(id)) == Some(Sort::Bool) {
            let line = line(rt, alloc, given, id);
            lines.push_str(&line).expect(rt, "memory");
        }
    }
    lines
}

#[test]
fn each_bool_term_has_the_forms_of_its_kind(rt: HostRuntime) {
    let alloc = rt.alloc();
    let given = all_given(&rt, alloc);
    let lines = lines(&rt, alloc, &given);
    mem::forget(given);
    check(&rt, lines.as_str() == FORMULAS, lines.as_str());
}
