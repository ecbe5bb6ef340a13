//! What determines the auxiliary variables of the rows: u for x <= y, and v for each integer term.

ghost use Rattle.test_clauses.specs.machinery.Samples.{AreGiven};

use crate::made::check;
use crate::samples::{Given, all_given};
use crate::shown::{shown, shown_all};
use crate::written::{all_determined, determined};
use std::alloc::Global;
use std::mem;
use std::process::Abort;

/// Each term by number: x <= y, a choice, a magnitude, a sum that is an argument, a quotient and a
/// remainder by -2, and those of -7 by 2, of which the only values are -4 and 1.
const PLACES: &str = "\
8: and(le -1u+0)(le +1u-1)(or(and(le -1u+1)(le +1x-1y+0))(and(le +1u+0)(le -1x+1y+1)))
26: or(and(le -1b+1)(eq -1x+1v+0))(and(le +1b+0)(eq -1y+1v+0))
27: or(and(le -1x+0)(eq -1x+1v+0))(and(le +1x+1)(eq +1x+1v+0))
29: and(le -1x-2v+0)(le +1x+2v-1)
30: and(le -1v+0)(le +1v-1)(div 2 +1x-1v+0)
31: eq -1x+1v-2
44: and(le +2v+7)(le -2v-8)
45: and(le -1v+0)(le +1v-1)(div 2 -1v-7)
";

/// What stands behind `True` for the term 8 and the sum 31.
const BOTH: &str = "\
(true)\
(and(le -1u+0)(le +1u-1)(or(and(le -1u+1)(le +1x-1y+0))(and(le +1u+0)(le -1x+1y+1))))\
(eq -1x+1v-2)";

fn line(rt: &impl Abort, alloc: Global, given: &Given, id: u32) -> String
    requires given { AreGiven given.now.terms.nodes given.now.constants given.now.names.own.items given.now.names.auxiliary }
{
    let v = if id == 8 { 4 } else { 5 };
    let made = determined(rt, alloc, given, v, id);
    let form = shown(rt, alloc, &made);
    mem::forget(made);
    format!(in alloc; "{id}: {form}\n").expect(rt, "memory")
}

fn lines(rt: &impl Abort, alloc: Global, given: &Given) -> String
    requires given { AreGiven given.now.terms.nodes given.now.constants given.now.names.own.items given.now.names.auxiliary }
{
    let mut lines = String::new(alloc);
    for id in [8, 26, 27, 29, 30, 31, 44, 45] {
        let line = line(rt, alloc, given, id);
        lines.push_str(&line).expect(rt, "memory");
    }
    lines
}

#[test]
fn each_variable_is_determined_by_the_kind_of_its_term(rt: HostRuntime) {
    let alloc = rt.alloc();
    let given = all_given(&rt, alloc);
    let lines = lines(&rt, alloc, &given);
    mem::forget(given);
    check(&rt, lines.as_str() == PLACES, lines.as_str());
}

#[test]
fn variables_are_numbered_on_and_stand_behind_other_forms(rt: HostRuntime) {
    let alloc = rt.alloc();
    let given = all_given(&rt, alloc);
    let forms = all_determined(&rt, alloc, &given, 31);
    let line = shown_all(&rt, alloc, forms.as_slice());
    mem::forget(given);
    mem::forget(forms);
    check(&rt, line.as_str() == BOTH, line.as_str());
}
