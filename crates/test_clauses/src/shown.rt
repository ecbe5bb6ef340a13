//! Forms as texts: `le`, `eq`, `div` and `ndiv` of linear forms, and `and` and `or` of their parts.

use lin_atoms::{Form, Lin, Lit};
use std::alloc::Global;
use std::process::Abort;

/// x and y are integers, b and c truth values, u and v auxiliary.
fn name(variable: u32) -> &'static str {
    match variable {
        0 => "x",
        1 => "y",
        2 => "b",
        3 => "c",
        4 => "u",
        5 => "v",
        _ => "?",
    }
}

fn put(rt: &impl Abort, text: &mut String, more: &str) {
    text.push_str(more).expect(rt, "memory");
}

fn shown_lin(rt: &impl Abort, alloc: Global, lin: &Lin) -> String {
    let mut shown = String::new(alloc);
    for (variable, coefficient) in lin.terms() {
        let name = name(*variable);
        put(
            rt,
            &mut shown,
            &format!(in alloc; "{coefficient:+}{name}").expect(rt, "memory"),
        );
    }
    let constant = lin.constant();
    put(
        rt,
        &mut shown,
        &format!(in alloc; "{constant:+}").expect(rt, "memory"),
    );
    shown
}

fn shown_lit(rt: &impl Abort, alloc: Global, lit: &Lit) -> String {
    match lit {
        Lit::Le(lin) => {
            let lin = shown_lin(rt, alloc, lin);
            format!(in alloc; "le {lin}").expect(rt, "memory")
        }
        Lit::Eq(lin) => {
            let lin = shown_lin(rt, alloc, lin);
            format!(in alloc; "eq {lin}").expect(rt, "memory")
        }
        Lit::Div(by, lin) => {
            let (by, lin) = (by.get(), shown_lin(rt, alloc, lin));
            format!(in alloc; "div {by} {lin}").expect(rt, "memory")
        }
        Lit::NDiv(by, lin) => {
            let (by, lin) = (by.get(), shown_lin(rt, alloc, lin));
            format!(in alloc; "ndiv {by} {lin}").expect(rt, "memory")
        }
    }
}

/// All of them in a row, each in parentheses.
#[cycle(shown)]
pub fn shown_all(rt: &impl Abort, alloc: Global, forms: &[Form]) -> String {
    let mut text = String::new(alloc);
    for form in forms {
        let form = shown(rt, alloc, form);
        put(
            rt,
            &mut text,
            &format!(in alloc; "({form})").expect(rt, "memory"),
        );
    }
    text
}

#[cycle(shown)]
pub fn shown(rt: &impl Abort, alloc: Global, form: &Form) -> String {
    match form {
        Form::True => format!(in alloc; "true").expect(rt, "memory"),
        Form::False => format!(in alloc; "false").expect(rt, "memory"),
        Form::Lit(lit) => shown_lit(rt, alloc, lit),
        Form::And(parts) => {
            let parts = shown_all(rt, alloc, parts.as_slice());
            format!(in alloc; "and{parts}").expect(rt, "memory")
        }
        Form::Or(parts) => {
            let parts = shown_all(rt, alloc, parts.as_slice());
            format!(in alloc; "or{parts}").expect(rt, "memory")
        }
    }
}
