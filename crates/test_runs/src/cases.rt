//! The parts of a table's cases, and texts that are put together.

use std::alloc::Global;
use std::process::Abort;

/// The three parts of a case.
pub fn three(case: &str) -> Option<(&str, &str, &str)> {
    let mut parts = case.split('§');
    match (parts.next(), parts.next(), parts.next()) {
        (Some(shows), Some(text), Some(told)) => Some((shows, text, told)),
        _ => None,
    }
}

/// The four parts of a case, whose text is told by its beginning and its rest.
pub fn four(case: &str) -> Option<(&str, &str, &str, &str)> {
    let mut parts = case.split('§');
    match (parts.next(), parts.next(), parts.next(), parts.next()) {
        (Some(shows), Some(begins), Some(rest), Some(told)) => Some((shows, begins, rest, told)),
        _ => None,
    }
}

pub fn add(rt: &impl Abort, text: &mut String, part: &str) {
    text.push_str(part).expect(rt, "memory");
}

/// One part behind the other.
pub fn joined(rt: &impl Abort, alloc: Global, first: &str, second: &str) -> String {
    let mut text = String::from_str(alloc, first).expect(rt, "memory");
    add(rt, &mut text, second);
    text
}

/// A text with `count` copies of one part between two others.
pub fn repeated(
    rt: &impl Abort,
    alloc: Global,
    front: &str,
    part: &str,
    count: usize,
    end: &str,
) -> String {
    let mut text = String::from_str(alloc, front).expect(rt, "memory");
    for _ in 0..count {
        add(rt, &mut text, part);
    }
    add(rt, &mut text, end);
    text
}

/// The line that tells a refusal.
pub fn error_line(rt: &impl Abort, alloc: Global, told: &str) -> String {
    format!(in alloc; "(error \"{told}\")\n").expect(rt, "memory")
}
