//! Lemmas that enter a book for no obligation, or may not.

use crate::led_books::{enter, lead_on};
use crate::scripts::opened;
use crate::shown_lemmas::shown_lemmas;
use cube_forms::{Cube, Lemma, negate};
use lin_atoms::{Lin, Lit};
use std::alloc::Global;
use std::process::Abort;

/// A counter from 0 on that may not come to 3.
const SCRIPT: &str =
    "(set-logic HORN)(declare-fun p (Int) Bool)(assert (p 0))(assert (forall ((x Int)) (=> (p x) (p (+ x 1)))))(assert (not (p 3)))(check-sat)";

/// How many turns take its book to level 2.
const TURNS: u32 = 4;

/// The lemma that it has then.
const FIRST: &str = "0 at 1: le -1x0+3; ";

/// What a case shows; the lemma's predicate, and its cube, which is that so many times a place and a constant
/// are at most 0; its level; and what the book then has besides.
struct Case {
    shows: &'static str,
    pred: u32,
    times: i64,
    place: u32,
    constant: i128,
    level: u32,
    more: &'static str,
}

const CASES: [Case; 9] = [
    Case {
        shows: "no lemma is of level 0",
        pred: 0,
        times: 1,
        place: 0,
        constant: 1,
        level: 0,
        more: "",
    },
    Case {
        shows: "at level 1 no body atom has a tuple",
        pred: 0,
        times: -1,
        place: 0,
        constant: 2,
        level: 1,
        more: "0 at 1: le -1x0+2; ",
    },
    Case {
        shows: "0 is a tuple at level 1",
        pred: 0,
        times: 1,
        place: 0,
        constant: 0,
        level: 1,
        more: "",
    },
    Case {
        shows: "from 1, which is in the frame below, 2 is reached",
        pred: 0,
        times: -1,
        place: 0,
        constant: 2,
        level: 2,
        more: "",
    },
    Case {
        shows: "from at most 2, by the frame below, at most 3 is reached",
        pred: 0,
        times: -1,
        place: 0,
        constant: 4,
        level: 2,
        more: "0 at 2: le -1x0+4; ",
    },
    Case {
        shows: "from 0 or more, by the lemma itself, 0 or more is reached",
        pred: 0,
        times: 1,
        place: 0,
        constant: 1,
        level: 2,
        more: "0 at 2: le +1x0+1; ",
    },
    Case {
        shows: "the book has no level 3",
        pred: 0,
        times: 1,
        place: 0,
        constant: 1,
        level: 3,
        more: "",
    },
    Case {
        shows: "there is one predicate",
        pred: 1,
        times: 1,
        place: 0,
        constant: 1,
        level: 1,
        more: "",
    },
    Case {
        shows: "it has one place",
        pred: 0,
        times: 1,
        place: 1,
        constant: 1,
        level: 1,
        more: "",
    },
];

/// The lemma that denies the case's cube.
fn lemma_of(rt: &impl Abort, alloc: Global, case: &Case) -> Lemma {
    let terms = Vec::from_array(alloc, [(case.place, case.times)]).expect(rt, "memory");
    let Ok(lin) = Lin::new(terms, case.constant) else {
        panic!(rt; "a wide form")
    };
    let lits = Vec::from_array(alloc, [Lit::Le(lin)]).expect(rt, "memory");
    let Ok(cube) = Cube::new(alloc, lits) else {
        panic!(rt; "a wide cube")
    };
    negate(alloc, &cube).expect(rt, "memory")
}

fn check_case(rt: &impl Abort, alloc: Global, case: &Case) {
    let mut book = opened(rt, alloc, SCRIPT, 100);
    lead_on(&mut book, TURNS).expect(rt, "memory");
    let lemma = lemma_of(rt, alloc, case);
    let entered = enter(&mut book, case.pred, &lemma, case.level).expect(rt, "memory");
    let expected = if case.more.is_empty() {
        None
    } else {
        Some(true)
    };
    let lemmas = shown_lemmas(alloc, &book).expect(rt, "memory");
    let whole = format!(in alloc; "{FIRST}{}", case.more).expect(rt, "memory");
    let (shows, level) = (case.shows, book.level());
    assert!(rt; level == 2, "{shows}: level {level}");
    assert!(rt; entered == expected, "{shows}");
    assert!(rt; lemmas.as_str() == whole.as_str(), "{shows}: {lemmas}");
}

#[test]
fn lemmas_enter_where_the_frame_below_and_they_themselves_imply_them(rt: HostRuntime) {
    for case in &CASES {
        check_case(&rt, rt.alloc(), case);
    }
}
