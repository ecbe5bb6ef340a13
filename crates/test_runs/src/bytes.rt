//! Bytes that a table of lines doesn't show.

use crate::runs::{SMALL, check_ran, run};

#[test]
fn white_space_and_other_bytes_are_told_apart(rt: HostRuntime) {
    for (shows, text, status, output) in [
        (
            "a vertical tab is no white space",
            b"(set-logic HORN)\x0b(check-sat)".as_slice(),
            1,
            b"(error \"kind 2 BadByte at byte 16 after 1 commands\")\n".as_slice(),
        ),
        (
            "a form feed is no white space",
            b"(set-logic HORN)\x0c(check-sat)",
            1,
            b"(error \"kind 2 BadByte at byte 16 after 1 commands\")\n",
        ),
        (
            "a byte that is no token is refused first of all",
            b"\xff(set-logic HORN)(check-sat)",
            1,
            b"(error \"kind 2 BadByte at byte 0 after 0 commands\")\n",
        ),
        (
            "a text literal of any bytes",
            b"(set-logic HORN)(set-info :a \"\x00\xc3\xa9;()|\")(check-sat)",
            0,
            b"sat\n(\n)\n",
        ),
        (
            "two predicates laid out at will",
            b" ( set-logic\tHORN )\r\n(declare-fun edge(Int Int)Bool)(assert(edge 1 20))\n(declare-fun <-a.b (Int) Bool)(assert (<-a.b 7))(assert (edge 20 1))(check-sat)\n",
            0,
            b"sat\n(\n(define-fun edge ((x0 Int) (x1 Int)) Bool true)\n(define-fun <-a.b ((x0 Int)) Bool true)\n)\n",
        ),
    ] {
        let ran = run(&rt, rt.alloc(), &["solve"], text, &SMALL);
        check_ran(&rt, shows, &ran, status, output);
    }
}
