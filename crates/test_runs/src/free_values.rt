//! A variable whose value is free: any integer is printed, and what is printed is valid.

use crate::cases::joined;
use crate::runs::{SMALL, check_ran, run};

#[test]
fn a_value_that_is_free_is_any_integer(rt: HostRuntime) {
    let script =
        "(set-logic HORN)(assert (forall ((x Int)) (=> (= x x) false)))(check-sat)\n;;answer\n";
    let ran = run(&rt, rt.alloc(), &["solve"], script.as_bytes(), &SMALL);
    let printed = str::from_utf8(ran.held.as_slice()).expect(&rt, "text");
    assert!(&rt;
        printed.starts_with("unsat\n(derivation\n(step 1 1 ("),
        "{printed}"
    );
    assert!(&rt; printed.ends_with(") () false)\n)\n"), "{printed}");
    let answered = joined(&rt, rt.alloc(), script, printed);
    let ran = run(&rt, rt.alloc(), &["check"], answered.as_bytes(), &SMALL);
    check_ran(&rt, "what is printed", &ran, 0, b"valid\n");
}
