//! What is printed of a generated script whose search runs out of units, for which no words of a call ask.

use call_gen::{Generated, answer_for};
use std::test::Fail;

#[test]
fn spent_units_are_told_as_by_solve(rt: HostRuntime) -> Result<(), Fail> {
    let told = b"unknown\n; level 1 units 1\n".as_slice();
    match answer_for(rt.alloc(), 3, 7, 1, 2_000)? {
        Generated::Answered { text, .. } => assert!(rt; text.as_slice() == told),
        Generated::Unfinished { .. } => assert!(rt; false),
    }
    Ok(())
}
