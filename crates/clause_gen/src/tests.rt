use crate::script::script_of;
use term_tree::{Node, TermId};

fn num(node: &Node) -> i64 {
    match node {
        Node::Num(n) => *n,
        _ => -1,
    }
}

#[test]
fn seed_7_gives_the_root_116_and_its_leaves(rt: HostRuntime) {
    let script = script_of(rt.alloc(), 8, 7).expect(&rt, "memory");
    assert!(rt; script.terms.len() == 39);
    assert_eq!(rt; num(script.terms.node(TermId(3))), 29_696);
    assert_eq!(rt; num(script.terms.node(TermId(7))), 29_952);
    assert_eq!(rt; num(script.terms.node(TermId(35))), 8);
    assert_eq!(rt; num(script.terms.node(TermId(36))), 116);
    assert_eq!(rt; script.preds.len(), 1);
    assert_eq!(rt; script.asserts.len(), 3);
}

#[test]
fn depth_0_has_one_leaf(rt: HostRuntime) {
    let script = script_of(rt.alloc(), 0, 7).expect(&rt, "memory");
    assert!(rt; script.terms.len() == 39);
    assert_eq!(rt; num(script.terms.node(TermId(3))), 116);
    assert_eq!(rt; num(script.terms.node(TermId(7))), 117);
    assert_eq!(rt; num(script.terms.node(TermId(35))), 0);
}
