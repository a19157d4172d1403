//! The gate of a run of `stab`.

use serde_json::Value;
use stab_node::{Free, Gate};
use stab_tree::read_tree;

/// A chain of three nodes.
const CHAIN: &str = r#"[{"name":"r"},{"name":"a","parent":"r"},{"name":"b","parent":"a"}]"#;

/// The root waits for its child, which never comes, for some seconds, and then no more.
#[test]
fn a_node_is_waited_for_in_vain_once(rt: HostRuntime) {
    let value = Value::from_str(rt.alloc(), CHAIN).expect(&rt, "JSON");
    let tree = read_tree(rt.alloc(), &value).expect(&rt, "a tree");
    let gate = Free::for_tree(&rt, &tree);
    for turn in 1..=1_000 {
        assert!(rt; gate.pass(0, turn));
    }
}
