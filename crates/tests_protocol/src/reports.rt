//! The reader of a report's text, where no program prints again what it has read.

use crate::chain::tree;
use stab_report::{read_text, report_text, tree_text};
use stab_tree::Tree;
use std::alloc::Global;
use std::process::Abort;

/// Two nodes, r and a below it.
pub(crate) const PAIR: &str = r#"[{"name":"r"},{"name":"a","parent":"r"}]"#;

/// A report of these nodes.
pub(crate) const REPORT: &str = "\
r depth 0 received 2 acked - ended upstream
items: 7 8
a depth 1 received 2 acked 2 ended turns
items: 99 8
";

/// The text of a tree.
const OF_TREE: &str = "\
r depth 0 received 2 acked -
items: 7 8
a depth 1 received 2 acked 2
items: 99 8
";

/// The same as a report, in which no node ended with its upstream.
const OF_TURNS: &str = "\
r depth 0 received 2 acked - ended turns
items: 7 8
a depth 1 received 2 acked 2 ended turns
items: 99 8
";

/// Whether a text is read as a report that is printed as these two.
fn is_read(
    rt: &(impl Abort + Alloc<A = Global>),
    tree: &Tree,
    text: &str,
    of_run: &str,
    of_tree: &str,
) -> bool {
    let report = read_text(rt.alloc(), tree, text.as_bytes()).expect(rt, "a report");
    report_text(rt.alloc(), tree, &report)
        .expect(rt, "a text")
        .as_str()
        == of_run
        && tree_text(rt.alloc(), tree, &report)
            .expect(rt, "a text")
            .as_str()
            == of_tree
}

#[test]
fn a_text_is_read_and_printed_again(rt: HostRuntime) {
    let tree = tree(&rt, PAIR);
    assert!(rt; is_read(&rt, &tree, REPORT, REPORT, OF_TREE));
    assert!(rt; is_read(&rt, &tree, OF_TREE, OF_TURNS, OF_TREE));
}
