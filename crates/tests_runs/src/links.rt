//! Which kind of link each run makes, and which script each link has.
//!
//! The nodes of a chain take turns, the root first: so each run ends in one way alone.

use crate::gates::Order;
use crate::runs::{Run, assert_all};
use stab_run::Links;

/// The parameters of jobs whose links all have the capacity one.
const EACH_ONE: &str = r#"{"capacity":1,"labels":4,"#;

/// The same, where they all have the capacity two.
const EACH_TWO: &str = r#"{"capacity":2,"labels":6,"#;

/// The same of two links, of which the second has the capacity two.
const ONE_THEN_TWO: &str = r#"{"capacity":1,"labels":4,"links":[null,{"capacity":2,"labels":6}],"#;

/// The same of two links, of which the first has the capacity two.
const TWO_THEN_ONE: &str = r#"{"capacity":1,"labels":4,"links":[{"capacity":2,"labels":6},null],"#;

/// A chain of three, with one item and eight turns.
const CHAIN: &str = r#""items":[7],"turns":8,
    "tree":[{"name":"r"},{"name":"a","parent":"r"},{"name":"b","parent":"a"}],"#;

/// A stray on each link, with a label that its receiver did not take last.
const STRAYS: &str = r#""starts":[{"frames":[[2,99]],"send":0,"recv":1},
    {"frames":[[2,98]],"send":0,"recv":1}]}"#;

/// The first frame of each sender takes the place of the stray.
const OVER_WORDS: &str = "\
r depth 0 received 1 acked - ended upstream
items: 7
a depth 1 received 1 acked 1 ended upstream
items: 7
b depth 2 received 1 acked 1 ended upstream
items: 7
";

/// The stray of the second link comes first.
const OVER_A_WORD_AND_A_LOCK: &str = "\
r depth 0 received 1 acked - ended upstream
items: 7
a depth 1 received 1 acked 1 ended upstream
items: 7
b depth 2 received 2 acked 1 ended upstream
items: 98 7
";

/// The stray of the first link comes first, and is handed on.
const OVER_A_LOCK_AND_A_WORD: &str = "\
r depth 0 received 1 acked - ended upstream
items: 7
a depth 1 received 2 acked 1 ended upstream
items: 99 7
b depth 2 received 2 acked 2 ended upstream
items: 99 7
";

/// Both strays come first.
const OVER_LOCKS: &str = "\
r depth 0 received 1 acked - ended upstream
items: 7
a depth 1 received 2 acked 1 ended upstream
items: 99 7
b depth 2 received 3 acked 2 ended upstream
items: 98 99 7
";

/// The runs over links of each kind.
const EACH: [(Links, &str); 7] = [
    (Links::Words, EACH_ONE),
    (Links::Mixed, EACH_ONE),
    (Links::Mixed, ONE_THEN_TWO),
    (Links::Mixed, TWO_THEN_ONE),
    (Links::Mixed, EACH_TWO),
    (Links::Locked, EACH_ONE),
    (Links::Locked, EACH_TWO),
];

/// The runs. Where each link has a stray, that shows the kind of the link. Of two scripts one loses
/// everything that one end of its link sends, for more acts than there are turns: then all kinds of
/// links print the same.
static RUNS: [Run; 8] = [
    Run {
        links: &[(Links::Words, EACH_ONE), (Links::Mixed, EACH_ONE)],
        job: &[CHAIN, STRAYS],
        order: Order::InTurns,
        nodes: 3,
        report: &[OVER_WORDS],
    },
    Run {
        links: &[(Links::Mixed, ONE_THEN_TWO)],
        job: &[CHAIN, STRAYS],
        order: Order::InTurns,
        nodes: 3,
        report: &[OVER_A_WORD_AND_A_LOCK],
    },
    Run {
        links: &[(Links::Mixed, TWO_THEN_ONE)],
        job: &[CHAIN, STRAYS],
        order: Order::InTurns,
        nodes: 3,
        report: &[OVER_A_LOCK_AND_A_WORD],
    },
    Run {
        links: &[
            (Links::Mixed, EACH_TWO),
            (Links::Locked, EACH_ONE),
            (Links::Locked, EACH_TWO),
        ],
        job: &[CHAIN, STRAYS],
        order: Order::InTurns,
        nodes: 3,
        report: &[OVER_LOCKS],
    },
    Run {
        links: &EACH,
        job: &[CHAIN, r#""scripts":[{"frames_out":"DDDDDDDDDDDD"},null]}"#],
        order: Order::InTurns,
        nodes: 3,
        report: &[
            "r depth 0 received 1 acked - ended turns\nitems: 7\n\
        a depth 1 received 0 acked 0 ended upstream\nitems:\n\
        b depth 2 received 0 acked 0 ended upstream\nitems:\n",
        ],
    },
    Run {
        links: &EACH,
        job: &[CHAIN, r#""scripts":[null,{"frames_out":"DDDDDDDDDDDD"}]}"#],
        order: Order::InTurns,
        nodes: 3,
        report: &[
            "r depth 0 received 1 acked - ended upstream\nitems: 7\n\
        a depth 1 received 1 acked 1 ended turns\nitems: 7\n\
        b depth 2 received 0 acked 0 ended upstream\nitems:\n",
        ],
    },
    Run {
        links: &EACH,
        job: &[CHAIN, r#""scripts":[{"acks_out":"DDDDDDDDDDDD"},null]}"#],
        order: Order::InTurns,
        nodes: 3,
        report: &[
            "r depth 0 received 1 acked - ended turns\nitems: 7\n\
        a depth 1 received 1 acked 0 ended upstream\nitems: 7\n\
        b depth 2 received 1 acked 1 ended upstream\nitems: 7\n",
        ],
    },
    Run {
        links: &EACH,
        job: &[CHAIN, r#""scripts":[null,{"acks_out":"DDDDDDDDDDDD"}]}"#],
        order: Order::InTurns,
        nodes: 3,
        report: &[
            "r depth 0 received 1 acked - ended upstream\nitems: 7\n\
        a depth 1 received 1 acked 1 ended turns\nitems: 7\n\
        b depth 2 received 1 acked 0 ended upstream\nitems: 7\n",
        ],
    },
];

#[test]
fn kinds_of_links_and_the_script_of_each(rt: HostRuntime) {
    assert_all(&rt, rt.alloc(), &RUNS);
}
