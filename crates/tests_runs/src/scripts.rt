//! Each list of a script decides what a run over it delivers: runs in turns, worked out by hand.

use crate::gates::Order;
use crate::runs::{ALL, LOCKED, Run, assert_all};

/// A root and its child over a clean link of capacity one, and two items: as many turns as follow.
const TWO_ITEMS: &str = r#"{"capacity":1,"labels":4,"items":[7,8],
    "tree":[{"name":"r"},{"name":"a","parent":"r"}],"turns":"#;

/// The report where both items arrived and are acknowledged.
const BOTH: &str = "r depth 0 received 2 acked - ended upstream\nitems: 7 8\n\
    a depth 1 received 2 acked 2 ended upstream\nitems: 7 8\n";

/// The report where both arrived, and the second is not acknowledged.
const BOTH_AND_ONE_ACKED: &str = "r depth 0 received 2 acked - ended turns\nitems: 7 8\n\
    a depth 1 received 2 acked 1 ended upstream\nitems: 7 8\n";

/// The report where the first alone arrived.
const THE_FIRST: &str = "r depth 0 received 2 acked - ended turns\nitems: 7 8\n\
    a depth 1 received 1 acked 1 ended upstream\nitems: 7\n";

/// Three items, and four turns over a locked link.
const THREE_ITEMS: &str = r#"{"capacity":1,"labels":4,"items":[7,8,9],"turns":4,
    "tree":[{"name":"r"},{"name":"a","parent":"r"}],"scripts":["#;

/// A job of which the first hundred thousand frames and acknowledgements are lost, and all others
/// pass.
const LOSSES: &str = r#"{"capacity":1,"labels":4,"items":[0,7],"turns":1000000,
    "tree":[{"name":"r"},{"name":"a","parent":"r"}],
    "scripts":[{"seed":[42,54],"length":100000,"loss":1000,"repeat":0}]}"#;

/// The runs.
///
/// The first five have three turns and one act in one of the four lists. Without it, 7 is sent,
/// received and acknowledged in the first turn of both, 8 in the second, and the root ends in its
/// third. A frame that stays takes the place of 8 in the second turn; a lost frame, and a lost
/// acknowledgement, cost a turn as well: then the link is closed before 8 is received. An
/// acknowledgement that stays takes the place of that of 8.
///
/// In the two after these all three items arrive without a script. Where each frame that is
/// received stays, 8 and 9 never find a place in the queue.
static RUNS: [Run; 8] = [
    Run {
        links: &LOCKED,
        job: &[TWO_ITEMS, r#"3,"scripts":[null]}"#],
        order: Order::InTurns,
        nodes: 2,
        report: &[BOTH],
    },
    Run {
        links: &LOCKED,
        job: &[TWO_ITEMS, r#"3,"scripts":[{"frames_out":"D"}]}"#],
        order: Order::InTurns,
        nodes: 2,
        report: &[THE_FIRST],
    },
    Run {
        links: &LOCKED,
        job: &[TWO_ITEMS, r#"3,"scripts":[{"frames_in":"K"}]}"#],
        order: Order::InTurns,
        nodes: 2,
        report: &[THE_FIRST],
    },
    Run {
        links: &LOCKED,
        job: &[TWO_ITEMS, r#"3,"scripts":[{"acks_out":"D"}]}"#],
        order: Order::InTurns,
        nodes: 2,
        report: &[THE_FIRST],
    },
    Run {
        links: &LOCKED,
        job: &[TWO_ITEMS, r#"3,"scripts":[{"acks_in":"K"}]}"#],
        order: Order::InTurns,
        nodes: 2,
        report: &[BOTH_AND_ONE_ACKED],
    },
    Run {
        links: &LOCKED,
        job: &[THREE_ITEMS, "null]}"],
        order: Order::InTurns,
        nodes: 2,
        report: &[
            "r depth 0 received 3 acked - ended upstream\nitems: 7 8 9\n\
        a depth 1 received 3 acked 3 ended upstream\nitems: 7 8 9\n",
        ],
    },
    Run {
        links: &LOCKED,
        job: &[THREE_ITEMS, r#"{"frames_in":"KKKK"}]}"#],
        order: Order::InTurns,
        nodes: 2,
        report: &[
            "r depth 0 received 3 acked - ended turns\nitems: 7 8 9\n\
        a depth 1 received 1 acked 1 ended upstream\nitems: 7\n",
        ],
    },
    Run {
        links: &ALL,
        job: &[LOSSES],
        order: Order::Paced,
        nodes: 2,
        report: &[
            "r depth 0 received 2 acked - ended upstream\nitems: 0 7\n\
        a depth 1 received 2 acked 2 ended upstream\nitems: 0 7\n",
        ],
    },
];

#[test]
fn each_list_of_a_script(rt: HostRuntime) {
    assert_all(&rt, rt.alloc(), &RUNS);
}
