//! A tree under one schedule, where no program shows it: lists that have not one entry for each
//! link, and nodes into which no link leads.

use crate::chain::{chain, narrow, worst_starts};
use stab_frames::Params;
use stab_tree::NodeId;
use stab_treecore::{LinkAct, TreeEvent, TreeStartFault, TreeState, TreeStepFault, run_schedule};

/// No program reports it, since the reader of a job counts its links and starts.
#[test]
fn refuses_a_wrong_number_of_parameters_or_starts(rt: HostRuntime) {
    let opened = chain(&rt);
    let params = [Params::new(1, 4).expect(&rt, "parameters"); 3];
    let starts = worst_starts(&rt);
    assert!(rt; starts.len() == 2);
    let rows = [
        (&params[..1], &starts[..]),
        (&params[..3], &starts[..]),
        (&params[..2], &starts[..1]),
    ];
    for (params, starts) in &rows {
        let fault = run_schedule(
            rt.alloc(),
            *params,
            &opened.tree,
            &[7, 8],
            *starts,
            &opened.openings,
            &[],
        )
        .err();
        assert!(rt; fault == Some(TreeStartFault::StartCount), "{fault:?}");
    }
    let text = TreeStartFault::StartCount.to_string(rt.alloc());
    assert!(rt; text.expect(&rt, "a text").as_str() == "start: wrong number of starts");
}

/// Acts on the link into the root, and into no node.
static UNKNOWN: [(u16, LinkAct); 2] = [(0, LinkAct::Offer), (3, LinkAct::Close)];

/// The programs name no stranger, and see no link into the root.
#[test]
fn no_link_leads_into_the_root_or_a_stranger(rt: HostRuntime) {
    let opened = chain(&rt);
    let starts = worst_starts(&rt);
    let mut state = TreeState::new(
        rt.alloc(),
        &narrow(&rt),
        &opened.tree,
        &[7, 8],
        &starts,
        &opened.openings,
    )
    .expect(&rt, "a state");
    for (place, act) in &UNKNOWN {
        let child = NodeId::new(*place);
        let effect = state.apply(TreeEvent { child, act: *act });
        assert!(rt; effect == Err(TreeStepFault::NoSuchLink), "{place}");
        assert!(rt; state.link(child).is_none(), "{place}");
    }
}
