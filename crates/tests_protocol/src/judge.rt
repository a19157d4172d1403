//! A judge of a report that no reader makes, and the deciders of lists alone.

use crate::chain::{chain, narrow, tree, worst_starts};
use crate::reports::{PAIR, REPORT};
use stab_frames::Item;
use stab_judge::{
    Broken, Judge, count_picked, is_picked, obeys_complete_law, obeys_half_law,
    obeys_half_tree_law, obeys_link_law, obeys_link_law_within, obeys_sharper_law_below,
    obeys_sharper_link_law, obeys_sharper_tree_law, obeys_tree_law,
};
use stab_report::read_report;

#[test]
fn refuses_a_report_of_two_nodes(rt: HostRuntime) {
    let opened = chain(&rt);
    let params = narrow(&rt);
    let starts = worst_starts(&rt);
    assert!(rt; opened.tree.link_count() == 2 && starts.len() == 2);
    let judge = Judge::new(
        rt.alloc(),
        &opened.tree,
        &opened.openings,
        &params,
        &starts,
        &[7, 8],
    )
    .expect(&rt, "memory");
    let pair = tree(&rt, PAIR);
    let report = read_report(rt.alloc(), &pair, REPORT.as_bytes()).expect(&rt, "a report");
    assert!(rt; judge.first_broken(&report) == Some(Broken::Entries));
    assert!(rt; !judge.obeys(&report));
}

/// What was offered of the worst start's example, whose start has the stray 99.
const OFFERED: [Item; 4] = [10, 11, 12, 13];

#[test]
fn one_link_obeys_up_to_its_bounds(rt: HostRuntime) {
    assert!(rt; count_picked(&[8, 7], &[7, 8, 8]) == 1);
    let obeyed = [
        is_picked(&[7, 8, 8], &[7, 8, 8]),
        is_picked(&[7, 8], &[7, 8, 8]),
        obeys_half_law(1, &[99], &OFFERED, 3, &[99, 13]),
        obeys_link_law_within(1, 3, &[99], &OFFERED, 3, &[99, 13]),
        obeys_link_law(1, &[99], &OFFERED, 3, &[99, 13]),
        obeys_sharper_law_below(1, &[99], &[10, 11, 12, 13, 14], 3, &[99, 13]),
        obeys_sharper_link_law(1, &[99], &OFFERED, 3, &[99, 13]),
        obeys_sharper_link_law(1, &[99], &OFFERED, 3, &[12, 13]),
    ];
    assert!(rt; obeyed == [true; 8], "{obeyed:?}");
    let broken = [
        is_picked(&[8, 7], &[7, 8, 8]),
        is_picked(&[7, 7], &[7, 8, 8]),
        obeys_half_law(1, &[99], &OFFERED, 2, &[99, 13]),
        obeys_link_law_within(1, 2, &[99], &OFFERED, 3, &[99, 13]),
        obeys_link_law_within(0, 3, &[99], &OFFERED, 3, &[99, 13]),
        obeys_link_law(1, &[99], &OFFERED, 4, &[99]),
        obeys_sharper_law_below(1, &[99], &[10, 11, 12, 13, 14], 3, &[99, 14]),
        obeys_sharper_law_below(1, &[99], &OFFERED, 5, &[99, 13]),
        obeys_sharper_link_law(1, &[99], &OFFERED, 3, &[13]),
        obeys_sharper_link_law(1, &[98], &OFFERED, 3, &[99, 13]),
    ];
    assert!(rt; broken == [false; 10], "{broken:?}");
}

/// A node's strays, what was published, and what it received.
const STRAYS: [Item; 2] = [98, 99];

const PUBLISHED: [Item; 7] = [10, 11, 12, 13, 14, 15, 16];

const RECEIVED: [Item; 3] = [98, 15, 16];

#[test]
fn one_node_obeys_up_to_its_bounds(rt: HostRuntime) {
    let obeyed = [
        obeys_half_tree_law(2, &STRAYS, &PUBLISHED, &RECEIVED),
        obeys_complete_law(2, 6, &STRAYS, &PUBLISHED, &[98, 16]),
        !obeys_half_tree_law(0, &STRAYS, &PUBLISHED, &RECEIVED),
        !obeys_complete_law(2, 6, &STRAYS, &PUBLISHED, &[98, 15]),
    ];
    assert!(rt; obeyed == [true; 4], "{obeyed:?}");
    let reached = obeys_tree_law(rt.alloc(), 2, 5, &STRAYS, &PUBLISHED, &RECEIVED);
    assert!(rt; reached.expect(&rt, "memory"));
    let too_few = obeys_tree_law(rt.alloc(), 2, 4, &STRAYS, &PUBLISHED, &RECEIVED);
    assert!(rt; !too_few.expect(&rt, "memory"));
    // (the one stray lets a fifth item be missing, but not a sixth)
    for (without_strays, most, obeys) in [(4, 5, true), (3, 5, false), (4, 4, false)] {
        let sharper = obeys_sharper_tree_law(
            rt.alloc(),
            2,
            without_strays,
            most,
            &STRAYS,
            &PUBLISHED,
            &RECEIVED,
        );
        assert!(rt; sharper.expect(&rt, "memory") == obeys);
    }
}
