//! What a page calls for a tree.

ghost use Rattle.std.specs.List.{list_all};
ghost use Rattle.std.specs.Prelude.{◌≡◌, ◌≤◌, IsTrue, length, map, take};
ghost use Rattle.stab_tree.specs.Nodes.{Nodes};
ghost use Rattle.stab_treecore.specs.Network.{IsNetwork};
ghost use Rattle.stab_treecore.specs.NodeLaws.{TreeLawAtNodes};
ghost use Rattle.stab_treecore.specs.TreeReplay.{initial_tree, tree_replay};
ghost use Rattle.stab_page.specs.TracedTree.{list_at, page_network, traced_initial_tree};
ghost use Rattle.stab_page.specs.TracedTree.{traced_tree_replay, tree_effects, whole};
ghost use Rattle.stab_page.specs.TreeCodes.{fits, openings_of, parent_of, setup_of};
ghost use Rattle.stab_page.specs.TreeCodes.{tree_event_of};
ghost use Rattle.stab_page.specs.TreeReport.{tree_answer, tree_is_accepted, tree_report};

use crate::laws;
use crate::numbers::{MAX_NUMBERS, Numbers};
use crate::tree::{MAX_NODES, MAX_STEPS, PageTree};
use crate::tree_code::{LinkCode, OpeningCode, TreeEventCode};
use crate::tree_numbers::tree_report;
use crate::tree_run::run_tree;
use stab_frames::Item;

/// The report of a tree after these events of a schedule: how many numbers there are, and the
/// numbers. None where there are not 1 to 8 nodes, a link does not fit, more than 256 items are
/// published, there are more than 256 events, or room for fewer than 32768 numbers.
///
/// A parent is the place of a node, or 65535 for the root. The openings are in file order, and an
/// inner node may begin with `hold` items, of which at most 8 are given. The links are in the file
/// order of their children. Without its origins the state is the replay of the schedule, and the
/// tree law holds of it at every node, where the parts are a network.
#[unsafe(no_mangle)]
pub extern "C" fn stab_page_tree_report(
    hold: u16,
    parents: &[u16],
    openings: &[OpeningCode],
    links: &[LinkCode],
    published: &[Item],
    events: &[TreeEventCode],
    numbers: &mut [u64],
) -> usize
    ensures count { result ≡ length (tree_answer (map parent_of parents.now)
        (openings_of hold openings.now) links.now published.now (map tree_event_of events.now)
        (length numbers.old)) }
    ensures numbers { take result numbers.new ≡ tree_answer (map parent_of parents.now)
        (openings_of hold openings.now) links.now published.now (map tree_event_of events.now)
        (length numbers.old) }
    ensures states { (tree : Nodes) → tree.parents ≡ map parent_of parents.now
        → let openings = openings_of hold openings.now in
        whole (traced_tree_replay (traced_initial_tree tree.parents openings
        (map setup_of links.now) published.now) (map tree_event_of events.now))
        ≡ tree_replay (initial_tree (page_network tree openings (map setup_of links.now)
        published.now)) (map tree_event_of events.now) }
    ensures law { (tree : Nodes) → tree.parents ≡ map parent_of parents.now
        → let openings = openings_of hold openings.now in
        let net = page_network tree openings (map setup_of links.now) published.now in
        IsNetwork net → TreeLawAtNodes net
        (list_at (traced_tree_replay (traced_initial_tree tree.parents openings
        (map setup_of links.now) published.now) (map tree_event_of events.now))) }
{
    laws::every_tree_obeys_the_tree_law();
    let room = numbers.len();
    if !is_accepted(parents, links, published, events, room) {
        return 0;
    }
    let report = report_of(hold, parents, openings, links, published, events);
    let count = report.len();
    numbers[..count].copy_from_slice(report.as_slice());
    count
}

/// Whether there is room for all of this.
fn is_accepted(
    parents: &[u16],
    links: &[LinkCode],
    published: &[Item],
    events: &[TreeEventCode],
    room: usize,
) -> bool
    ensures { result ≡ tree_is_accepted (map parent_of parents.now) links.now published.now
        (map tree_event_of events.now) room }
{
    (1..=MAX_NODES).contains(&parents.len())
        && all_fit(links)
        && published.len() <= MAX_STEPS
        && events.len() <= MAX_STEPS
        && MAX_NUMBERS <= room
}

/// Whether each of these links fits.
fn all_fit(links: &[LinkCode]) -> bool
    ensures { result ≡ list_all fits links.now }
{
    for link in links {
        if !link.fits() {
            return false;
        }
    }
    true
}

/// The report of a tree that fits, after these events.
fn report_of(
    hold: u16,
    parents: &[u16],
    openings: &[OpeningCode],
    links: &[LinkCode],
    published: &[Item],
    events: &[TreeEventCode],
) -> Numbers
    requires parents { length parents.now ≤ MAX_NODES }
    requires links { IsTrue (list_all fits links.now) }
    requires published { length published.now ≤ MAX_STEPS }
    requires events { length events.now ≤ MAX_STEPS }
    ensures { let initial = traced_initial_tree (map parent_of parents.now)
        (openings_of hold openings.now) (map setup_of links.now) published.now in
        let events = map tree_event_of events.now in
        result.items ≡ tree_report (traced_tree_replay initial events)
        (tree_effects initial events) }
{
    let mut tree = PageTree::new(parents, hold, openings, links, published);
    let had = run_tree(&mut tree, events);
    tree_report(&tree, had.as_slice())
}
