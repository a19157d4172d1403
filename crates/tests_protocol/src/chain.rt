//! What several modules begin with: trees, and a chain of three nodes with the worst starts.

ghost use Rattle.std.specs.Prelude.{◌≡◌, length};
ghost use Rattle.stab_tree.specs.NodeOpenings.{FitTree};

use serde_json::Value;
use stab_core::Start;
use stab_frames::{Frame, Item, Label, Params, Sequence};
use stab_tree::{NodeId, Tree, read_tree};
use stab_treecore::{Openings, TreeState};
use std::alloc::Global;
use std::process::Abort;

/// The chain r, a, b.
const CHAIN: &str = r#"[{"name":"r"},{"name":"a","parent":"r"},{"name":"b","parent":"a"}]"#;

/// The stray of the worst start of capacity 1.
pub(crate) const STRAY: Frame = Frame { label: 2, item: 99 };

/// The stray of another one.
const OTHER_STRAY: Frame = Frame { label: 2, item: 98 };

/// The tree that this text describes.
pub(crate) fn tree(rt: &(impl Abort + Alloc<A = Global>), text: &str) -> Tree {
    let value = Value::from_str(rt.alloc(), text).expect(rt, "JSON");
    read_tree(rt.alloc(), &value).expect(rt, "a tree")
}

/// A tree, and what its nodes begin with.
#[derive(Drop)]
pub(crate) struct Opened {
    pub(crate) tree: Tree,
    pub(crate) openings: Openings,
}

/// The chain, whose nodes begin with nothing.
pub(crate) fn chain(rt: &(impl Abort + Alloc<A = Global>)) -> Opened
    ensures fit { FitTree result.tree.parents result.openings }
{
    let tree = tree(rt, CHAIN);
    let openings = Openings::none(rt.alloc(), &tree).expect(rt, "openings");
    Opened { tree, openings }
}

/// The parameters of its links.
pub(crate) fn narrow(rt: &impl Abort) -> [Params; 2] {
    [Params::new(1, 4).expect(rt, "parameters"); 2]
}

/// A start with these frames and acknowledgements, and the labels of the worst start.
pub(crate) fn start(
    rt: &(impl Abort + Alloc<A = Global>),
    frames: &[Frame],
    acks: &[Label],
) -> Start {
    Start {
        frames: Sequence::from_vec(Vec::from_slice(rt.alloc(), frames).expect(rt, "frames")),
        acks: Sequence::from_vec(Vec::from_slice(rt.alloc(), acks).expect(rt, "acks")),
        send_label: 0,
        recv_label: 1,
    }
}

/// The worst starts of the chain's links.
pub(crate) fn worst_starts(rt: &(impl Abort + Alloc<A = Global>)) -> [Start; 2] {
    [start(rt, &[STRAY], &[0]), start(rt, &[OTHER_STRAY], &[0])]
}

/// What the links into a and b delivered and have acknowledged after `rounds` rounds.
pub(crate) struct After {
    pub(crate) rounds: u32,
    pub(crate) a: &'static [Item],
    pub(crate) a_acked: u64,
    pub(crate) b: &'static [Item],
    pub(crate) b_acked: u64,
}

/// Whether the links have this.
pub(crate) fn is_as(state: &TreeState, row: &After) -> bool {
    match (state.link(NodeId::new(1)), state.link(NodeId::new(2))) {
        (Some(a), Some(b)) => {
            a.delivered() == row.a
                && a.acked() == row.a_acked
                && b.delivered() == row.b
                && b.acked() == row.b_acked
        }
        _ => false,
    }
}
