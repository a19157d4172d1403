ghost use Rattle.std.specs.Prelude.{◌≡◌, ◌<◌, IfOk, length, map};
ghost use Rattle.stab_core.specs.Replay.{start_items};
ghost use Rattle.stab_treecore.specs.Network.{network_of};
ghost use Rattle.stab_treecore.specs.NodeLaws.{capacity_into, garbage_into};
ghost use Rattle.stab_tree.specs.NodeOpenings.{FitTree, opening_at};
ghost use Rattle.stab_treecore.specs.Refusals.{OnePerLink};

use stab_core::Start;
use stab_frames::{Item, Params, Sequence};
use stab_tree::{NodeId, Tree};
use stab_treecore::Openings;
use std::alloc::{AllocError, Global};
use std::marker::Model;

/// A network whose laws are looked up, and reports judged by them: the tree, the openings of its
/// nodes, the parameters and the start of each link in the file order of their children, and the
/// items that the root publishes. Beside these, which it borrows, it has the items of each start's
/// frames. Only making one takes memory.
#[derive(Drop)]
pub struct Judge<'a> {
    pub(crate) tree: &'a Tree,
    pub(crate) openings: &'a Openings,
    params: &'a [Params],
    starts: &'a [Start],
    pub(crate) published: &'a [Item],
    garbage: Vec<Sequence<Item>>,
}

impl<'a> Model for Judge<'a> {
    ghost use Rattle.stab_judge.specs.JudgeInside.{IsJudge};
    ghost use Rattle.stab_treecore.specs.Network.{Network, network_of};

    ghost Value = { Network };

    ghost view = { λ j.
        network_of j.params.now j.tree.now j.published.now j.starts.now j.openings.now };

    ghost invariant = { λ j.
        IsJudge j.params.now j.tree.now j.starts.now j.openings.now j.garbage.items };
}

/// The items of the frames of a start, the front first.
fn start_items(alloc: Global, start: &Start) -> Result<Sequence<Item>, AllocError>
    ensures { IfOk result (λ items. items ≡ start_items start.now) }
{
    let mut items = Vec::with_capacity(alloc, start.frames.len())?;
    for frame in start.frames.as_slice() {
        items.push_reserved(frame.item);
    }
    Ok(Sequence::from_vec(items))
}

impl<'a> Judge<'a> {
    /// The judge of this network: one entry of `params` and of `starts` for each link of the tree,
    /// and openings that were made for it.
    pub fn new(
        alloc: Global,
        tree: &'a Tree,
        openings: &'a Openings,
        params: &'a [Params],
        starts: &'a [Start],
        published: &'a [Item],
    ) -> Result<Judge<'a>, AllocError>
        requires params_per_link { OnePerLink tree.now.parents params.now }
        requires starts_per_link { OnePerLink tree.now.parents starts.now }
        requires openings_fit { FitTree tree.now.parents openings.now }
        ensures { IfOk result (λ judge. judge
            ≡ network_of params.now tree.now published.now starts.now openings.now) }
    {
        let mut garbage = Vec::with_capacity(alloc, starts.len())?;
        for start in starts {
            garbage.push_reserved(start_items(alloc, start)?);
        }
        Ok(Judge {
            tree,
            openings,
            params,
            starts,
            published,
            garbage,
        })
    }

    /// What a node begins with that nobody published.
    pub fn opening_at(&self, node: NodeId) -> &[Item]
        requires { node < length self.now.tree.parents }
        ensures { result.now ≡ opening_at self.now.openings.lists node }
    {
        self.openings.list(node)
    }

    /// The capacity of the link into a node, and 0 at the root.
    pub fn capacity_into(&self, node: NodeId) -> u16
        ensures { result ≡ capacity_into self.now node }
    {
        match self.tree.link_place(node) {
            None => 0,
            Some(place) => self.params[usize::from(place)].capacity(),
        }
    }

    /// The items in the frames of the link into a node at its start.
    pub fn garbage_into(&self, node: NodeId) -> &[Item]
        ensures { result.now ≡ garbage_into self.now node }
    {
        match self.tree.link_place(node) {
            None => &[],
            Some(place) => self.garbage[usize::from(place)].as_slice(),
        }
    }
}
