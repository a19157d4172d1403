ghost use Rattle.std.specs.Prelude.{◌≡◌, ◌↔◌, ◌<◌, length, is_some, option_copied, option_map, All};
ghost use Rattle.std.specs.Prelude.{if◌then◌else◌};
ghost use Rattle.std.specs.Prelude.{ℕ, List, ◌++◌, Some, IsSome, IsNone, IfOk, IfErr, OnOk, OnErr};
ghost use Rattle.std.specs.Prelude.{IsErrOf};
ghost use Rattle.std.specs.Option.{option_map_or};
ghost use Rattle.stab_core.specs.Link.{Grows, LinkValue, Steps};
ghost use Rattle.stab_core.specs.LinkSetup.{CanBegin, setups};
ghost use Rattle.stab_core.specs.Replay.{IsLawful};
ghost use Rattle.stab_tree.specs.Nodes.{parent_at};
ghost use Rattle.stab_treecore.specs.WholeTree.{WholeTree, link_into, received, source};
ghost use Rattle.stab_core.specs.Step.{effect};
ghost use Rattle.stab_treecore.specs.Faults.{published_more, restarted_tree, struck_tree};
ghost use Rattle.stab_treecore.specs.Fresh.{fresh_item};
ghost use Rattle.stab_treecore.specs.Network.{network_of};
ghost use Rattle.stab_tree.specs.NodeOpenings.{FitTree};
ghost use Rattle.stab_treecore.specs.Refusals.{OnePerLink, IsStartReason, NamesLink, NamesNoLink};
ghost use Rattle.stab_treecore.specs.Refusals.{IsRestartReason, IsStrikeReason};
ghost use Rattle.stab_treecore.specs.TreeReplay.{initial_tree};
ghost use Rattle.stab_treecore.specs.TreeStep.{next_item, link_after, effect_on, tree_step};
ghost use Rattle.stab_treecore.specs.TreeStep.{tree_effect};

use crate::event::TreeEvent;
use crate::fault::{RestartFault, StrikeFault, TreeStartFault, TreeStepFault};
use crate::{hit, open};
use stab_core::{Effect, Event, Link, Start};
use stab_frames::{Item, Params};
use stab_tree::{NodeId, Openings, Tree};
use std::alloc::{AllocError, Global};
use std::marker::Model;

/// All links of a tree, with the items that its root publishes and those that its inner nodes begin
/// with. Contracts see the published items, and of each node its opening, its parent and the link
/// into it.
#[derive(Debug)]
pub struct TreeState {
    published: Vec<Item>,
    /// What each node began with that nobody published.
    openings: Vec<Vec<Item>>,
    parents: Vec<Option<NodeId>>,
    links: Vec<Option<Link>>,
    /// What each node with a link received: its opening, and then what its link delivered.
    received: Vec<Vec<Item>>,
}

impl Drop for TreeState {
    fn drop(self) {
        let TreeState {
            published: _,
            openings: _,
            parents: _,
            links: _,
            received: _,
        } = self;
    }
}

impl Model for TreeState {
    ghost use Rattle.std.specs.Prelude.{map};
    ghost use Rattle.stab_treecore.specs.WholeTree.{WholeTree};

    ghost Value = { WholeTree };

    ghost use Rattle.stab_treecore.specs.TreeInside.{IsSound};

    ghost view = { λ t. record {
      published = t.published.items;
      openings = map (λ list. list.items) t.openings.items;
      parents = t.parents.items;
      links = t.links.items;
    } };

    ghost invariant = { λ t. IsSound (record {
      published = t.published.items;
      openings = map (λ list. list.items) t.openings.items;
      parents = t.parents.items;
      links = t.links.items;
    }) (map (λ list. list.items) t.received.items) };
}

impl TreeState {
    /// The whole tree at its start. The parameters and the starts are in the file order of the
    /// links' children.
    ///
    /// Lists that have not one entry for each link are refused, and then the first start that its
    /// link cannot begin from; memory can be refused only where each link can begin from its start.
    pub fn new(
        alloc: Global,
        params: &[Params],
        tree: &Tree,
        published: &[Item],
        starts: &[Start],
        openings: &Openings,
    ) -> Result<TreeState, TreeStartFault>
        requires fit { FitTree tree.now.parents openings.now }
        ensures initial { IfOk result (λ state.
            state ≡ initial_tree
            (network_of params.now tree.now published.now starts.now openings.now)) }
        ensures params_per_link { OnOk result (OnePerLink tree.now.parents params.now) }
        ensures one_per_link { OnOk result (OnePerLink tree.now.parents starts.now) }
        ensures lawful { OnOk result (All CanBegin (setups params.now starts.now)) }
        ensures refused { IfErr result (IsStartReason params.now tree.now.parents starts.now) }
    {
        open::check_starts(params, tree, starts)?;
        let links = open::links(alloc, params, tree.parents(), starts)?;
        let _root = tree.root();
        Ok(TreeState {
            published: Vec::from_slice(alloc, published)?,
            openings: open::lists(alloc, tree, openings)?,
            parents: Vec::from_slice(alloc, tree.parents())?,
            links,
            received: open::lists(alloc, tree, openings)?,
        })
    }

    /// One step: an act on the link into a node. Where it is refused, the whole tree is as it was;
    /// memory can be refused only where a list of that link grows.
    pub fn apply(&mut self, event: TreeEvent) -> Result<Effect, TreeStepFault>
        ensures steps { IfOk result (λ effect.
            (self.new ≡ tree_step self.old event) × (effect ≡ tree_effect self.old event)) }
        ensures named { OnOk result (NamesLink self.old.parents event) }
        ensures no_such_link { IsErrOf result TreeStepFault.NoSuchLink
            ↔ NamesNoLink self.old.parents event }
        ensures memory { IsErrOf result TreeStepFault.Memory → Grows (tree_effect self.old event) }
        ensures unchanged { OnErr result (self.new ≡ self.old) }
    {
        let place = event.child.index();
        if place >= self.links.len() {
            return Err(TreeStepFault::NoSuchLink);
        }
        let event = event.act.event(self.next_item(event.child));
        step(&mut self.links[place], &mut self.received[place], event)
    }

    /// The root publishes more items, after those that it has. Where memory is refused, the whole
    /// tree is as it was.
    pub fn publish(&mut self, items: &[Item]) -> Result<(), AllocError>
        ensures published { OnOk result (self.new ≡ published_more self.old items.now) }
        ensures unchanged { OnErr result (self.new ≡ self.old) }
    {
        self.published.extend_from_slice(items)
    }

    /// A fault strikes the link into a node: its queues and labels become these. It takes no
    /// memory; where it is refused, the whole tree is as it was.
    pub fn strike(&mut self, child: NodeId, start: &Start) -> Result<(), StrikeFault>
        ensures struck { OnOk result (self.new ≡ struck_tree self.old child start.now) }
        ensures named { OnOk result (IsSome (link_into self.old child)) }
        ensures lawful { OnOk result ((link : LinkValue) → link_into self.old child ≡ Some link
            → IsLawful link.params start.now) }
        ensures refused { IfErr result (IsStrikeReason self.old child start.now) }
        ensures unchanged { OnErr result (self.new ≡ self.old) }
    {
        let place = child.index();
        if place >= self.links.len() {
            return Err(StrikeFault::NoSuchLink);
        }
        hit::strike(&mut self.links[place], start)
    }

    /// A node restarts: its list becomes this one, and its senders hold nothing and begin with the
    /// first item of it; at the root it is what is published. Where it is refused, the whole tree
    /// is as it was.
    pub fn restart(
        &mut self,
        alloc: Global,
        node: NodeId,
        list: &[Item],
    ) -> Result<(), RestartFault>
        ensures restarted { OnOk result (self.new ≡ restarted_tree self.old node list.now) }
        ensures refused { IfErr result (IsRestartReason self.old.parents node) }
        ensures unchanged { OnErr result (self.new ≡ self.old) }
    {
        let place = node.index();
        if place >= self.links.len() {
            return Err(RestartFault::NoSuchNode);
        }
        let opening = Vec::from_slice(alloc, list)?;
        let received = Vec::from_slice(alloc, list)?;
        let published = Vec::from_slice(alloc, list)?;
        replace_unless(self.links[place].is_some(), &mut self.published, published);
        self.received[place] = received;
        self.openings[place] = opening;
        hit::restart(node, &self.parents, &mut self.links);
        Ok(())
    }

    /// What a node received: its opening, and then what the link into it delivered; at the root
    /// each published item.
    pub fn received(&self, node: NodeId) -> &[Item]
        requires { node < length self.now.parents }
        ensures { result.now ≡ received self.now node }
    {
        match &self.links[node.index()] {
            Some(_) => self.received[node.index()].as_slice(),
            None => self.published.as_slice(),
        }
    }

    /// The link into a node; the root and what is no node have none.
    pub fn link(&self, node: NodeId) -> Option<&Link>
        ensures link { option_copied result ≡ link_into self.now node }
        ensures none { IsNone result ↔ IsNone (parent_at self.now.parents node) }
    {
        self.links.get(node.index())?.as_ref()
    }

    /// The items that the link into a node offers, in their order.
    fn source(&self, child: NodeId) -> &[Item]
        ensures { result.now ≡ source self.now child }
    {
        match self.parents.get(child.index()) {
            Some(Some(parent)) => self.received(*parent),
            _ => &[],
        }
    }

    /// The item that the link into a node is to be offered next.
    fn next_item(&self, child: NodeId) -> Option<Item>
        ensures { result ≡ next_item self.now child }
    {
        let link = self.link(child)?;
        self.source(child).get(link.offered().len()).copied()
    }
}

/// A list is replaced, unless it is to be kept.
fn replace_unless(keep: bool, list: &mut Vec<Item>, by: Vec<Item>)
    ensures { list.new.items ≡ (if keep then list.old.items else by.items) }
{
    if !keep {
        *list = by;
    }
}

/// The item that an event on a link delivers, where it delivers one.
fn fresh_item(link: &Link, event: Event) -> Option<Item>
    ensures { result ≡ fresh_item (effect link.now.params link.now.state event) }
{
    let Event::RecvFrame { .. } = event else {
        return None;
    };
    if link.is_closed() {
        return None;
    }
    let frame = link.frame_at(0)?;
    if frame.label == link.recv_label() {
        return None;
    }
    Some(frame.item)
}

/// One step of a link by an event; an item that it delivers is added to this list. Where memory is
/// refused, the link and the list are as they were.
fn step_link(link: &mut Link, received: &mut Vec<Item>, event: Event) -> Result<Effect, AllocError>
    ensures steps { IfOk result (λ had. Steps link.old event link.new had) }
    ensures follows { (opening : List ℕ) → received.old.items ≡ opening ++ link.old.state.delivered
        → received.new.items ≡ opening ++ link.new.state.delivered }
    ensures memory { OnErr result (Grows (effect link.old.params link.old.state event)) }
    ensures unchanged { OnErr result (link.new ≡ link.old) }
{
    let Some(item) = fresh_item(link, event) else {
        return link.apply(event);
    };
    received.reserve(1)?;
    let effect = link.apply(event)?;
    received.push_reserved(item);
    Ok(effect)
}

/// One step of a link, where there is one, by an event, where there is one.
fn step(
    link: &mut Option<Link>,
    received: &mut Vec<Item>,
    event: Option<Event>,
) -> Result<Effect, TreeStepFault>
    ensures link { IfOk result (λ _. link.new ≡ option_map (link_after event) link.old) }
    ensures kind { is_some link.new ≡ is_some link.old }
    ensures effect { IfOk result (λ effect.
        effect ≡ option_map_or (effect_on event) link.old Effect.Nothing) }
    ensures named { OnOk result (IsSome link.old) }
    ensures no_such_link { IsErrOf result TreeStepFault.NoSuchLink ↔ IsNone link.old }
    ensures memory { IsErrOf result TreeStepFault.Memory
        → Grows (option_map_or (effect_on event) link.old Effect.Nothing) }
    ensures follows { (opening : List ℕ) (before after : LinkValue)
        → link.old ≡ Some before → link.new ≡ Some after
        → received.old.items ≡ opening ++ before.state.delivered
        → received.new.items ≡ opening ++ after.state.delivered }
    ensures unchanged { OnErr result (link.new ≡ link.old) }
{
    let Some(link) = link else {
        return Err(TreeStepFault::NoSuchLink);
    };
    match event {
        None => Ok(Effect::Nothing),
        Some(event) => Ok(step_link(link, received, event)?),
    }
}
