//! Steps whose nodes are given by their names, before the tree is known.

ghost use Rattle.std.specs.Prelude.{◌≡◌, ◌⊎◌, ℕ, List, [], ◌∷◌, ◌++◌, get_or, map, slice_get, Ok};
ghost use Rattle.std.specs.Prelude.{IfOk, IfSome, IsTrue};
ghost use Rattle.serde_json.specs.Data.{string};
ghost use Rattle.stab_job.specs.Steps.{AreNodesOf};
ghost use Rattle.stab_tree.specs.Nodes.{Nodes};
ghost use Rattle.rignolda_scenario.specs.Entries.{link_named, node_named};
ghost use Rattle.rignolda_scenario.specs.NamedSteps.{AreStepsOf, IsIn, named_in, named_of};
ghost use Rattle.rignolda_scenario.specs.NamedSteps.{step_of_named, strike_on};

use crate::entry::start_fits;
use crate::step::Step;
use stab_core::{LinkAct, Start};
use stab_frames::{Item, Params, Sequence};
use stab_job::Names;
use stab_tree::{NodeId, Tree};
use stab_treecore::{Change, TreeEvent};
use std::alloc::{AllocError, Global};
use std::marker::Model;

/// A step with the name of its node, which the text lends.
#[derive(Drop)]
pub(crate) enum ReadStep<'t> {
    Act(&'t str, LinkAct),
    Publish(Sequence<Item>),
    Strike(&'t str, Start),
    Restart(&'t str, Sequence<Item>),
    Rounds(u16),
    ReadingRounds(u16),
}

/// A step with the place of the name of its node in a table.
#[derive(Drop)]
pub(crate) enum KeptStep {
    Act(u16, LinkAct),
    Publish(Sequence<Item>),
    Strike(u16, Start),
    Restart(u16, Sequence<Item>),
    Rounds(u16),
    ReadingRounds(u16),
}

/// Steps whose nodes are given by their names, and the table of these names.
#[derive(Drop)]
pub(crate) struct NamedSteps {
    names: Names,
    steps: Vec<KeptStep>,
}

impl Model for NamedSteps {
    ghost use Rattle.std.specs.Prelude.{List, All, map};
    ghost use Rattle.rignolda_scenario.specs.NamedSteps.{IsIn, NamedStep, named_in};

    ghost Value = { List NamedStep };

    ghost view = { λ s. map (named_in s.names) s.steps.items };

    ghost invariant = { λ s. All (IsIn s.names) s.steps.items };
}

/// The node at a place of this list.
fn listed(nodes: &[NodeId], place: u16) -> Option<NodeId>
    ensures { result ≡ slice_get nodes.now place }
{
    nodes.get(usize::from(place)).copied()
}

/// The node of the name at a place of a table, by the nodes of all its names.
fn node_at(nodes: &[NodeId], place: u16) -> Option<NodeId>
    ensures { IfSome result (λ node. (t : Nodes) (names : List (List ℕ))
        → AreNodesOf t.names names nodes.now
        → node_named t (string (get_or names place [])) ≡ Ok node) }
{
    listed(nodes, place)
}

/// The child and the place of the link into the node of the name at a place of a table.
fn link_at(tree: &Tree, nodes: &[NodeId], place: u16) -> Option<(NodeId, u16)>
    ensures { IfSome result (λ link. (names : List (List ℕ))
        → AreNodesOf tree.now.names names nodes.now
        → link_named tree.now (string (get_or names place [])) ≡ Ok link) }
{
    let node = node_at(nodes, place)?;
    let link = tree.link_place(node)?;
    Some((node, link))
}

/// The strike at a link, where its start fits the link.
fn fitting_strike(params: &[Params], link: (NodeId, u16), start: Start) -> Option<Step>
    ensures { IfSome result (λ step. strike_on params.now link start ≡ Ok step) }
{
    let own = params.get(usize::from(link.1))?;
    if start_fits(*own, &start).is_err() {
        return None;
    }
    Some(Step::One(Change::Strike(link.0, start)))
}

/// The step of a tree, by the nodes of the names of a table; none where it is refused.
fn step_over(tree: &Tree, params: &[Params], nodes: &[NodeId], step: KeptStep) -> Option<Step>
    ensures { IfSome result (λ its_step. (names : List (List ℕ))
        → AreNodesOf tree.now.names names nodes.now
        → step_of_named tree.now params.now (named_in names step) ≡ Ok its_step) }
{
    match step {
        KeptStep::Act(place, act) => {
            let link = link_at(tree, nodes, place)?;
            let child = link.0;
            Some(Step::One(Change::Act(TreeEvent { child, act })))
        }
        KeptStep::Publish(items) => Some(Step::One(Change::Publish(items))),
        KeptStep::Strike(place, start) => {
            let link = link_at(tree, nodes, place)?;
            fitting_strike(params, link, start)
        }
        KeptStep::Restart(place, items) => {
            let node = node_at(nodes, place)?;
            Some(Step::One(Change::Restart(node, items)))
        }
        KeptStep::Rounds(count) => Some(Step::Rounds(count)),
        KeptStep::ReadingRounds(count) => Some(Step::ReadingRounds(count)),
    }
}

/// The steps of a tree, by the nodes of the names of a table; none where one is refused.
fn steps_over(
    alloc: Global,
    tree: &Tree,
    params: &[Params],
    nodes: &[NodeId],
    steps: Vec<KeptStep>,
) -> Result<Option<Sequence<Step>>, AllocError>
    ensures { IfOk result (λ found. IfSome found (λ its_steps. (names : List (List ℕ))
        → AreNodesOf tree.now.names names nodes.now
        → AreStepsOf tree.now params.now (map (named_in names) steps.items) its_steps)) }
{
    let mut its_steps = Sequence::with_capacity(alloc, steps.len())?;
    'each: for step in steps {
        let Some(its_step) = step_over(tree, params, nodes, step) else {
            return Ok(None);
        };
        its_steps.push(its_step)?;
    }
    Ok(Some(its_steps))
}

/// The step with the place of its name in a table, to which the name is added; none where there are
/// too many names.
fn placed(
    alloc: Global,
    names: &mut Names,
    step: ReadStep<'_>,
) -> Result<Option<KeptStep>, AllocError>
    ensures grown { (names.new ≡ names.old)
        ⊎ ((name : List ℕ) × (names.new ≡ names.old ++ name ∷ [])) }
    ensures named { IfOk result (λ found. IfSome found (λ its_step.
        (named_in names.new its_step ≡ named_of step.entry) × IsIn names.new its_step)) }
{
    match step {
        ReadStep::Act(name, act) => {
            let Some(place) = names.place(alloc, name)? else {
                return Ok(None);
            };
            Ok(Some(KeptStep::Act(place, act)))
        }
        ReadStep::Strike(name, start) => {
            let Some(place) = names.place(alloc, name)? else {
                return Ok(None);
            };
            Ok(Some(KeptStep::Strike(place, start)))
        }
        ReadStep::Restart(name, items) => {
            let Some(place) = names.place(alloc, name)? else {
                return Ok(None);
            };
            Ok(Some(KeptStep::Restart(place, items)))
        }
        ReadStep::Publish(items) => Ok(Some(KeptStep::Publish(items))),
        ReadStep::Rounds(count) => Ok(Some(KeptStep::Rounds(count))),
        ReadStep::ReadingRounds(count) => Ok(Some(KeptStep::ReadingRounds(count))),
    }
}

impl NamedSteps {
    /// No steps.
    pub(crate) fn new(alloc: Global) -> NamedSteps
        ensures { result ≡ [] }
    {
        NamedSteps {
            names: Names::new(alloc),
            steps: Vec::new(alloc),
        }
    }

    /// Adds a step, and answers whether it could: there are not too many names.
    #[tactic(auto, using(crate::proofs::Tabled::still_in))]
    pub(crate) fn push(&mut self, alloc: Global, step: ReadStep<'_>) -> Result<bool, AllocError>
        ensures { IfOk result (λ done. IsTrue done
            → self.new ≡ self.old ++ named_of step.entry ∷ []) }
    {
        let Some(step) = placed(alloc, &mut self.names, step)? else {
            return Ok(false);
        };
        self.steps.push(step)?;
        Ok(true)
    }

    /// The steps of a tree whose links have these parameters; none where one is refused.
    pub(crate) fn into_steps(
        self,
        alloc: Global,
        tree: &Tree,
        params: &[Params],
    ) -> Result<Option<Sequence<Step>>, AllocError>
        ensures { IfOk result (λ found. IfSome found (λ steps.
            AreStepsOf tree.now params.now self steps)) }
    {
        let NamedSteps { names, steps } = self;
        let Some(nodes) = names.nodes_of(alloc, tree)? else {
            return Ok(None);
        };
        steps_over(alloc, tree, params, nodes.as_slice(), steps)
    }
}
