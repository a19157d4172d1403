ghost use Rattle.std.specs.Prelude.{◌≡◌, ◌≤◌, Bool, List, [], ◌∷◌, ◌++◌, length, Some};
ghost use Rattle.std.specs.Prelude.{IfOk, IfSome, IsTrue, OnErr, OnOk};
ghost use Rattle.stab_job.specs.ScheduleEntries.{NamedAct, events_of};
ghost use Rattle.stab_job.specs.Steps.{AreKept, kept_of};
ghost use Rattle.stab_script.specs.LinkJobs.{most_events};

use crate::events::events_over;
use crate::names::Names;
use crate::step::Step;
use stab_frames::Sequence;
use stab_script::MAX_EVENTS;
use stab_tree::{NodeId, Tree};
use stab_treecore::TreeEvent;
use std::alloc::{AllocError, Global};
use std::marker::Model;

/// The steps of a schedule. Each is kept in the form of an event, in which the place of its name in
/// a table stands for the node; so a step takes no more memory than the event that it becomes. Or
/// none is kept, and they are only counted.
pub(crate) struct Schedule {
    names: Names,
    count: usize,
    are_kept: bool,
    kept: Vec<TreeEvent>,
}

impl Drop for Schedule {
    fn drop(self) {
        let Schedule {
            names: _,
            count: _,
            are_kept: _,
            kept: _,
        } = self;
    }
}

impl Model for Schedule {
    ghost use Rattle.stab_job.specs.Steps.{AreIn, KeptSteps};

    ghost Value = { KeptSteps };

    ghost view = { λ s. record {
      names = s.names;
      count = s.count;
      are_kept = s.are_kept;
      kept = s.kept.items;
    } };

    ghost invariant = { λ s. AreIn s.names s.kept.items };
}

/// Adds a step to those that are kept, where they are.
#[tactic(auto, using(crate::proofs::Kept::more_are_kept, crate::proofs::Kept::none_is_kept))]
fn keep(kept: &mut Vec<TreeEvent>, are_kept: bool, step: TreeEvent) -> Result<(), AllocError>
    ensures kept { OnOk result (kept.new.items ≡ kept.old.items ++ kept_of are_kept (step ∷ [])) }
    ensures same { OnErr result (kept.new.items ≡ kept.old.items) }
{
    if are_kept {
        kept.push(step)?;
    }
    Ok(())
}

impl Schedule {
    /// No steps. Those that are added are kept, or only counted.
    #[tactic(auto, using(crate::proofs::Kept::none_kept))]
    pub(crate) fn new(alloc: Global, are_kept: bool) -> Schedule
        ensures { AreKept are_kept result [] }
    {
        Schedule {
            names: Names::new(alloc),
            count: 0,
            are_kept,
            kept: Vec::new(alloc),
        }
    }

    /// Adds a step, and answers whether it could: there are not too many steps or names.
    #[tactic(auto, using(crate::proofs::Kept::kept_within))]
    pub(crate) fn push(&mut self, alloc: Global, step: Step<'_>) -> Result<bool, AllocError>
        ensures { IfOk result (λ done. IsTrue done → (keeps : Bool) (acts : List NamedAct)
            → AreKept keeps self.old acts → AreKept keeps self.new (acts ++ step.entry ∷ [])) }
    {
        if self.count >= MAX_EVENTS {
            return Ok(false);
        }
        let Some(place) = self.names.place(alloc, step.child)? else {
            return Ok(false);
        };
        let event = TreeEvent {
            child: NodeId::new(place),
            act: step.act,
        };
        keep(&mut self.kept, self.are_kept, event)?;
        self.count += 1;
        Ok(true)
    }

    /// The events of the steps that are kept over the nodes of a tree, where each name is that of a
    /// node, also where no steps are kept.
    pub(crate) fn into_events(
        self,
        alloc: Global,
        tree: &Tree,
    ) -> Result<Option<Sequence<TreeEvent>>, AllocError>
        ensures { IfOk result (λ found. IfSome found (λ events. (keeps : Bool)
            (acts : List NamedAct) → AreKept keeps self acts
            → (whole : List TreeEvent) × (events_of tree.now.names acts ≡ Some whole)
            × (events ≡ kept_of keeps whole) × (length acts ≤ most_events))) }
    {
        let Schedule {
            names,
            count: _,
            are_kept: _,
            kept,
        } = self;
        let Some(nodes) = names.nodes_of(alloc, tree)? else {
            return Ok(None);
        };
        let events = events_over(alloc, nodes.as_slice(), kept.as_slice())?;
        Ok(Some(events))
    }
}
