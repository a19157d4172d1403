ghost use Rattle.std.specs.Prelude.{◌≡◌};

use stab_core::Start;
use stab_frames::{Item, Params, Sequence};
use stab_script::Script;
use stab_tree::Tree;
use stab_treecore::{Openings, TreeEvent};
use std::marker::Model;

/// What a run goes by: the tree, parameters, a start and a script for each of its links in the file
/// order of their children, the openings of its nodes, the items that the root publishes, the
/// number of turns, and a schedule. The parameters are lawful, the openings fit the tree, there are
/// at most 10,000 items and 1 to 1,000,000 turns. Only [`initial_tree`](Job::initial_tree) and
/// [`replay`](Job::replay) take memory.
#[derive(Debug)]
pub struct Job {
    params: Sequence<Params>,
    tree: Tree,
    items: Sequence<Item>,
    starts: Sequence<Start>,
    scripts: Sequence<Script>,
    turns: u32,
    schedule: Sequence<TreeEvent>,
    openings: Openings,
}

impl Drop for Job {
    fn drop(self) {
        let Job {
            params: _,
            tree: _,
            items: _,
            starts: _,
            scripts: _,
            turns: _,
            schedule: _,
            openings: _,
        } = self;
    }
}

impl Model for Job {
    ghost use Rattle.stab_job.specs.JobValues.{JobValue, IsJob};

    ghost Value = { JobValue };

    ghost view = { λ j. record {
      params = j.params;
      tree = j.tree;
      items = j.items;
      starts = j.starts;
      scripts = j.scripts;
      turns = j.turns;
      schedule = j.schedule;
      openings = j.openings;
    } };

    ghost invariant = { λ j. IsJob (record {
      params = j.params;
      tree = j.tree;
      items = j.items;
      starts = j.starts;
      scripts = j.scripts;
      turns = j.turns;
      schedule = j.schedule;
      openings = j.openings;
    }) };
}

impl Job {
    ghost use Rattle.stab_job.specs.JobValues.{JobValue, IsJob};

    /// The job of these parts.
    pub(crate) fn from_parts(
        params: Sequence<Params>,
        tree: Tree,
        items: Sequence<Item>,
        starts: Sequence<Start>,
        scripts: Sequence<Script>,
        turns: u32,
        schedule: Sequence<TreeEvent>,
        openings: Openings,
    ) -> Job
        requires { let its_parts : JobValue = record {
          params = params;
          tree = tree;
          items = items;
          starts = starts;
          scripts = scripts;
          turns = turns;
          schedule = schedule;
          openings = openings;
        } in IsJob its_parts }
        ensures { result ≡ record {
          params = params;
          tree = tree;
          items = items;
          starts = starts;
          scripts = scripts;
          turns = turns;
          schedule = schedule;
          openings = openings;
        } }
    {
        Job {
            params,
            tree,
            items,
            starts,
            scripts,
            turns,
            schedule,
            openings,
        }
    }

    /// The same job with another schedule.
    pub fn with_schedule(mut self, schedule: Sequence<TreeEvent>) -> Job
        ensures { result ≡ record {
          params = self.params;
          tree = self.tree;
          items = self.items;
          starts = self.starts;
          scripts = self.scripts;
          turns = self.turns;
          schedule = schedule;
          openings = self.openings;
        } }
    {
        self.schedule = schedule;
        self
    }

    /// The parameters of the links: one entry for each link, in the file order of their children.
    pub fn params(&self) -> &[Params]
        ensures params { result.now ≡ self.now.params }
        ensures job { IsJob self.now }
    {
        self.params.as_slice()
    }

    /// The tree, whose links the parameters, starts and scripts are for.
    pub fn tree(&self) -> &Tree
        ensures tree { result.now ≡ self.now.tree }
        ensures job { IsJob self.now }
    {
        &self.tree
    }

    /// The items that the root publishes: at most 10,000.
    pub fn items(&self) -> &[Item]
        ensures items { result.now ≡ self.now.items }
        ensures job { IsJob self.now }
    {
        self.items.as_slice()
    }

    /// What is in each link at the start: one start for each link, in the file order of their
    /// children.
    pub fn starts(&self) -> &[Start]
        ensures starts { result.now ≡ self.now.starts }
        ensures job { IsJob self.now }
    {
        self.starts.as_slice()
    }

    /// What each link is to lose and to repeat: one script for each link, in the file order of
    /// their children.
    pub fn scripts(&self) -> &[Script]
        ensures scripts { result.now ≡ self.now.scripts }
        ensures job { IsJob self.now }
    {
        self.scripts.as_slice()
    }

    /// How many turns each worker of a run has: 1 to 1,000,000.
    pub fn turns(&self) -> u32
        ensures turns { result ≡ self.now.turns }
        ensures job { IsJob self.now }
    {
        self.turns
    }

    /// The events of the run under one schedule.
    pub fn schedule(&self) -> &[TreeEvent]
        ensures schedule { result.now ≡ self.now.schedule }
        ensures job { IsJob self.now }
    {
        self.schedule.as_slice()
    }

    /// What the nodes begin with that nobody published, which fits the tree.
    pub fn openings(&self) -> &Openings
        ensures openings { result.now ≡ self.now.openings }
        ensures job { IsJob self.now }
    {
        &self.openings
    }
}
