ghost use Rattle.std.specs.Prelude.{◌≡◌};
ghost use Rattle.stab_run.specs.Scripted.{plan};

use stab_acts::Script;
use std::marker::Model;

/// What both ends of a link of a run follow: the script of the link, and the turns of the job.
#[derive(Drop)]
pub(crate) struct Plan<'s> {
    script: &'s Script,
    turns: u32,
}

impl<'s> Model for Plan<'s> {
    ghost use Rattle.stab_run.specs.Scripted.{LinkPlan, plan};

    ghost Value = { LinkPlan };

    ghost view = { λ p. plan p.turns p.script.now };
}

impl<'s> Plan<'s> {
    /// What the ends of a link with this script follow, in a job of `turns` turns.
    pub(crate) fn new(script: &'s Script, turns: u32) -> Plan<'s>
        ensures { result ≡ plan turns script.now }
    {
        Plan { script, turns }
    }

    /// How many turns the job has.
    pub(crate) fn turns(&self) -> u32
        ensures { result ≡ self.now.turns }
    {
        self.turns
    }
}
