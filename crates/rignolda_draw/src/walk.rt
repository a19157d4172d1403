//! The run of a link job, step by step.

ghost use Rattle.std.specs.Prelude.{◌≡◌, [], ◌∷◌, Some, IfErr, OnOk};
ghost use Rattle.stab_core.specs.Link.{IsReason, link_at};
ghost use Rattle.stab_core.specs.Replay.{IsLawful, initial};
ghost use Rattle.stab_core.specs.Step.{effect, step};
ghost use Rattle.rignolda_draw.specs.Rows.{row_of, rows_from};
ghost use Rattle.rignolda_draw.specs.Takes.{TakesOn};

use crate::row::row_of;
use crate::taker::TakesRows;
use stab_core::{Event, Link, StartFault};
use stab_script::LinkJob;
use stab_tree::NodeId;
use std::alloc::{AllocError, Global};

/// Replays a link job, and gives away its link at its start, and a row for each event. It refuses a
/// start as `stab link` does; where a row is not taken, that is said of memory.
pub(crate) fn take_link_run<T: TakesRows>(
    alloc: Global,
    job: &LinkJob,
    to: &mut T,
) -> Result<(), StartFault>
    ensures rows { OnOk result (TakesOn T.HasTaken to.old
        (rows_from job.now.params (initial job.now.start) job.now.events) to.new) }
    ensures lawful { OnOk result (IsLawful job.now.params job.now.start) }
    ensures refused { IfErr result (IsReason job.now.params job.now.start) }
{
    let mut link = Link::new(alloc, job.params, &job.start)?;
    to.start(NodeId::new(0), Some(&link))?;
    take_events(&mut link, job.events.as_slice(), to)?;
    Ok(())
}

/// Gives away a row for each of these events.
fn take_events<T: TakesRows>(
    link: &mut Link,
    events: &[Event],
    to: &mut T,
) -> Result<(), AllocError>
    ensures { OnOk result (TakesOn T.HasTaken to.old
        (rows_from link.old.params link.old.state events.now) to.new) }
{
    for event in events {
        take_event(link, *event, to)?;
    }
    Ok(())
}

/// Takes a step, and gives away its row.
fn take_event<T: TakesRows>(link: &mut Link, event: Event, to: &mut T) -> Result<(), AllocError>
    ensures row { OnOk result (TakesOn T.HasTaken to.old
        (row_of 0 (Some event) (effect link.old.params link.old.state event) link.new ∷ []) to.new) }
    ensures steps { OnOk result (link.new
        ≡ link_at link.old.params (step link.old.params link.old.state event)) }
{
    let effect = link.apply(event)?;
    to.take(row_of(NodeId::new(0), Some(event), effect, link), link)
}
