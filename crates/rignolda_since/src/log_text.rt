//! The part of some logs that is broken, as text.

ghost use Rattle.std.specs.Prelude.{◌≡◌, ◌++◌, ◌<◌, length, string_bytes, OnOk};
ghost use Rattle.rignolda_since.specs.LogTexts.{broken_log_text, fewest_words, lists_of, log_lists};
ghost use Rattle.rignolda_since.specs.LogTexts.{missing_head, missing_words};
ghost use Rattle.rignolda_since.specs.LogTexts.{parent_lists, parent_words, received_above};
ghost use Rattle.rignolda_since.specs.LogTexts.{strays_words};
ghost use Rattle.rignolda_since.specs.ObeysLogs.{place_of};
ghost use Rattle.stab_job.specs.JobValues.{network};
ghost use Rattle.stab_treecore.specs.SharperLaw.{fewest_missing, missing_without_strays};

use crate::broken_log::BrokenLog;
use crate::judged_logs::{counted, missing_at, strays_at, strays_into};
use crate::logs::Logs;
use stab_core::{push_items_line, push_number};
use stab_frames::Item;
use stab_job::Job;
use stab_judge::Judge;
use stab_tree::{NodeId, Tree};
use std::alloc::AllocError;

/// Adds what is said of a broken part.
pub(crate) fn push_broken(
    text: &mut String,
    judge: &Judge<'_>,
    job: &Job,
    logs: &Logs,
    part: BrokenLog,
) -> Result<(), AllocError>
    requires its_judge { judge.now ≡ network job.now }
    requires per_node { length logs.now.received ≡ length job.now.tree.parents }
    requires known { place_of part < length job.now.tree.parents }
    ensures { OnOk result (string_bytes text.new ≡ string_bytes text.old
        ++ broken_log_text judge.now logs.now part) }
{
    match part {
        BrokenLog::Strays(node) => push_strays_of(text, judge, job, logs, node),
        BrokenLog::Missing(node) => push_missing_of(text, judge, job, logs, node),
        BrokenLog::Parent(node) => push_parent_of(text, judge, job, logs, node),
    }
}

/// Adds what is said of a node with too many strays.
fn push_strays_of(
    text: &mut String,
    judge: &Judge<'_>,
    job: &Job,
    logs: &Logs,
    node: NodeId,
) -> Result<(), AllocError>
    requires its_judge { judge.now ≡ network job.now }
    requires per_node { length logs.now.received ≡ length job.now.tree.parents }
    requires known { node < length job.now.tree.parents }
    ensures { OnOk result (string_bytes text.new ≡ string_bytes text.old
        ++ broken_log_text judge.now logs.now (BrokenLog.Strays node)) }
{
    let most = strays_at(judge, job.tree(), job.openings().hold(), node);
    text.push_str(job.tree().name(node))?;
    push_strays(text, most)?;
    push_lists_of(text, judge, job.items(), logs, node)
}

/// Adds what is said of a node that misses too much.
fn push_missing_of(
    text: &mut String,
    judge: &Judge<'_>,
    job: &Job,
    logs: &Logs,
    node: NodeId,
) -> Result<(), AllocError>
    requires its_judge { judge.now ≡ network job.now }
    requires per_node { length logs.now.received ≡ length job.now.tree.parents }
    requires known { node < length job.now.tree.parents }
    ensures { OnOk result (string_bytes text.new ≡ string_bytes text.old
        ++ broken_log_text judge.now logs.now (BrokenLog.Missing node)) }
{
    text.push_str(job.tree().name(node))?;
    push_missing_at(text, judge, job.tree(), node)?;
    push_lists_of(text, judge, job.items(), logs, node)
}

/// Adds that published items are missing at a node.
fn push_missing_at(
    text: &mut String,
    judge: &Judge<'_>,
    tree: &Tree,
    node: NodeId,
) -> Result<(), AllocError>
    requires same_tree { judge.now.tree ≡ tree.now }
    requires known { node < length tree.now.parents }
    ensures { OnOk result (string_bytes text.new ≡ string_bytes text.old
        ++ missing_words (missing_without_strays judge.now node) (fewest_missing judge.now node)) }
{
    let (without_strays, fewest) = missing_at(judge, tree, node);
    push_missing(text, without_strays, fewest)
}

/// Adds what is said of a node that does not follow its parent.
fn push_parent_of(
    text: &mut String,
    judge: &Judge<'_>,
    job: &Job,
    logs: &Logs,
    node: NodeId,
) -> Result<(), AllocError>
    requires its_judge { judge.now ≡ network job.now }
    requires per_node { length logs.now.received ≡ length job.now.tree.parents }
    requires known { node < length job.now.tree.parents }
    ensures { OnOk result (string_bytes text.new ≡ string_bytes text.old
        ++ broken_log_text judge.now logs.now (BrokenLog.Parent node)) }
{
    let most = strays_into(judge, job.tree(), job.openings().hold(), node);
    text.push_str(job.tree().name(node))?;
    push_parent(text, most)?;
    let above = received_above(judge, job.tree(), logs, node);
    push_parent_lists(text, above, logs.received_at(node))
}

/// Adds what is published in the count of a node, and what it received.
fn push_lists_of(
    text: &mut String,
    judge: &Judge<'_>,
    published: &[Item],
    logs: &Logs,
    node: NodeId,
) -> Result<(), AllocError>
    requires same_items { judge.now.published ≡ published.now }
    requires known { node < length logs.now.received }
    ensures { OnOk result (string_bytes text.new ≡ string_bytes text.old
        ++ lists_of judge.now logs.now node) }
{
    let counted = counted(judge, published, logs, node);
    push_lists(text, counted, logs.received_at(node))
}

/// Adds that a node received more strays than the `most` that it may, or items in another order.
#[tactic(auto, unfolding(crate::specs::LogTexts::strays_words))]
fn push_strays(text: &mut String, most: u64) -> Result<(), AllocError>
    ensures { OnOk result (string_bytes text.new ≡ string_bytes text.old ++ strays_words most) }
{
    write!(
        text,
        ": it received more strays than C + E = {most}, or published items out of order or twice\n"
    )
}

/// Adds that published items are missing at a node, where only some of these first ones may be
/// missing.
#[tactic(auto, unfolding(crate::specs::LogTexts::missing_words))]
fn push_missing(text: &mut String, without_strays: u64, fewest: u64) -> Result<(), AllocError>
    ensures { OnOk result (string_bytes text.new
        ≡ string_bytes text.old ++ missing_words without_strays fewest) }
{
    push_missing_head(text)?;
    push_number(text, without_strays)?;
    push_fewest(text, fewest)
}

/// Adds that published items are missing.
#[tactic(auto, unfolding(crate::specs::LogTexts::missing_head))]
fn push_missing_head(text: &mut String) -> Result<(), AllocError>
    ensures { OnOk result (string_bytes text.new ≡ string_bytes text.old ++ missing_head) }
{
    text.push_str(": published items before its last one are missing, not only among the first")
}

/// Adds how many more may be missing for strays, and how many in any case.
#[tactic(auto, unfolding(crate::specs::LogTexts::fewest_words))]
fn push_fewest(text: &mut String, fewest: u64) -> Result<(), AllocError>
    ensures { OnOk result (string_bytes text.new ≡ string_bytes text.old ++ fewest_words fewest) }
{
    write!(
        text,
        " and one more for each stray, at most the first {fewest}\n"
    )
}

/// Adds that a node received more strays than the `most` that it may in its parent's eyes, or items
/// of its parent in another order.
#[tactic(auto, unfolding(crate::specs::LogTexts::parent_words))]
fn push_parent(text: &mut String, most: u64) -> Result<(), AllocError>
    ensures { OnOk result (string_bytes text.new ≡ string_bytes text.old ++ parent_words most) }
{
    write!(
        text,
        ": it received more strays than c + h = {most}, or its parent's items out of order or \
         twice\n"
    )
}

/// What the parent of a node received.
fn received_above<'a>(judge: &Judge<'_>, tree: &Tree, logs: &'a Logs, node: NodeId) -> &'a [Item]
    requires same_tree { judge.now.tree ≡ tree.now }
    requires known { node < length tree.now.parents }
    requires per_node { length logs.now.received ≡ length tree.now.parents }
    ensures { result.now ≡ received_above judge.now logs.now node }
{
    match tree.parent(node) {
        None => &[],
        Some(parent) => logs.received_at(parent),
    }
}

/// Adds what the parent of a node received, and what the node received.
#[tactic(auto, unfolding(crate::specs::LogTexts::parent_lists))]
fn push_parent_lists(text: &mut String, above: &[Item], received: &[Item]) -> Result<(), AllocError>
    ensures { OnOk result (string_bytes text.new
        ≡ string_bytes text.old ++ parent_lists above.now received.now) }
{
    push_items_line(text, "parent received:", above)?;
    push_items_line(text, "received:", received)
}

/// Adds what is published in the count of a node, and what it received.
#[tactic(auto, unfolding(crate::specs::LogTexts::log_lists))]
fn push_lists(text: &mut String, published: &[Item], received: &[Item]) -> Result<(), AllocError>
    ensures { OnOk result (string_bytes text.new
        ≡ string_bytes text.old ++ log_lists published.now received.now) }
{
    push_items_line(text, "published:", published)?;
    push_items_line(text, "received:", received)
}
