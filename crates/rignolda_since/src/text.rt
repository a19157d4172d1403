//! The part of a report since a moment that is broken, as text.

ghost use Rattle.std.specs.Prelude.{◌≡◌, ◌+◌, ◌++◌, ◌<◌, length, string_bytes, unwrap_or, OnOk};
ghost use Rattle.stab_judge.specs.Reports.{acked_at};
ghost use Rattle.rignolda_since.specs.Backlogs.{backlog_at};
ghost use Rattle.rignolda_since.specs.ObeysSince.{place_since};
ghost use Rattle.rignolda_since.specs.VerdictTexts.{broken_since_text, link_since_text};
ghost use Rattle.rignolda_since.specs.VerdictTexts.{since_head, since_lists, since_words};
ghost use Rattle.rignolda_verdict.specs.BoundsTexts.{name_at};
ghost use Rattle.rignolda_verdict.specs.Verdicts.{handed_on_text, list_above, name_above};

use crate::backlogs::backlog_at;
use crate::broken::BrokenSince;
use rignolda_verdict::{
    Judged, push_acked, push_capacity, push_handed_on, push_items, push_no_count, push_published,
    push_root_count,
};
use stab_core::push_items_line;
use stab_frames::{Item, Sequence};
use stab_tree::NodeId;
use std::alloc::AllocError;

/// Adds what is said of a broken part.
pub(crate) fn push_broken(
    text: &mut String,
    judged: &Judged<'_>,
    lists: &[Sequence<Item>],
    part: BrokenSince,
) -> Result<(), AllocError>
    requires per_node { length lists.now ≡ length judged.now.net.tree.parents }
    requires known { place_since judged.now.net part < length judged.now.net.tree.parents }
    ensures { OnOk result (string_bytes text.new ≡ string_bytes text.old
        ++ broken_since_text judged.now.net lists.now judged.now.report part) }
{
    match part {
        BrokenSince::Published => {
            let root = judged.tree().root();
            push_published(
                text,
                judged.name(root),
                judged.published(),
                judged.list(root),
            )
        }
        BrokenSince::RootCount => push_root_count(text, judged.name(judged.tree().root())),
        BrokenSince::NoCount(child) => push_no_count(text, judged.name(child)),
        BrokenSince::LinkLaw(child) => push_link(text, judged, lists, child),
        BrokenSince::HandedOn(child) => push_unfinished(text, judged, lists, child),
    }
}

/// Adds that the parent of this node ended with its upstream, and not all that it had for the node
/// is acknowledged.
fn push_unfinished(
    text: &mut String,
    judged: &Judged<'_>,
    lists: &[Sequence<Item>],
    child: NodeId,
) -> Result<(), AllocError>
    requires per_node { length lists.now ≡ length judged.now.net.tree.parents }
    requires known { child < length judged.now.net.tree.parents }
    ensures { OnOk result (string_bytes text.new ≡ string_bytes text.old
        ++ handed_on_text (name_at judged.now.net child) (name_above judged.now.net child)
        (length (backlog_at lists.now child)
        + length (list_above judged.now.net judged.now.report child))
        (unwrap_or (acked_at judged.now.report child) 0)) }
{
    let name = judged.name(child);
    let above = judged.name_above(child);
    let had = backlog_at(lists, child).len() as u64;
    let count = had + judged.list_above(child).len() as u64;
    push_handed_on(text, name, above, count, judged.acked(child))
}

/// Adds that the link into a node breaks the link law.
fn push_link(
    text: &mut String,
    judged: &Judged<'_>,
    lists: &[Sequence<Item>],
    child: NodeId,
) -> Result<(), AllocError>
    requires per_node { length lists.now ≡ length judged.now.net.tree.parents }
    requires known { child < length judged.now.net.tree.parents }
    ensures { OnOk result (string_bytes text.new ≡ string_bytes text.old
        ++ link_since_text judged.now.net lists.now judged.now.report child) }
{
    let name = judged.name(child);
    let above = judged.name_above(child);
    let judge = judged.judge();
    push_head(
        text,
        name,
        above,
        judge.capacity_into(child),
        judged.acked(child),
    )?;
    push_lists(
        text,
        judge.garbage_into(child),
        backlog_at(lists, child),
        above,
        judged.list_above(child),
        name,
        judged.list(child),
    )
}

/// Adds which link breaks the link law, its capacity, and its count.
fn push_head(
    text: &mut String,
    name: &str,
    above: &str,
    capacity: u16,
    acked: u64,
) -> Result<(), AllocError>
    ensures { OnOk result (string_bytes text.new
        ≡ string_bytes text.old ++ since_head name.now above.now capacity acked) }
{
    text.push_str(name)?;
    push_since_words(text)?;
    text.push_str(above)?;
    push_capacity(text, capacity)?;
    push_acked(text, acked)
}

/// Adds that what a node received breaks the link law.
#[tactic(auto, unfolding(crate::specs::VerdictTexts::since_words))]
fn push_since_words(text: &mut String) -> Result<(), AllocError>
    ensures { OnOk result (string_bytes text.new ≡ string_bytes text.old ++ since_words) }
{
    text.push_str(": what it received since is not what the link law allows\nthe link from ")
}

/// Adds what was queued in a link, what was there for its child, and the lists of both its nodes.
#[tactic(auto, unfolding(crate::specs::VerdictTexts::since_lists))]
fn push_lists(
    text: &mut String,
    frames: &[Item],
    backlog: &[Item],
    above: &str,
    its_items: &[Item],
    name: &str,
    items: &[Item],
) -> Result<(), AllocError>
    ensures { OnOk result (string_bytes text.new ≡ string_bytes text.old ++ since_lists
        frames.now backlog.now above.now its_items.now name.now items.now) }
{
    push_items_line(text, "frames:", frames)?;
    push_items_line(text, "backlog:", backlog)?;
    push_items(text, above, its_items)?;
    push_items(text, name, items)
}
