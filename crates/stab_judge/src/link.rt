//! The laws of one link.

ghost use Rattle.std.specs.Prelude.{◌+◌, ◌≤◌, ◌↔◌, IsTrue, length};
ghost use Rattle.stab_core.specs.LinkLaw.{HalfLaw, LinkLaw, LinkLawWithin, SharperLinkLaw};
ghost use Rattle.stab_judge.specs.Judged.{SharperLawBelow};

use crate::picked::{count_picked, splits, splits_before};
use stab_frames::Item;

/// Whether all offered items but at most the last are acknowledged.
fn one_waits(offered: &[Item], acked: u64) -> bool
    ensures { IsTrue result
        ↔ ((acked ≤ length offered.now) × (length offered.now ≤ acked + 1)) }
{
    let count = offered.len() as u64;
    acked <= count && count - acked <= 1
}

/// Whether a link obeys the half law, of which these items were offered, this many of them
/// acknowledged, and these items delivered. `start_items` are the items of the frames of its start,
/// the front first.
pub fn obeys_half_law(
    most_strays: usize,
    start_items: &[Item],
    offered: &[Item],
    acked: u64,
    delivered: &[Item],
) -> bool
    ensures { IsTrue result ↔ HalfLaw most_strays start_items.now offered.now acked delivered.now }
{
    one_waits(offered, acked) && splits(most_strays, start_items, offered, delivered)
}

/// Whether a link obeys the link law with these bounds, where the arguments are those of
/// [`obeys_half_law`]. What may be missing is among the first `most_missing` items.
pub fn obeys_link_law_within(
    most_strays: usize,
    most_missing: usize,
    start_items: &[Item],
    offered: &[Item],
    acked: u64,
    delivered: &[Item],
) -> bool
    ensures { IsTrue result
        ↔ LinkLawWithin most_strays most_missing start_items.now offered.now acked delivered.now }
{
    if !one_waits(offered, acked) {
        return false;
    }
    let acked = acked as usize;
    let first = most_missing.min(acked);
    let (front, back) = offered.split_at(first);
    let settled = &back[..acked - first];
    splits_before(most_strays, start_items, front, settled, delivered)
        || splits_before(most_strays, start_items, front, back, delivered)
}

/// Whether a link of this capacity obeys the link law, where the other arguments are those of
/// [`obeys_half_law`].
pub fn obeys_link_law(
    capacity: u16,
    start_items: &[Item],
    offered: &[Item],
    acked: u64,
    delivered: &[Item],
) -> bool
    ensures { IsTrue result ↔ LinkLaw capacity start_items.now offered.now acked delivered.now }
{
    let most_strays = usize::from(capacity);
    obeys_link_law_within(
        most_strays,
        2 * most_strays + 1,
        start_items,
        offered,
        acked,
        delivered,
    )
}

/// Whether a link of this capacity obeys the sharper link law, where the other arguments are those
/// of [`obeys_half_law`]. Each delivered item that may be a stray is taken for one: the law then
/// allows one more to be missing, and that item is no longer looked for.
pub fn obeys_sharper_link_law(
    capacity: u16,
    start_items: &[Item],
    offered: &[Item],
    acked: u64,
    delivered: &[Item],
) -> bool
    ensures { IsTrue result
        ↔ SharperLinkLaw capacity start_items.now offered.now acked delivered.now }
{
    let capacity = usize::from(capacity);
    let strays = capacity.min(count_picked(delivered, start_items));
    let rest = &delivered[strays..];
    obeys_link_law_within(0, capacity + 1 + strays, &[], offered, acked, rest)
}

/// Whether a link of this capacity obeys the sharper link law with some prefix of the list `above`
/// as its offered list: what its sender was offered is not known, but `above` is what there was to
/// offer.
pub fn obeys_sharper_law_below(
    capacity: u16,
    start_items: &[Item],
    above: &[Item],
    acked: u64,
    delivered: &[Item],
) -> bool
    ensures { IsTrue result
        ↔ SharperLawBelow capacity start_items.now above.now acked delivered.now }
{
    if (above.len() as u64) < acked {
        return false;
    }
    let end = above.len().min((acked as usize).saturating_add(1));
    let (offered, _) = above.split_at(end);
    obeys_sharper_link_law(capacity, start_items, offered, acked, delivered)
}
