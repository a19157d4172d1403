//! The laws of one node of a tree.

ghost use Rattle.std.specs.Prelude.{◌↔◌, IfOk, IsTrue, length};
ghost use Rattle.stab_treecore.specs.SharperLaw.{SharperTreeLaw};
ghost use Rattle.stab_treecore.specs.TreeLaw.{HalfTreeLaw, TreeLaw, CompleteLaw};

use crate::ends::longest_end;
use crate::picked::{count_picked, splits, splits_before};
use stab_frames::Item;
use std::alloc::{AllocError, Global};

/// Whether a node that received this list obeys the half tree law: at most `most_strays` strays,
/// picked from the garbage on its path, and then published items in their order.
pub fn obeys_half_tree_law(
    most_strays: usize,
    garbage: &[Item],
    published: &[Item],
    received: &[Item],
) -> bool
    ensures { IsTrue result ↔ HalfTreeLaw most_strays garbage.now published.now received.now }
{
    splits(most_strays, garbage, published, received)
}

/// Whether a node that received this list obeys the complete law: no published item is missing, but
/// for some of the first `most_missing`.
pub fn obeys_complete_law(
    most_strays: usize,
    most_missing: usize,
    garbage: &[Item],
    published: &[Item],
    received: &[Item],
) -> bool
    ensures { IsTrue result
        ↔ CompleteLaw most_strays most_missing garbage.now published.now received.now }
{
    let (front, back) = published.split_at(most_missing.min(published.len()));
    splits_before(most_strays, garbage, front, back, received)
}

/// Whether a node that received this list obeys the tree law: before its last item no published
/// item is missing, but for some of the first `most_missing`. It takes memory for one number per
/// published item, and time in proportion to the lists, whatever they hold.
pub fn obeys_tree_law(
    alloc: Global,
    most_strays: usize,
    most_missing: usize,
    garbage: &[Item],
    published: &[Item],
    received: &[Item],
) -> Result<bool, AllocError>
    ensures { IfOk result (λ yes. IsTrue yes
        ↔ TreeLaw most_strays most_missing garbage.now published.now received.now) }
{
    let (front, back) = published.split_at(most_missing.min(published.len()));
    let tail = longest_end(alloc, back, received)?;
    let (body, _) = received.split_at(received.len() - tail);
    Ok(splits(most_strays, garbage, front, body))
}

/// Whether a node that received this list obeys the sharper tree law: before its last item no
/// published item is missing, but for some of the first `without_strays` and of one more for each
/// stray, and in any case of the first `most_missing`. It takes the memory and the time of
/// [`obeys_tree_law`]. Each item that may be a stray is taken for one, as long as that allows one
/// more to be missing.
pub fn obeys_sharper_tree_law(
    alloc: Global,
    most_strays: usize,
    without_strays: usize,
    most_missing: usize,
    garbage: &[Item],
    published: &[Item],
    received: &[Item],
) -> Result<bool, AllocError>
    ensures { IfOk result (λ yes. IsTrue yes ↔ SharperTreeLaw
        most_strays without_strays most_missing garbage.now published.now received.now) }
{
    let strays = most_strays.min(count_picked(received, garbage));
    let front = strays.min(most_missing.saturating_sub(without_strays));
    let first = most_missing.min(without_strays.saturating_add(strays));
    let rest = &received[front..];
    let obeys = obeys_tree_law(alloc, strays - front, first, rest, published, rest)?;
    Ok(obeys)
}
