ghost use Rattle.std.specs.Prelude.{◌≡◌, ℕ, ◌≤◌, List, true, false, length};
ghost use Rattle.stab_line.specs.Ends.{new_sender};
ghost use Rattle.stab_c.specs.Meaning.{sender_end};
ghost use Rattle.stab_c.specs.NodeList as list;
ghost use Rattle.stab_c.specs.NodeList.{IsList, after_forgetting, backlog, is_kept_place};
ghost use Rattle.stab_c.specs.NodeList.{is_left_behind, item_kept, needs_from};
ghost use Rattle.stab_c.specs.declared.child.Child.{Child as ChildStruct};

use crate::child::{Child, rignolda_child_init};
use crate::node::Node;

/// The place from which on a node keeps its list in a buffer of this size.
fn first_kept(node: &Node, size: usize) -> u64
    ensures { result ≡ list.first_kept node.now size }
{
    let forgotten = node.forgotten.min(node.length);
    forgotten.max(node.length.saturating_sub(size as u64))
}

/// Whether the node keeps its list from this place on, which may be the list's end.
fn is_kept(node: &Node, size: usize, place: u64) -> bool
    ensures { result ≡ is_kept_place node.now size place }
{
    first_kept(node, size) <= place && place <= node.length
}

/// Whether the child is left behind: the item that it would be offered next is no more kept, or its
/// count is past the end of the list.
#[unsafe(no_mangle)]
pub extern "C" fn rignolda_node_left_behind(node: &Node, child: &Child, size: usize) -> bool
    ensures { result ≡ is_left_behind node.now child.now size }
{
    !is_kept(node, size, child.offered)
}

/// The backlog of a child: the item that its sender holds, and those that it is still to be
/// offered. A closed sender has one too. It stops at the highest count, which is that of a child
/// that is left behind.
#[unsafe(no_mangle)]
pub extern "C" fn rignolda_node_backlog(node: &Node, child: &Child, size: usize) -> u64
    ensures { result ≡ backlog node.now child.now size }
{
    if rignolda_node_left_behind(node, child, size) {
        return u64::MAX;
    }
    let waiting = u64::from(child.sender.holding != 0);
    (node.length - child.offered).saturating_add(waiting)
}

/// The place from which on the child needs the list, where that is before this place; else this
/// place. A child that needs what was forgotten needs nothing more.
#[unsafe(no_mangle)]
pub extern "C" fn rignolda_child_needs(node: &Node, child: &Child, place: u64) -> u64
    ensures { result ≡ needs_from node.now child.now place }
{
    if child.offered < node.forgotten {
        place
    } else {
        place.min(child.offered)
    }
}

/// Forgets the items of the list before this place, or all where the list has fewer. The buffer has
/// these places free then. A node never has forgotten more than its list has after this call.
#[unsafe(no_mangle)]
pub extern "C" fn rignolda_node_forget(node: &mut Node, place: u64)
    ensures forgotten { node.new ≡ after_forgetting node.old place }
    ensures list { (buffer items : List ℕ) → IsList node.old buffer items
        → IsList node.new buffer items }
    ensures kept { (buffer : List ℕ) (later : ℕ) → place ≤ later
        → item_kept node.new buffer later ≡ item_kept node.old buffer later }
    ensures sound { node.new.forgotten ≤ node.new.length }
    ensures children { (child : ChildStruct) (size : ℕ) → place ≤ child.offered
        → is_left_behind node.new child size ≡ is_left_behind node.old child size }
{
    node.forgotten = node.forgotten.max(place).min(node.length);
}

/// Makes a child that begins at this place of the node's list, with an idle and open sender of this
/// label, and returns true, if the node keeps the list from there on. The place may be the list's
/// end, and of every node that one is kept.
#[unsafe(no_mangle)]
pub extern "C" fn rignolda_child_init_at(
    child: &mut Child,
    node: &Node,
    size: usize,
    label: u16,
    place: u64,
) -> bool
    ensures kept { result ≡ is_kept_place node.now size place }
    ensures at_the_end { place ≡ node.now.length → result ≡ true }
    ensures sender { result ≡ true → sender_end child.new.sender ≡ new_sender label }
    ensures offered { result ≡ true → child.new.offered ≡ place }
    ensures acknowledged { result ≡ true → child.new.acknowledged ≡ 0 }
    ensures ignored { result ≡ true → child.new.ignored ≡ 0 }
    ensures not_left { result ≡ true → is_left_behind node.now child.new size ≡ false }
    ensures in_list { (buffer items : List ℕ) → IsList node.now buffer items → result ≡ true →
        place ≤ length items }
    ensures refused { result ≡ false → child.new ≡ child.old }
{
    if !is_kept(node, size, place) {
        return false;
    }
    rignolda_child_init(child, label);
    child.offered = place;
    true
}
