//! A link that breaks the link law, as text.

ghost use Rattle.std.specs.Prelude.{◌≡◌, ◌++◌, ◌<◌, length, string_bytes, OnOk};
ghost use Rattle.rignolda_verdict.specs.Verdicts.{acked_words, capacity_words, law_above};
ghost use Rattle.rignolda_verdict.specs.Verdicts.{law_below, law_head, link_head, link_law_text};
ghost use Rattle.rignolda_verdict.specs.Verdicts.{lists_above};

use crate::broken::{push_items, push_own_lists};
use crate::judged::Judged;
use stab_core::push_items_line;
use stab_frames::Item;
use stab_tree::NodeId;
use std::alloc::AllocError;

impl<'a> Judged<'a> {
    /// Adds that the link into a node breaks the link law.
    #[tactic(auto, unfolding(crate::specs::Verdicts::link_law_text))]
    pub(crate) fn push_link_law(&self, text: &mut String, child: NodeId) -> Result<(), AllocError>
        requires { child < length self.now.net.tree.parents }
        ensures { OnOk result (string_bytes text.new
            ≡ string_bytes text.old ++ link_law_text self.now.net self.now.report child) }
    {
        self.push_law_head(text, child)?;
        self.push_law_above(text, child)?;
        self.push_law_below(text, child)
    }

    /// Adds what is said of the link into a node.
    #[tactic(auto, unfolding(crate::specs::Verdicts::law_head))]
    fn push_law_head(&self, text: &mut String, child: NodeId) -> Result<(), AllocError>
        requires { child < length self.now.net.tree.parents }
        ensures { OnOk result (string_bytes text.new
            ≡ string_bytes text.old ++ law_head self.now.net self.now.report child) }
    {
        let capacity = self.judge.capacity_into(child);
        let above = self.name_above(child);
        push_link_head(text, self.name(child), above, capacity, self.acked(child))
    }

    /// Adds what is said of what is above a node.
    #[tactic(auto, unfolding(crate::specs::Verdicts::law_above))]
    fn push_law_above(&self, text: &mut String, child: NodeId) -> Result<(), AllocError>
        requires { child < length self.now.net.tree.parents }
        ensures { OnOk result (string_bytes text.new
            ≡ string_bytes text.old ++ law_above self.now.net self.now.report child) }
    {
        let above = self.name_above(child);
        let its_items = self.list_above(child);
        push_lists_above(text, self.judge.garbage_into(child), above, its_items)
    }

    /// Adds what is said of a node itself.
    #[tactic(auto, unfolding(crate::specs::Verdicts::law_below))]
    fn push_law_below(&self, text: &mut String, child: NodeId) -> Result<(), AllocError>
        requires { child < length self.now.net.tree.parents }
        ensures { OnOk result (string_bytes text.new
            ≡ string_bytes text.old ++ law_below self.now.net self.now.report child) }
    {
        let opening = self.opening(child);
        push_own_lists(text, self.name(child), opening, self.list(child))
    }
}

/// Adds which link breaks the link law, its capacity, and its count.
#[tactic(auto, unfolding(crate::specs::Verdicts::link_head))]
fn push_link_head(
    text: &mut String,
    name: &str,
    above: &str,
    capacity: u16,
    acked: u64,
) -> Result<(), AllocError>
    ensures { OnOk result (string_bytes text.new
        ≡ string_bytes text.old ++ link_head name.now above.now capacity acked) }
{
    text.push_str(name)?;
    text.push_str(
        ": what it has after its opening is not what the link law allows\nthe link from ",
    )?;
    text.push_str(above)?;
    push_capacity(text, capacity)?;
    push_acked(text, acked)
}

/// Adds the capacity of a link.
#[tactic(auto, unfolding(crate::specs::Verdicts::capacity_words))]
pub fn push_capacity(text: &mut String, capacity: u16) -> Result<(), AllocError>
    ensures { OnOk result
        (string_bytes text.new ≡ string_bytes text.old ++ capacity_words capacity) }
{
    write!(text, " has capacity {capacity}")
}

/// Adds how many items are acknowledged on a link.
#[tactic(auto, unfolding(crate::specs::Verdicts::acked_words))]
pub fn push_acked(text: &mut String, acked: u64) -> Result<(), AllocError>
    ensures { OnOk result (string_bytes text.new ≡ string_bytes text.old ++ acked_words acked) }
{
    write!(text, " and {acked} acknowledged items\n")
}

/// Adds what is in the frames of a link at its start, and the items of the node above it.
#[tactic(auto, unfolding(crate::specs::Verdicts::lists_above))]
fn push_lists_above(
    text: &mut String,
    frames: &[Item],
    above: &str,
    items: &[Item],
) -> Result<(), AllocError>
    ensures { OnOk result (string_bytes text.new
        ≡ string_bytes text.old ++ lists_above frames.now above.now items.now) }
{
    push_items_line(text, "frames:", frames)?;
    push_items(text, above, items)
}
