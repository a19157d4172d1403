//! The part of a report that is broken, as text.

ghost use Rattle.std.specs.Prelude.{◌≡◌, ◌++◌, ◌<◌, length, string_bytes, OnOk};
ghost use Rattle.stab_judge.specs.Obeys.{place_of};
ghost use Rattle.stab_tree.specs.Nodes.{root_of};
ghost use Rattle.rignolda_verdict.specs.Verdicts.{broken_text, ended_words, entries_text};
ghost use Rattle.rignolda_verdict.specs.Verdicts.{handed_on_text, items_line, no_count_text};
ghost use Rattle.rignolda_verdict.specs.Verdicts.{of_them_words, opening_text, own_lists};
ghost use Rattle.rignolda_verdict.specs.Verdicts.{published_text, root_count_text};

use crate::judged::Judged;
use stab_core::push_items_line;
use stab_frames::Item;
use stab_judge::Broken;
use stab_tree::NodeId;
use std::alloc::AllocError;

impl<'a> Judged<'a> {
    /// Adds what is said of a broken part.
    pub(crate) fn push_broken(&self, text: &mut String, broken: Broken) -> Result<(), AllocError>
        requires { place_of self.now.net broken < length self.now.net.tree.parents }
        ensures { OnOk result (string_bytes text.new
            ≡ string_bytes text.old ++ broken_text self.now.net self.now.report broken) }
    {
        match broken {
            Broken::Entries => push_entries(text),
            Broken::Published => self.push_other_items(text),
            Broken::RootCount => push_root_count(text, self.name(self.tree.root())),
            Broken::NoCount(child) => push_no_count(text, self.name(child)),
            Broken::Opening(child) => self.push_other_opening(text, child),
            Broken::LinkLaw(child) => self.push_link_law(text, child),
            Broken::HandedOn(child) => self.push_unfinished(text, child),
        }
    }

    /// Adds that the root has other items than the published ones.
    fn push_other_items(&self, text: &mut String) -> Result<(), AllocError>
        requires { root_of self.now.net.tree.parents < length self.now.net.tree.parents }
        ensures { OnOk result (string_bytes text.new ≡ string_bytes text.old
            ++ broken_text self.now.net self.now.report Broken.Published) }
    {
        let root = self.tree.root();
        push_published(text, self.name(root), self.published, self.list(root))
    }

    /// Adds that the list of this node does not begin with its opening.
    fn push_other_opening(&self, text: &mut String, child: NodeId) -> Result<(), AllocError>
        requires { child < length self.now.net.tree.parents }
        ensures { OnOk result (string_bytes text.new ≡ string_bytes text.old
            ++ broken_text self.now.net self.now.report (Broken.Opening child)) }
    {
        let opening = self.opening(child);
        push_opening(text, self.name(child), opening, self.list(child))
    }

    /// Adds that the parent of this node ended with its upstream, and not all of its items are
    /// acknowledged.
    fn push_unfinished(&self, text: &mut String, child: NodeId) -> Result<(), AllocError>
        requires { child < length self.now.net.tree.parents }
        ensures { OnOk result (string_bytes text.new ≡ string_bytes text.old
            ++ broken_text self.now.net self.now.report (Broken.HandedOn child)) }
    {
        let above = self.name_above(child);
        let count = self.list_above(child).len() as u64;
        push_handed_on(text, self.name(child), above, count, self.acked(child))
    }
}

/// Adds the line of the items of a node.
#[tactic(auto, unfolding(crate::specs::Verdicts::items_line))]
pub fn push_items(text: &mut String, name: &str, items: &[Item]) -> Result<(), AllocError>
    ensures { OnOk result (string_bytes text.new
        ≡ string_bytes text.old ++ items_line name.now items.now) }
{
    text.push_str("items of ")?;
    text.push_str(name)?;
    push_items_line(text, ":", items)
}

/// Adds that the report has another number of nodes.
#[tactic(auto, unfolding(crate::specs::Verdicts::entries_text))]
fn push_entries(text: &mut String) -> Result<(), AllocError>
    ensures { OnOk result (string_bytes text.new ≡ string_bytes text.old ++ entries_text) }
{
    text.push_str("the report has another number of nodes than the tree\n")
}

/// Adds that the root has other items than the published ones.
#[tactic(auto, unfolding(crate::specs::Verdicts::published_text))]
pub fn push_published(
    text: &mut String,
    name: &str,
    published: &[Item],
    items: &[Item],
) -> Result<(), AllocError>
    ensures { OnOk result (string_bytes text.new
        ≡ string_bytes text.old ++ published_text name.now published.now items.now) }
{
    text.push_str(name)?;
    text.push_str(": its items are not the published ones\n")?;
    push_items_line(text, "published:", published)?;
    push_items(text, name, items)
}

/// Adds that there is a count at the root.
#[tactic(auto, unfolding(crate::specs::Verdicts::root_count_text))]
pub fn push_root_count(text: &mut String, name: &str) -> Result<(), AllocError>
    ensures { OnOk result (string_bytes text.new
        ≡ string_bytes text.old ++ root_count_text name.now) }
{
    text.push_str(name)?;
    text.push_str(": it has a count of acknowledged items, and no link leads into the root\n")
}

/// Adds that there is no count at a node.
#[tactic(auto, unfolding(crate::specs::Verdicts::no_count_text))]
pub fn push_no_count(text: &mut String, name: &str) -> Result<(), AllocError>
    ensures { OnOk result (string_bytes text.new
        ≡ string_bytes text.old ++ no_count_text name.now) }
{
    text.push_str(name)?;
    text.push_str(": it has no count of acknowledged items\n")
}

/// Adds that the list of a node does not begin with its opening.
#[tactic(auto, unfolding(crate::specs::Verdicts::opening_text))]
fn push_opening(
    text: &mut String,
    name: &str,
    opening: &[Item],
    items: &[Item],
) -> Result<(), AllocError>
    ensures { OnOk result (string_bytes text.new
        ≡ string_bytes text.old ++ opening_text name.now opening.now items.now) }
{
    text.push_str(name)?;
    text.push_str(": its items do not begin with its opening\n")?;
    push_own_lists(text, name, opening, items)
}

/// Adds the opening of a node, and its items.
#[tactic(auto, unfolding(crate::specs::Verdicts::own_lists))]
pub(crate) fn push_own_lists(
    text: &mut String,
    name: &str,
    opening: &[Item],
    items: &[Item],
) -> Result<(), AllocError>
    ensures { OnOk result (string_bytes text.new
        ≡ string_bytes text.old ++ own_lists name.now opening.now items.now) }
{
    push_items_line(text, "opening:", opening)?;
    push_items(text, name, items)
}

/// Adds that a parent ended with its upstream, and not all of its items are acknowledged.
#[tactic(auto, unfolding(crate::specs::Verdicts::handed_on_text))]
pub fn push_handed_on(
    text: &mut String,
    name: &str,
    above: &str,
    count: u64,
    acked: u64,
) -> Result<(), AllocError>
    ensures { OnOk result (string_bytes text.new
        ≡ string_bytes text.old ++ handed_on_text name.now above.now count acked) }
{
    text.push_str(name)?;
    text.push_str(": ")?;
    text.push_str(above)?;
    push_ended(text, count)?;
    push_of_them(text, acked)
}

/// Adds that a node of `count` items ended with its upstream.
#[tactic(auto, unfolding(crate::specs::Verdicts::ended_words))]
fn push_ended(text: &mut String, count: u64) -> Result<(), AllocError>
    ensures { OnOk result (string_bytes text.new ≡ string_bytes text.old ++ ended_words count) }
{
    write!(text, " ended upstream with {count} items,")
}

/// Adds how many of these are acknowledged.
#[tactic(auto, unfolding(crate::specs::Verdicts::of_them_words))]
fn push_of_them(text: &mut String, acked: u64) -> Result<(), AllocError>
    ensures { OnOk result (string_bytes text.new ≡ string_bytes text.old ++ of_them_words acked) }
{
    write!(text, " and {acked} of them are acknowledged\n")
}
