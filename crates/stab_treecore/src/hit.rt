//! What faults do to the links of a tree.

ghost use Rattle.std.specs.Prelude.{◌≡◌, ◌==◌, ◌≤◌, false, length, is_some, option_map, Some};
ghost use Rattle.std.specs.Prelude.{IsSome, IfErr, OnOk, OnErr};
ghost use Rattle.std.specs.Option.{option_map_or};
ghost use Rattle.stab_core.specs.Faults.{struck};
ghost use Rattle.stab_core.specs.Link.{LinkValue, link_at};
ghost use Rattle.stab_core.specs.Replay.{IsLawful};
ghost use Rattle.stab_treecore.specs.Faults.{begun_anew, each_link, restarted_at};
ghost use Rattle.stab_treecore.specs.Refusals.{IsStrikeReasonOf};

use crate::fault::StrikeFault;
use stab_core::{Link, Start};
use stab_tree::NodeId;

/// A fault strikes a link, where there is one.
pub fn strike(link: &mut Option<Link>, start: &Start) -> Result<(), StrikeFault>
    ensures link { OnOk result (link.new
        ≡ option_map (λ l. link_at l.params (struck start.now l.state)) link.old) }
    ensures named { OnOk result (IsSome link.old) }
    ensures lawful { OnOk result ((before : LinkValue) → link.old ≡ Some before
        → IsLawful before.params start.now) }
    ensures kind { is_some link.new ≡ is_some link.old }
    ensures follows { (before after : LinkValue)
        → link.old ≡ Some before → link.new ≡ Some after
        → after.state.delivered ≡ before.state.delivered }
    ensures refused { IfErr result (IsStrikeReasonOf link.old start.now) }
    ensures unchanged { OnErr result (link.new ≡ link.old) }
{
    let Some(link) = link else {
        return Err(StrikeFault::NoSuchLink);
    };
    Ok(link.strike(start)?)
}

/// The receiver of a link begins anew, its sender does, or both, where there is a link.
fn begin_anew(link: &mut Option<Link>, receiver: bool, sender: bool)
    ensures { link.new
        ≡ option_map (λ l. link_at l.params (begun_anew receiver sender l.state)) link.old }
{
    let Some(link) = link else {
        return;
    };
    if receiver {
        link.begin_receiver_anew();
    }
    if sender {
        link.begin_sender_anew();
    }
}

/// Whether a node is the parent.
fn is_parent(node: NodeId, parent: Option<NodeId>) -> bool
    ensures { result ≡ option_map_or (λ its_parent. its_parent == node) parent false }
{
    parent == Some(node)
}

/// The links of a tree after a restart of this node.
pub fn restart(node: NodeId, parents: &[Option<NodeId>], links: &mut Vec<Option<Link>>)
    requires { length links.old.items ≤ length parents.now }
    ensures { links.new.items ≡ each_link (restarted_at parents.now node) 0 links.old.items }
{
    'links: for place in 0..links.len() {
        let sender = is_parent(node, parents[place]);
        begin_anew(&mut links[place], place == node.index(), sender);
    }
}
