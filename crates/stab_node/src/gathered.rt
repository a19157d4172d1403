ghost use Rattle.std.specs.Prelude.{◌≡◌, IfOk, is_some, length, map};
ghost use Rattle.stab_tree.specs.Links.{links_of};
ghost use Rattle.stab_tree.specs.ByChild.{by_child};
ghost use Rattle.stab_node.specs.Scattering.{by_parent, child_counts};

use crate::account::{Ended, NodeAccount};
use crate::columns::{Columns, take_apart};
use crate::gather::gather_by_parent;
use stab_frames::{Item, Sequence};
use stab_tree::Tree;
use std::alloc::{AllocError, Global};

/// What the workers of a tree leave.
#[derive(Debug, Drop)]
pub struct Gathered<A, B> {
    /// The items of each node, in file order.
    pub received: Vec<Sequence<Item>>,
    /// Why each node's worker made no further turn, in file order.
    pub ended: Vec<Ended>,
    /// The finished sender's end of each link, in file order of the children.
    pub sends: Vec<B>,
    /// The finished receiver's end of each link, in file order of the children.
    pub recvs: Vec<A>,
}

/// Gathers what the workers of all nodes left: what belongs to a node by node, and the ends by
/// link.
pub(crate) fn gather_accounts<A: Drop, B: Drop>(
    alloc: Global,
    tree: &Tree,
    accounts: Vec<NodeAccount<A, B>>,
) -> Result<Gathered<A, B>, AllocError>
    requires ups { map is_some (map (λ a. a.up) accounts.items)
        ≡ map is_some tree.now.parents }
    requires downs { map length (map (λ a. a.downs.items) accounts.items)
        ≡ child_counts tree.now.parents }
    ensures received { IfOk result (λ g.
        g.received.items ≡ map (λ a. a.received.items) accounts.items) }
    ensures ended { IfOk result (λ g. g.ended.items ≡ map (λ a. a.ended) accounts.items) }
    ensures senders { IfOk result (λ g.
        length g.sends.items ≡ length (links_of tree.now.parents)) }
    ensures sends { IfOk result (λ g.
        by_parent tree.now.parents g.sends.items ≡ map (λ a. a.downs.items) accounts.items) }
    ensures receivers { IfOk result (λ g.
        length g.recvs.items ≡ length (links_of tree.now.parents)) }
    ensures recvs { IfOk result (λ g.
        by_child tree.now.parents g.recvs.items ≡ map (λ a. a.up) accounts.items) }
{
    let Columns {
        received,
        ended,
        recvs,
        downs,
    } = take_apart(alloc, accounts)?;
    let sends = gather_by_parent(alloc, tree, downs)?;
    Ok(Gathered {
        received,
        ended,
        sends,
        recvs,
    })
}
