ghost use Rattle.std.specs.Prelude.{◌≡◌, [], ◌∷◌, ◌++◌, IfOk, OnOk, filter_map, map};
ghost use Rattle.std.specs.Prelude.{option_to_list};

use crate::account::{Ended, NodeAccount};
use crate::queue::Queue;
use stab_frames::{Item, Sequence};
use std::alloc::{AllocError, Global};

/// The accounts of all nodes, taken apart: each part by node, in file order, and of the upper ends
/// those that there are, which are in the order of the links.
#[derive(Drop)]
pub(crate) struct Columns<A: Drop, B: Drop> {
    pub(crate) received: Vec<Sequence<Item>>,
    pub(crate) ended: Vec<Ended>,
    pub(crate) recvs: Vec<A>,
    pub(crate) downs: Vec<Queue<B>>,
}

impl<A: Drop, B: Drop> Columns<A, B> {
    /// The columns of no node, with room for those of that many.
    fn with_capacity(alloc: Global, nodes: usize) -> Result<Columns<A, B>, AllocError>
        ensures received { IfOk result (λ columns. columns.received.items ≡ []) }
        ensures ended { IfOk result (λ columns. columns.ended.items ≡ []) }
        ensures recvs { IfOk result (λ columns. columns.recvs.items ≡ []) }
        ensures downs { IfOk result (λ columns. columns.downs.items ≡ []) }
    {
        Ok(Columns {
            received: Vec::with_capacity(alloc, nodes)?,
            ended: Vec::with_capacity(alloc, nodes)?,
            recvs: Vec::with_capacity(alloc, nodes)?,
            downs: Vec::with_capacity(alloc, nodes)?,
        })
    }

    /// Adds each part of an account to its column. Where memory is refused, the columns are of no
    /// further use.
    fn push(&mut self, account: NodeAccount<A, B>) -> Result<(), AllocError>
        ensures received { OnOk result
            (self.new.received.items ≡ self.old.received.items ++ account.received.items ∷ []) }
        ensures ended { OnOk result
            (self.new.ended.items ≡ self.old.ended.items ++ account.ended ∷ []) }
        ensures recvs { OnOk result
            (self.new.recvs.items ≡ self.old.recvs.items ++ option_to_list account.up) }
        ensures downs { OnOk result
            (self.new.downs.items ≡ self.old.downs.items ++ account.downs.items ∷ []) }
    {
        let NodeAccount {
            received,
            up,
            downs,
            ended,
        } = account;
        self.received.push(Sequence::from_vec(received))?;
        self.ended.push(ended)?;
        match up {
            None => {}
            Some(up) => self.recvs.push(up)?,
        }
        self.downs.push(Queue::from_vec(downs))?;
        Ok(())
    }
}

/// Takes the accounts of all nodes apart.
pub(crate) fn take_apart<A: Drop, B: Drop>(
    alloc: Global,
    accounts: Vec<NodeAccount<A, B>>,
) -> Result<Columns<A, B>, AllocError>
    ensures received { IfOk result (λ columns.
        columns.received.items ≡ map (λ a. a.received.items) accounts.items) }
    ensures ended { IfOk result (λ columns.
        columns.ended.items ≡ map (λ a. a.ended) accounts.items) }
    ensures recvs { IfOk result (λ columns.
        columns.recvs.items ≡ filter_map (λ a. a.up) accounts.items) }
    ensures downs { IfOk result (λ columns.
        columns.downs.items ≡ map (λ a. a.downs.items) accounts.items) }
{
    let mut columns = Columns::with_capacity(alloc, accounts.len())?;
    for account in accounts {
        columns.push(account)?;
    }
    Ok(columns)
}
