ghost use Rattle.std.specs.Prelude.{◌≡◌, ◌↔◌, ◌+◌, length, IsTrue, [], false};
ghost use Rattle.stab_ends.specs.Accounts.{SenderAccount, ReceiverAccount, new_sender};
ghost use Rattle.stab_ends.specs.Accounts.{new_receiver};

use stab_frames::Item;
use std::alloc::Global;
use std::marker::Model;

/// What a sender's end did by its own calls: plain data, which contracts see as its lists and
/// numbers.
#[derive(Debug)]
pub struct SendAccount {
    /// The items that the end took, in their order.
    pub offered: Vec<Item>,
    /// How many of them are acknowledged.
    pub acked: u64,
    /// Whether the end closed the link.
    pub closed: bool,
}

impl Drop for SendAccount {
    fn drop(self) {
        let SendAccount {
            offered: _,
            acked: _,
            closed: _,
        } = self;
    }
}

impl Model for SendAccount {
    ghost use Rattle.stab_ends.specs.Accounts.{SenderAccount};

    ghost Value = { SenderAccount };

    ghost view = { λ a. record { offered = a.offered.items; acked = a.acked; closed = a.closed } };
}

impl SendAccount {
    /// The account of an end that has made no call. It takes no memory.
    pub fn new(alloc: Global) -> SendAccount
        ensures { result ≡ new_sender }
    {
        SendAccount {
            offered: Vec::new(alloc),
            acked: 0,
            closed: false,
        }
    }

    /// Makes room for this many more items, as far as memory is there. Where it is refused, the list
    /// grows step by step as without this call, so there is nothing to report.
    pub fn reserve(&mut self, additional: usize)
        ensures { self.new ≡ self.old }
    {
        let _offered = self.offered.reserve_exact(additional);
    }

    /// Whether each item that was taken is acknowledged.
    pub fn is_idle(&self) -> bool
        ensures { IsTrue result ↔ (length self.now.offered ≡ self.now.acked) }
    {
        self.offered.len() as u64 == self.acked
    }

    /// Whether the last item that was taken waits for its acknowledgement.
    pub fn is_waiting(&self) -> bool
        ensures { IsTrue result ↔ (length self.now.offered ≡ self.now.acked + 1) }
    {
        let count = self.offered.len() as u64;
        count > 0 && count - 1 == self.acked
    }
}

/// What a receiver's end did by its own calls: plain data, which contracts see as its list and its
/// mark.
#[derive(Debug)]
pub struct RecvAccount {
    /// The items that the end delivered, in their order.
    pub delivered: Vec<Item>,
    /// Whether the end was shown the close.
    pub closed: bool,
}

impl Drop for RecvAccount {
    fn drop(self) {
        let RecvAccount {
            delivered: _,
            closed: _,
        } = self;
    }
}

impl Model for RecvAccount {
    ghost use Rattle.stab_ends.specs.Accounts.{ReceiverAccount};

    ghost Value = { ReceiverAccount };

    ghost view = { λ a. record { delivered = a.delivered.items; closed = a.closed } };
}

impl RecvAccount {
    /// The account of an end that has made no call. It takes no memory.
    pub fn new(alloc: Global) -> RecvAccount
        ensures { result ≡ new_receiver }
    {
        RecvAccount {
            delivered: Vec::new(alloc),
            closed: false,
        }
    }

    /// Makes room for this many more items, as far as memory is there. Where it is refused, the list
    /// grows step by step as without this call, so there is nothing to report.
    pub fn reserve(&mut self, additional: usize)
        ensures { self.new ≡ self.old }
    {
        let _delivered = self.delivered.reserve_exact(additional);
    }
}
