ghost use Rattle.std.specs.Prelude.{◌≡◌, ◌<◌, length};
ghost use Rattle.stab_report.specs.Reports.{acked_at, has_ended, received_at};

use crate::entries::{Entries, Entry};
use stab_frames::{Item, Sequence};
use stab_tree::NodeId;
use std::marker::Model;

/// What somebody says of each node of a tree, in file order: a report of `stab run`, or of other
/// agents. The text of `stab tree` says as much, with no node that ended.
#[derive(Debug)]
pub struct Report {
    /// The items of each node, in the order in which it received them: the root's are those that it
    /// published, and every other node's begin with its opening.
    pub received: Vec<Sequence<Item>>,
    /// How many items are acknowledged on the link into each node; the root has none.
    pub acked: Vec<Option<u64>>,
    /// Whether each node ended with its upstream: it was shown the close of the link into it, or is
    /// the root, and every item of its list is acknowledged on every link to its children.
    pub ended_upstream: Vec<bool>,
}

impl Drop for Report {
    fn drop(self) {
        let Report {
            received: _,
            acked: _,
            ended_upstream: _,
        } = self;
    }
}

impl Model for Report {
    ghost use Rattle.stab_report.specs.Reports.{ReportValue};

    ghost Value = { ReportValue };

    ghost view = { λ r. record {
      received = r.received.items;
      acked = r.acked.items;
      ended_upstream = r.ended_upstream.items;
    } };
}

impl Report {
    /// What a node received.
    pub fn received_at(&self, node: NodeId) -> &[Item]
        requires { node < length self.now.received }
        ensures { result.now ≡ received_at self.now node }
    {
        self.received[node.index()].as_slice()
    }

    /// How many items are acknowledged on the link into a node.
    pub fn acked_at(&self, node: NodeId) -> Option<u64>
        requires { node < length self.now.acked }
        ensures { result ≡ acked_at self.now node }
    {
        self.acked[node.index()]
    }

    /// Whether a node ended with its upstream.
    pub fn has_ended(&self, node: NodeId) -> bool
        requires { node < length self.now.ended_upstream }
        ensures { result ≡ has_ended self.now node }
    {
        self.ended_upstream[node.index()]
    }
}

impl Entries for Report {
    ghost report = { λ r. r };

    fn entry(&self, node: NodeId) -> Entry<'_> {
        Entry {
            received: self.received_at(node),
            acked: self.acked_at(node),
            ended_upstream: self.has_ended(node),
        }
    }
}
