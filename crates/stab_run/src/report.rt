//! What a run of workers answers, and its text.

ghost use Rattle.std.specs.Prelude.{◌≡◌, [], string_bytes, IfOk};
ghost use Rattle.stab_report.specs.Texts.{report_text};
ghost use Rattle.stab_run.specs.Reports.{OnePerNode, as_report, is_upstream};

use crate::kept_links::KeptLinks;
use stab_frames::{Item, Sequence};
use stab_node::Ended;
use stab_report::{Entries, Entry};
use stab_tree::{NodeId, Tree};
use std::alloc::{AllocError, Global};
use std::marker::Model;

/// What a run of workers answers, by node in file order. Contracts also see of which kind each link
/// was.
#[derive_where(Debug)]
pub struct Report {
    /// The items of each node, in the order in which it received them.
    pub received: Vec<Sequence<Item>>,
    /// How many items are acknowledged on the link into each node; the root has none.
    pub acked: Vec<Option<u64>>,
    /// Why each node's worker made no further turn.
    pub ended: Vec<Ended>,
    #[derive_where(skip)]
    pub(crate) links: KeptLinks,
}

impl Drop for Report {
    fn drop(self) {
        let Report {
            received: _,
            acked: _,
            ended: _,
            links: _,
        } = self;
    }
}

impl Model for Report {
    ghost use Rattle.stab_run.specs.Reports.{Reported};
    ghost use Rattle.stab_run.specs.Kept.{kinds_of};

    ghost Value = { Reported };

    ghost view = { λ r. record {
      received = r.received.items;
      acked = r.acked.items;
      ended = r.ended.items;
      kinds = kinds_of r.links;
    } };
}

impl Report {
    /// A report that no run made, of no link. It takes no memory.
    pub fn new(received: Vec<Sequence<Item>>, acked: Vec<Option<u64>>, ended: Vec<Ended>) -> Report
        ensures { result ≡ record {
          received = received.items;
          acked = acked.items;
          ended = ended.items;
          kinds = [];
        } }
    {
        Report {
            received,
            acked,
            ended,
            links: KeptLinks::None,
        }
    }
}

impl Entries for Report {
    ghost report = { as_report };

    fn entry(&self, node: NodeId) -> Entry<'_> {
        Entry {
            received: self.received[node.index()].as_slice(),
            acked: self.acked[node.index()],
            ended_upstream: is_upstream(self.ended[node.index()]),
        }
    }
}

/// Whether a worker ended with its upstream.
fn is_upstream(ended: Ended) -> bool
    ensures { result ≡ is_upstream ended }
{
    match ended {
        Ended::Upstream => true,
        Ended::Turns => false,
    }
}

/// The lines of each node in file order: its name, its depth, how many items it received, how many
/// are acknowledged on the link into it, and why its worker ended; and the items that it received.
pub fn report_text(alloc: Global, tree: &Tree, report: &Report) -> Result<String, AllocError>
    requires { OnePerNode tree.now.parents report.now }
    ensures { IfOk result (λ text.
        string_bytes text ≡ report_text tree.now (as_report report.now)) }
{
    stab_report::report_text(alloc, tree, report)
}
