ghost use Rattle.std.specs.Prelude.{◌≡◌, ◌<◌, length};
ghost use Rattle.stab_report.specs.Reports.{ReportValue, acked_at, has_ended, received_at};

use stab_frames::Item;
use stab_tree::NodeId;

/// What a report says of a node.
#[derive(Clone, Copy, Debug)]
pub struct Entry<'a> {
    /// The items of the node, in the order in which it received them.
    pub received: &'a [Item],
    /// How many items are acknowledged on the link into it; the root has none.
    pub acked: Option<u64>,
    /// Whether it ended with its upstream.
    pub ended_upstream: bool,
}

/// What keeps a report, in whatever form: it is printed by its entries.
pub trait Entries {
    // The report that is kept.
    ghost report: { Self → ReportValue };

    /// What the report says of a node.
    fn entry(&self, node: NodeId) -> Entry<'_>
        requires received { node < length (report self.now).received }
        requires acked { node < length (report self.now).acked }
        requires ended { node < length (report self.now).ended_upstream }
        ensures received { result.received.now ≡ received_at (report self.now) node }
        ensures acked { result.acked ≡ acked_at (report self.now) node }
        ensures ended { result.ended_upstream ≡ has_ended (report self.now) node };
}
