//! Laws over the definitions alone: what a line does that has a sender and a receiver at its ends.
//! Each is a function with an empty body; its contract is the law.

ghost use mathlib.Core.List.{IsPrefix};
ghost use Rattle.std.specs.Prelude.{◌≡◌, ℕ, ◌+◌, ◌*◌, ◌<◌, ◌≤◌, List, ◌∷◌, ◌++◌, length, map};
ghost use Rattle.std.specs.Prelude.{Bool, true, false, Option, Some, None, drop};
ghost use Rattle.stab_core.specs.LinkLaw.{LinkLaw};
ghost use Rattle.stab_core.specs.Replay.{initial};
ghost use Rattle.stab_line.specs.Ends.{ReceiverEnd, SenderEnd};
ghost use Rattle.stab_line.specs.Acts.{IsFrameReceived, IsPolled};
ghost use Rattle.stab_line.specs.Edge.{EdgeAct, edge_at, edge_run, is_offer, new_edge};
ghost use Rattle.stab_line.specs.Line.{after_sending, frame_comes, frame_sent, held, line_step};
ghost use Rattle.stab_line.specs.Line.{with_taken};
ghost use Rattle.stab_line.specs.Line.{IsReplay, LineAct, line_run, link_of, new_count, start_of};
ghost use Rattle.stab_line.specs.MixedTree as mixed;
ghost use Rattle.stab_line.specs.MixedTree.{AllKeepTurns, MixedAct, MixedTree, mixed_run};
ghost use Rattle.stab_line.specs.NodeTree.{NodeAct, NodeTree, PathBegins, TreeBegins, list_above};
ghost use Rattle.stab_line.specs.NodeTree.{list_of, node_run, node_step, parameters_into};
ghost use Rattle.stab_line.specs.NodeTree.{at_line, polls, publishes};
ghost use Rattle.stab_frames.specs.Parameters.{AreLawful, Parameters};
ghost use Rattle.stab_frames.specs.declared.frame.Frame.{Frame};
ghost use Rattle.stab_line.specs.StartLaw.{LinkLawOfStart};
ghost use Rattle.stab_line.specs.StartTree.{TreeLawOfStarts};
ghost use Rattle.stab_line.specs.WholeLists.{PathBeginsAt, whole_above, whole_run, whole_step};
ghost use Rattle.stab_tree.specs.Nodes.{parent_at};
ghost use Rattle.stab_treecore.specs.Network.{IsNetwork, Network};
ghost use Rattle.stab_treecore.specs.NodeLaws.{TreeLawAtNode, TreeLawAtNodes};
ghost use Rattle.stab_treecore.specs.SharperLaw.{SharperTreeLawAtNode, SharperTreeLawAtNodes};
ghost use Rattle.stab_treecore.specs.TreeLaw.{TreeLaw};

/// Two ends on a line that is first in first out, holds at most `c` messages each way, loses any
/// message and repeats the front are a replay of the link. Their labels and what is on the line may
/// be any when the count begins, and so may the item that the sender holds, which counts as offered
/// first.
pub fn two_ends_on_a_line_are_a_link()
    ensures { (p : Parameters) (frames : List Frame) (acks : List ℕ) (sender : SenderEnd)
        (receiver : ReceiverEnd) (acts : List LineAct)
        → IsReplay p (initial (start_of frames acks sender receiver))
        (link_of (line_run p (new_count frames acks sender receiver) acts)) }
{}

/// So the link law holds of what two ends did: at most `c` strays were delivered and then offered
/// items in their order, each at most once; of the acknowledged ones only some among the first
/// `2c + 1` can be missing.
pub fn two_ends_on_a_line_obey_the_link_law()
    ensures { (p : Parameters) (frames : List Frame) (acks : List ℕ) (sender : SenderEnd)
        (receiver : ReceiverEnd) (acts : List LineAct)
        → AreLawful p → length frames ≤ p.capacity → length acks ≤ p.capacity
        → let l = line_run p (new_count frames acks sender receiver) acts in
        LinkLaw p.capacity (map (λ f. f.item) frames) l.offered l.acked l.delivered }
{}

/// What a node offers to a child is a prefix of the node's list, whatever happens on the line to
/// the child. An item that the child's sender holds when the count begins is to be the first of the
/// list then.
pub fn offers_are_a_prefix_of_the_list()
    ensures { (p : Parameters) (list : List ℕ) (frames : List Frame) (acks : List ℕ)
        (sender : SenderEnd) (receiver : ReceiverEnd) (acts : List EdgeAct)
        → IsPrefix (held sender.state.item) list
        → let e = edge_run p (new_edge list frames acks sender receiver) acts in
        IsPrefix e.line.offered e.list }
{}

/// So a child obeys the tree law where its parent does. A line adds `c` to the strays, and `2c + 1`
/// to the items that may be missing. The child's list is its opening and then what its receiver
/// delivered; an opening adds its length to the strays.
pub fn a_child_obeys_the_tree_law()
    ensures { (p : Parameters) (list : List ℕ) (frames : List Frame) (acks : List ℕ)
        (sender : SenderEnd) (receiver : ReceiverEnd) (acts : List EdgeAct)
        (most_strays most_missing : ℕ) (opening garbage published : List ℕ)
        → AreLawful p → length frames ≤ p.capacity → length acks ≤ p.capacity
        → IsPrefix (held sender.state.item) list
        → let e = edge_run p (new_edge list frames acks sender receiver) acts in
        TreeLaw most_strays most_missing garbage published e.list
        → TreeLaw (most_strays + p.capacity + length opening)
        (most_missing + (2 * p.capacity + 1))
        (opening ++ (map (λ f. f.item) frames ++ garbage)) published
        (opening ++ e.line.delivered) }
{}

/// A child that is made anew at a place of its node's list gets the list from there on, whatever
/// was before, is on the line and happens later: what it is offered is a prefix of that, at most
/// `c` strays are delivered and then offered items in their order, each at most once, and of the
/// acknowledged ones only some among the first `2c + 1` can be missing. By what really was under
/// way when it was made, these are fewer. And it obeys the tree law where the list of its node does
/// from that place on.
pub fn a_child_made_anew_gets_the_list_from_its_place()
    ensures offered { (p : Parameters) (place : ℕ) (list : List ℕ) (frames : List Frame)
        (acks : List ℕ) (sender : SenderEnd) (receiver : ReceiverEnd) (acts : List EdgeAct)
        → place ≤ length list → IsPrefix (held sender.state.item) (drop place list)
        → let e = edge_run p (edge_at place list frames acks sender receiver) acts in
        IsPrefix e.line.offered (drop place e.list) }
    ensures delivered { (p : Parameters) (place : ℕ) (list : List ℕ) (frames : List Frame)
        (acks : List ℕ) (sender : SenderEnd) (receiver : ReceiverEnd) (acts : List EdgeAct)
        → AreLawful p → length frames ≤ p.capacity → length acks ≤ p.capacity
        → place ≤ length list → IsPrefix (held sender.state.item) (drop place list)
        → let e = edge_run p (edge_at place list frames acks sender receiver) acts in
        LinkLaw p.capacity (map (λ f. f.item) frames) e.line.offered e.line.acked
        e.line.delivered }
    ensures of_its_start { (p : Parameters) (place : ℕ) (list : List ℕ) (frames : List Frame)
        (acks : List ℕ) (sender : SenderEnd) (receiver : ReceiverEnd) (acts : List EdgeAct)
        → AreLawful p → length frames ≤ p.capacity → length acks ≤ p.capacity
        → place ≤ length list → IsPrefix (held sender.state.item) (drop place list)
        → let e = edge_run p (edge_at place list frames acks sender receiver) acts in
        LinkLawOfStart (start_of frames acks sender receiver) e.line.offered e.line.acked
        e.line.delivered }
    ensures in_a_tree { (p : Parameters) (place : ℕ) (list : List ℕ) (frames : List Frame)
        (acks : List ℕ) (sender : SenderEnd) (receiver : ReceiverEnd) (acts : List EdgeAct)
        (most_strays most_missing : ℕ) (opening garbage published : List ℕ)
        → AreLawful p → length frames ≤ p.capacity → length acks ≤ p.capacity
        → place ≤ length list → IsPrefix (held sender.state.item) (drop place list)
        → let e = edge_run p (edge_at place list frames acks sender receiver) acts in
        TreeLaw most_strays most_missing garbage published (drop place e.list)
        → TreeLaw (most_strays + p.capacity + length opening)
        (most_missing + (2 * p.capacity + 1))
        (opening ++ (map (λ f. f.item) frames ++ garbage)) published
        (opening ++ e.line.delivered) }
{}

/// What the clauses `act` and `list` say of the calls of a node makes up the steps of a tree: of a
/// poll and the frame that is sent then, also where the list begins with items from before the
/// count, of a frame that comes to a node and is not lost, and of an item that the root publishes.
/// Any other call acts on its line alone.
pub fn calls_of_nodes_are_acts_of_the_tree()
    ensures polled { (net : Network) (t : NodeTree) (child count : ℕ) (after : SenderEnd)
        (sent : Option Frame)
        → IsPolled (list_above net t child) (t.counts child) (t.lines child).sender count after sent
        → let polled = node_step net t (polls child) in
        (polled.counts child ≡ count) × ((polled.lines child).sender ≡ after)
        × (((node_step net polled (at_line child frame_sent)).lines child).frames
        ≡ after_sending (parameters_into net child) (t.lines child).frames sent) }
    ensures past { (dropped list : List ℕ) (count count_after : ℕ) (before after : SenderEnd)
        (sent : Option Frame)
        → IsPolled (dropped ++ list) (length dropped + count) before
        (length dropped + count_after) after sent
        → IsPolled list count before count_after after sent }
    ensures received { (net : Network) (t : NodeTree) (child parent : ℕ) (repeated : Bool)
        (frame : Frame) (rest : List Frame) (delivered : Bool) (after : ReceiverEnd)
        → parent_at net.tree.parents child ≡ Some parent
        → (t.lines child).frames ≡ frame ∷ rest
        → IsFrameReceived (t.lines child).receiver frame delivered after
        → let next = node_step net t (at_line child (frame_comes repeated)) in
        ((next.lines child).receiver ≡ after)
        × (list_of net next child ≡ with_taken delivered (list_of net t child) frame.item) }
    ensures published { (net : Network) (t : NodeTree) (root item : ℕ)
        → parent_at net.tree.parents root ≡ None
        → list_of net (node_step net t (publishes item)) root
        ≡ with_taken true (list_of net t root) item }
    ensures on_line { (net : Network) (t : NodeTree) (child : ℕ) (act : LineAct)
        → is_offer act ≡ false
        → (node_step net t (at_line child act)).lines child
        ≡ line_step (parameters_into net child) (t.lines child) act }
{}

/// The tree law at every node of a whole tree of nodes, of any number, whatever they and their
/// lines do, in whatever order: each node offers to its children what is next in its own list. A
/// node has at most C + E strays, the sums of `c` over the links on its path and of `h` over the
/// inner nodes. Before its last published item only some among the first M are missing, the sum of
/// `2c + 1`. Where the children of a node are at different items of its list when the count begins,
/// the law holds of each path by itself: there a list begins with the first item that the child on
/// the path has not acknowledged, and nothing is asked of the links beside the path. The sharper
/// law holds as well: at most `c + 1` for each link of the path are missing, and `2c + 1` for one.
pub fn a_tree_of_nodes_obeys_the_tree_law()
    ensures at_every_node { (net : Network) (before : NodeTree) (acts : List NodeAct)
        → IsNetwork net → TreeBegins net before
        → let after = node_run net before acts in
        after.published ≡ net.published
        → TreeLawAtNodes net (list_of net after) }
    ensures along_each_path { (net : Network) (before : NodeTree) (acts : List NodeAct) (node : ℕ)
        → IsNetwork net → PathBegins net before node → node < length net.tree.parents
        → let after = node_run net before acts in
        after.published ≡ net.published
        → TreeLawAtNode net (list_of net after) node }
    ensures sharper_at_every_node { (net : Network) (before : NodeTree) (acts : List NodeAct)
        → IsNetwork net → TreeBegins net before
        → let after = node_run net before acts in
        after.published ≡ net.published
        → SharperTreeLawAtNodes net (list_of net after) }
    ensures sharper_along_each_path { (net : Network) (before : NodeTree) (acts : List NodeAct)
        (node : ℕ)
        → IsNetwork net → PathBegins net before node → node < length net.tree.parents
        → let after = node_run net before acts in
        after.published ≡ net.published
        → SharperTreeLawAtNode net (list_of net after) node }
{
    stab_core::laws::every_replay_obeys_the_sharper_link_law();
}

/// The same where the list of a node is all that it ever had, and each child is at a place of it,
/// wherever its siblings are: so the laws are about nodes that forget what their children were
/// offered. A count of a path begins with what each node on it has from the place of its child on
/// the path, be it a child that was just made anew or one that is under way. A poll is stated of
/// whole lists; of a child that is left behind, it is the act on its line alone that sends a frame.
pub fn a_tree_of_whole_lists_obeys_the_tree_law()
    ensures along_each_path { (net : Network) (past : ℕ → List ℕ) (before : NodeTree)
        (acts : List NodeAct) (node : ℕ)
        → IsNetwork net → PathBeginsAt net past before node → node < length net.tree.parents
        → let after = whole_run net past before acts in
        after.published ≡ net.published
        → TreeLawAtNode net (list_of net after) node }
    ensures sharper_along_each_path { (net : Network) (past : ℕ → List ℕ) (before : NodeTree)
        (acts : List NodeAct) (node : ℕ)
        → IsNetwork net → PathBeginsAt net past before node → node < length net.tree.parents
        → let after = whole_run net past before acts in
        after.published ≡ net.published
        → SharperTreeLawAtNode net (list_of net after) node }
    ensures polled { (net : Network) (past : ℕ → List ℕ) (t : NodeTree) (child count : ℕ)
        (after : SenderEnd) (sent : Option Frame)
        → IsPolled (whole_above net past t child) (t.counts child) (t.lines child).sender count
        after sent
        → let polled = whole_step net past t (polls child) in
        (polled.counts child ≡ count) × ((polled.lines child).sender ≡ after)
        × (((whole_step net past polled (at_line child frame_sent)).lines child).frames
        ≡ after_sending (parameters_into net child) (t.lines child).frames sent) }
{
    stab_core::laws::every_replay_obeys_the_sharper_link_law();
}

/// The law of a whole tree with what each link really had under way when the count began, in place
/// of the capacities: a link adds its frames to the strays, and its frames, its acknowledgements
/// and one to the items that may be missing.
pub fn a_tree_of_nodes_obeys_the_law_of_its_starts()
    ensures { (net : Network) (before : NodeTree) (acts : List NodeAct)
        → IsNetwork net → TreeBegins net before
        → let after = node_run net before acts in
        after.published ≡ net.published
        → TreeLawOfStarts net (list_of net after) }
{}

/// Both hold where each link of the tree goes its own way: over a line, over connections that are
/// made again, or over two registers of a store.
pub fn a_tree_of_mixed_links_obeys_the_tree_law()
    ensures law { (net : Network) (before : MixedTree) (acts : List MixedAct)
        → IsNetwork net → TreeBegins net (mixed.nodes_of net before) → AllKeepTurns before
        → let after = mixed_run net before acts in
        after.published ≡ net.published
        → TreeLawAtNodes net (list_of net (mixed.nodes_of net after)) }
    ensures of_starts { (net : Network) (before : MixedTree) (acts : List MixedAct)
        → IsNetwork net → TreeBegins net (mixed.nodes_of net before) → AllKeepTurns before
        → let after = mixed_run net before acts in
        after.published ≡ net.published
        → TreeLawOfStarts net (list_of net (mixed.nodes_of net after)) }
{}
