//! Laws of the calls that forget, and of a child that has not all of the list. Each is a function
//! with an empty body; its contract is the law.

ghost use Rattle.std.specs.Prelude.{◌≡◌, ℕ, ◌<◌, ◌↔◌, List, Contains, false, is_some, length, true};
ghost use Rattle.stab_line.specs.Ends.{frame_to_send};
ghost use Rattle.stab_c.specs.Meaning.{is_set, sender_end};
ghost use Rattle.stab_c.specs.NodeList.{IsList, after_forgetting, all_need_from, is_left_behind};
ghost use Rattle.stab_c.specs.NodeList.{backlog, item_kept, offered_next};
ghost use Rattle.stab_c.specs.declared.child.Child.{Child};
ghost use Rattle.stab_c.specs.declared.node.Node.{Node};

/// Whatever the bits of a node and its buffer are, they mean a list: so what the clauses say of
/// every list that a node may have is said of one at least.
pub fn every_node_has_a_list()
    ensures { (node : Node) (buffer : List ℕ) → (items : List ℕ) × IsList node buffer items }
{}

/// A node that forgets what is before the place which some children need, each of them asked in
/// turn, leaves none of them behind that was not so before.
pub fn what_children_need_is_not_forgotten()
    ensures { (node : Node) (children : List Child) (child : Child) (place size : ℕ)
        → Contains children child
        → is_left_behind (after_forgetting node (all_need_from node children place)) child size
        ≡ is_left_behind node child size }
{}

/// The backlog of a child is 0 just where the child was offered the whole list, and its sender is
/// idle: never where it is left behind.
pub fn no_backlog_is_the_whole_list()
    ensures { (node : Node) (child : Child) (size : ℕ) → backlog node child size ≡ 0
        ↔ (child.offered ≡ node.length) × (is_set child.sender.holding ≡ false) }
{}

/// A poll of a child that has a backlog sends a frame, unless the child is left behind or its
/// sender is closed: so where none is sent, one can tell which.
pub fn a_backlog_is_sent()
    ensures { (node : Node) (child : Child) (buffer : List ℕ)
        → 0 < backlog node child (length buffer)
        → is_left_behind node child (length buffer) ≡ false
        → is_set child.sender.closed ≡ false
        → is_some (frame_to_send (offered_next (sender_end child.sender)
        (item_kept node buffer child.offered))) ≡ true }
{}
