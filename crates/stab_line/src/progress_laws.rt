//! Laws over the definitions alone: what comes of exchanges on a connection, from whatever state of
//! its two ends. Each is a function with an empty body; its contract is the law.

ghost use Rattle.std.specs.Prelude.{◌≡◌, ℕ, ◌+◌, ◌-◌, ◌≤◌, ◌==◌, Bool, not, if◌then◌else◌, List};
ghost use Rattle.std.specs.Prelude.{◌++◌, None, Some, drop, false, length};
ghost use Rattle.stab_frames.specs.Parameters.{AreLawful, Parameters, next};
ghost use Rattle.stab_line.specs.Ends.{new_receiver, new_sender};
ghost use Rattle.stab_line.specs.Line.{with_taken};
ghost use Rattle.stab_line.specs.Passes.{AllMayConnect, AllMaySend, IsPath, PathLink, all_connect};
ghost use Rattle.stab_line.specs.Passes.{backlogs, pass, passes};
ghost use Rattle.stab_line.specs.Progress.{AreOpen, IsNew, IsSendersTurn, connects, exchange};
ghost use Rattle.stab_line.specs.Progress.{exchanges, register_exchange};
ghost use Rattle.stab_line.specs.Registers.{Registers, register_run};
ghost use Rattle.stab_line.specs.SessionLink.{SessionLink, link_run};
ghost use Rattle.stab_line.specs.SessionTree.{SessionTree, tree_run};
ghost use Rattle.stab_treecore.specs.Network.{IsNetwork, Network};

/// One exchange acknowledges the item that waits, whatever labels the two ends have: the receiver
/// takes it, or had its label already. Then the sender is idle, and has the turn again.
pub fn an_exchange_acknowledges_the_item()
    ensures { (p : Parameters) (t : SessionLink) (n item : ℕ)
        → AreOpen t → t.sender.state.item ≡ Some item → IsSendersTurn t n
        → let after = link_run p t (exchange n) in
        let label : ℕ = t.sender.state.label in
        (after.acked ≡ t.acked + 1) × (after.sender ≡ new_sender (next p label))
        × (after.receiver ≡ new_receiver label)
        × (after.delivered ≡ with_taken (not (label == t.receiver.label)) t.delivered item)
        × IsSendersTurn after n }
{}

/// A new connection leads to exchanges, whatever connections, turns and messages there were before.
pub fn a_new_connection_gives_the_sender_the_turn()
    ensures { (p : Parameters) (t : SessionLink) (by_sender : Bool) (n : ℕ) → AreOpen t → IsNew t n
        → let after = link_run p t (connects by_sender n) in
        AreOpen after × IsSendersTurn after n }
{}

/// So from any state of two open ends a new connection and one exchange acknowledge the item that
/// waits.
pub fn a_new_connection_acknowledges_the_item()
    ensures { (p : Parameters) (t : SessionLink) (by_sender : Bool) (n item : ℕ)
        → AreOpen t → t.sender.state.item ≡ Some item → IsNew t n
        → let after = link_run p t (connects by_sender n ++ exchange n) in
        (after.acked ≡ t.acked + 1) × (after.sender ≡ new_sender (next p t.sender.state.label))
        × IsSendersTurn after n }
{}

/// Each exchange hands on an item: as many exchanges acknowledge as many items, and the receiver
/// delivers them all in their order, but for the first one if it had its label already.
pub fn each_exchange_hands_on_an_item()
    ensures { (p : Parameters) (t : SessionLink) (n : ℕ) (items : List ℕ)
        → AreLawful p → AreOpen t → t.sender.state.item ≡ None → IsSendersTurn t n
        → let after = link_run p t (exchanges n items) in
        (after.offered ≡ t.offered ++ items) × (after.acked ≡ t.acked + length items)
        × (after.delivered ≡ t.delivered ++ (if t.sender.state.label == t.receiver.label
        then drop 1 items else items))
        × (after.sender.state.item ≡ None) × IsSendersTurn after n }
{}

/// So does one exchange of a link in two registers, whatever they show before it, where both ends
/// have been given what they got.
pub fn an_exchange_of_registers_acknowledges_the_item()
    ensures { (p : Parameters) (r : Registers) (item : ℕ)
        → r.sender.closed ≡ false → r.receiver.closed ≡ false → r.ack_got ≡ None
        → r.frame_got ≡ None → r.sender.state.item ≡ Some item
        → let after = register_run p r register_exchange in
        let label : ℕ = r.sender.state.label in
        (after.acked ≡ r.acked + 1) × (after.sender ≡ new_sender (next p label))
        × (after.receiver ≡ new_receiver label)
        × (after.delivered ≡ with_taken (not (label == r.receiver.label)) r.delivered item) }
{}

/// Each pass over a path leaves at least one item less in its backlogs, all taken together, until
/// none is left.
pub fn each_pass_shortens_the_backlogs()
    ensures { (net : Network) (t : SessionTree) (above : ℕ) (path : List PathLink)
        → IsNetwork net → IsPath net.tree.parents above path → AllMaySend t path
        → let after = tree_run net t (pass path) in
        (backlogs net after path ≤ backlogs net t path - 1) × AllMaySend after path }
{}

/// So from any state in which no end of a path is closed, whatever labels, items and connections
/// its ends have, new connections on its links and as many passes as its backlogs have items leave
/// none: each node of the path whose count is not past the end of its parent's list was offered all
/// of that, and acknowledged it.
pub fn a_path_hands_on_everything_from_any_state()
    ensures { (net : Network) (t : SessionTree) (above : ℕ) (path : List PathLink)
        (by_parent : ℕ → Bool)
        → IsNetwork net → IsPath net.tree.parents above path → AllMayConnect t path
        → let after = tree_run net t (all_connect by_parent path
        ++ passes (backlogs net t path) path) in
        (backlogs net after path ≡ 0) × AllMaySend after path }
{}
