//! Laws over the definitions alone: what a link over connections is that are made again, where its
//! two ends do what the calls of a session say. Each is a function with an empty body; its contract
//! is the law.

ghost use Rattle.std.specs.Prelude.{◌≡◌, ℕ, ◌+◌, ◌≤◌, Bool, true, if◌then◌else◌, List, [], ◌∷◌};
ghost use Rattle.std.specs.Prelude.{Option, Some, fold, length, map};
ghost use Rattle.stab_line.specs.Acts.{IsPolled};
ghost use Rattle.stab_line.specs.Ends.{ReceiverEnd, SenderEnd};
ghost use Rattle.stab_line.specs.Line.{LineAct, line_run, new_count, with_taken};
ghost use Rattle.stab_line.specs.MakerBegins.{clean_link, late_acts, maker_step};
ghost use Rattle.stab_line.specs.NodeTree.{TreeBegins, list_above, list_of, parameters_into};
ghost use Rattle.stab_line.specs.Session.{Session, after_end, has, may_send, sent_now, session_on};
ghost use Rattle.stab_line.specs.Session.{turn_after};
ghost use Rattle.stab_line.specs.SessionActs.{IsAckHandled, IsFrameHandled};
ghost use Rattle.stab_line.specs.SessionLink.{InTurn, LinkAct, SessionLink, ack_comes};
ghost use Rattle.stab_line.specs.SessionLink.{counted_anew};
ghost use Rattle.stab_line.specs.SessionLink.{frame_comes, frame_sent, line_of, link_run};
ghost use Rattle.stab_line.specs.SessionLink.{no_connection, on_it, put_on, receiver_restarted};
ghost use Rattle.stab_line.specs.SessionLink.{sender_restarted};
ghost use Rattle.stab_line.specs.SessionNames.{IsAckHandledAs, IsFrameHandledAs, TellsApart};
ghost use Rattle.stab_line.specs.SessionNames.{known_as};
ghost use Rattle.stab_line.specs.SessionNumbers.{Call, IsNewest, call_run, never_connected};
ghost use Rattle.stab_line.specs.SessionTree.{AllInTurn, SessionTree, TreeAct, at_link, nodes_of};
ghost use Rattle.stab_line.specs.SessionTree.{polls, tree_run, tree_step};
ghost use Rattle.stab_line.specs.StartLaw.{LinkLawOfStart};
ghost use Rattle.stab_core.specs.LinkLaw.{HalfLaw, LinkLaw, LinkLawWithin};
ghost use Rattle.stab_core.specs.Replay.{IsLawful, initial, replay};
ghost use Rattle.stab_core.specs.declared.event.Event.{Event};
ghost use Rattle.stab_core.specs.declared.start.Start.{Start};
ghost use Rattle.stab_frames.specs.Parameters.{AreLawful, Parameters};
ghost use Rattle.stab_frames.specs.declared.frame.Frame.{Frame};
ghost use Rattle.stab_tree.specs.Nodes.{parent_at};
ghost use Rattle.stab_treecore.specs.Network.{IsNetwork, Network};
ghost use Rattle.stab_treecore.specs.NodeLaws.{TreeLawAtNodes};

/// Whatever happens, the connections stay in turn: on each that was accepted at most one message is
/// under way or one end has the turn, and on any other nothing is under way and no end has it.
pub fn connections_stay_in_turn()
    ensures { (p : Parameters) (t : SessionLink) (acts : List LinkAct)
        → InTurn t → InTurn (link_run p t acts) }
{}

/// A link over connections that are in turn is a line, for every capacity from 1 on: there are acts
/// of the line that lead it the same way.
pub fn connections_are_a_line()
    ensures { (p : Parameters) (t : SessionLink) (acts : List LinkAct)
        → 1 ≤ p.capacity → InTurn t
        → (line_acts : List LineAct)
        × (line_run p (line_of t) line_acts ≡ line_of (link_run p t acts)) }
{}

/// So the link law holds of what happens on it in a new count, which may begin at any moment.
pub fn connections_obey_the_link_law()
    ensures { (p : Parameters) (t : SessionLink) (acts : List LinkAct)
        → AreLawful p → InTurn t → let after = link_run p (counted_anew t) acts in
        LinkLaw p.capacity (map (λ f. f.item) (on_it t.at_receiver.connection t.down))
        after.offered after.acked after.delivered }
{}

/// So the tree law holds at every node of a tree whose links go over connections.
pub fn a_tree_over_connections_obeys_the_tree_law()
    ensures { (net : Network) (before : SessionTree) (acts : List TreeAct)
        → IsNetwork net → TreeBegins net (nodes_of before) → AllInTurn before
        → let after = tree_run net before acts in
        after.published ≡ net.published
        → TreeLawAtNodes net (list_of net (nodes_of after)) }
{}

/// A restart of either end, whatever that end is then, leaves the connections in turn, and those of
/// two ends that never had one are in turn. The line of connections that are in turn holds at most
/// one message each way, and none to an end that restarted.
pub fn restarts_leave_connections_in_turn()
    ensures of_the_sender { (t : SessionLink) (sender : SenderEnd) → InTurn t
        → InTurn (sender_restarted t sender) }
    ensures of_the_receiver { (t : SessionLink) (receiver : ReceiverEnd) → InTurn t
        → InTurn (receiver_restarted t receiver) }
    ensures of_both { (sender : SenderEnd) (receiver : ReceiverEnd)
        → InTurn (no_connection sender receiver) }
    ensures few_frames { (t : SessionLink) → InTurn t → length (line_of t).frames ≤ 1 }
    ensures few_acks { (t : SessionLink) → InTurn t → length (line_of t).acks ≤ 1 }
    ensures no_acks { (t : SessionLink) (sender : SenderEnd)
        → (line_of (sender_restarted t sender)).acks ≡ [] }
    ensures no_frames { (t : SessionLink) (receiver : ReceiverEnd)
        → (line_of (receiver_restarted t receiver)).frames ≡ [] }
    ensures anew { (t : SessionLink) → line_of (counted_anew t)
        ≡ new_count (line_of t).frames (line_of t).acks t.sender t.receiver }
{}

/// Whatever calls were made of a session, the connection that its end takes for its own is the one
/// whose number was given last, and all numbers given before are lower.
pub fn numbers_tell_the_newest_connection()
    ensures { (calls : List Call) (n : ℕ) → let s = call_run never_connected calls in
        has s.session n ≡ true → IsNewest s.given n }
{}

/// Each end numbers its connections by itself: what a call does to the session of its end is the
/// same act whatever connections the numbers mean, if no two mean one.
pub fn numbers_may_mean_any_connections()
    ensures frame { (name : ℕ → ℕ) → TellsApart name
        → (before : ReceiverEnd) (session : Session) (n : ℕ) (frame : Frame) (delivered : Bool)
        (after : ReceiverEnd) (session_after : Session)
        → IsFrameHandled before session n frame delivered after session_after
        → IsFrameHandledAs name before session n frame delivered after session_after }
    ensures ack { (name : ℕ → ℕ) → TellsApart name
        → (p : Parameters) (before : SenderEnd) (session : Session) (n label : ℕ) (waited : Bool)
        (after : SenderEnd) (session_after : Session)
        → IsAckHandled p before session n label waited after session_after
        → IsAckHandledAs name p before session n label waited after session_after }
    ensures left { (name : ℕ → ℕ) → TellsApart name → (s : Session) (k : ℕ)
        → after_end (known_as name s) (name k) ≡ known_as name (after_end s k) }
    ensures begun { (name : ℕ → ℕ) (k : ℕ) (turn : Bool)
        → known_as name (session_on k turn) ≡ session_on (name k) turn }
    ensures sent { (name : ℕ → ℕ) (s : Session) (x : Option Frame)
        → turn_after (known_as name s) (sent_now (known_as name s) x)
        ≡ known_as name (turn_after s (sent_now s x)) }
{}

/// What the clauses `act` say of the calls of a node makes up the steps of a tree over connections:
/// of a poll of a child whose end may send and the frame that is sent then, of a frame that comes
/// to a node and is not lost, and of an acknowledgement that comes to a child's sender.
pub fn calls_of_sessions_are_acts_of_the_tree()
    ensures polled { (net : Network) (t : SessionTree) (child parent count : ℕ) (after : SenderEnd)
        (sent : Option Frame)
        → parent_at net.tree.parents child ≡ Some parent
        → may_send (t.links child).at_sender ≡ true
        → IsPolled (list_above net (nodes_of t) child) (t.counts child) (t.links child).sender
        count after sent
        → let polled = tree_step net t (polls child) in
        let next = tree_step net polled (at_link child frame_sent) in
        let before : SessionLink = t.links child in
        (next.counts child ≡ count) × ((next.links child).sender ≡ after)
        × ((next.links child).at_sender ≡ turn_after before.at_sender sent)
        × ((next.links child).down ≡ put_on before.at_sender.connection before.down sent) }
    ensures received { (net : Network) (t : SessionTree) (child parent : ℕ) (name : ℕ → ℕ)
        (session : Session) (n : ℕ) (frame : Frame) (rest : List Frame) (delivered : Bool)
        (after : ReceiverEnd) (session_after : Session)
        → parent_at net.tree.parents child ≡ Some parent
        → (t.links child).at_receiver ≡ known_as name session
        → (t.links child).down (name n) ≡ frame ∷ rest
        → IsFrameHandledAs name (t.links child).receiver session n frame delivered after
        session_after
        → let next = tree_step net t (at_link child (frame_comes (name n))) in
        ((next.links child).receiver ≡ after)
        × ((next.links child).at_receiver ≡ known_as name session_after)
        × (list_of net (nodes_of next) child
        ≡ with_taken delivered (list_of net (nodes_of t) child) frame.item) }
    ensures acknowledged { (net : Network) (t : SessionTree) (child parent : ℕ) (name : ℕ → ℕ)
        (session : Session) (n label : ℕ) (rest : List ℕ) (waited : Bool) (after : SenderEnd)
        (session_after : Session)
        → parent_at net.tree.parents child ≡ Some parent
        → (t.links child).at_sender ≡ known_as name session
        → (t.links child).up (name n) ≡ label ∷ rest
        → IsAckHandledAs name (parameters_into net child) (t.links child).sender session n label
        waited after session_after
        → let next = tree_step net t (at_link child (ack_comes (name n))) in
        ((next.links child).sender ≡ after)
        × ((next.links child).at_sender ≡ known_as name session_after)
        × ((next.links child).acked
        ≡ (if waited then (t.links child).acked + 1 else (t.links child).acked)) }
{}

/// Where the end begins that made a connection, the half law breaks: an item is delivered twice.
pub fn a_maker_that_begins_breaks_the_half_law()
    ensures { let s = fold maker_step clean_link late_acts in
        ¬ HalfLaw 1 [] s.offered s.acked s.delivered }
{}

/// Every replay obeys the link law of its start: whoever begins with less under way has fewer
/// strays, and misses less.
pub fn every_replay_obeys_the_law_of_its_start()
    ensures { (p : Parameters) (start : Start) (events : List Event)
        → AreLawful p → IsLawful p start → let s = replay p (initial start) events in
        LinkLawOfStart start s.offered s.acked s.delivered }
{}

/// So after a restart of one end over connections at most 2 items can be missing, the first ones,
/// and after a restart of both only the first one; and there is no stray unless the sender's end
/// alone restarted, and then at most one.
pub fn few_are_missing_after_a_restart()
    ensures of_the_sender { (p : Parameters) (t : SessionLink) (sender : SenderEnd)
        (acts : List LinkAct) → AreLawful p → InTurn t
        → let before = sender_restarted t sender in
        let after = link_run p (counted_anew before) acts in
        LinkLawWithin 1 2 (map (λ f. f.item) (line_of before).frames) after.offered after.acked
        after.delivered }
    ensures of_the_receiver { (p : Parameters) (t : SessionLink) (receiver : ReceiverEnd)
        (acts : List LinkAct) → AreLawful p → InTurn t
        → let after = link_run p (counted_anew (receiver_restarted t receiver)) acts in
        LinkLawWithin 0 2 [] after.offered after.acked after.delivered }
    ensures of_both { (p : Parameters) (t : SessionLink) (sender : SenderEnd)
        (receiver : ReceiverEnd) (acts : List LinkAct) → AreLawful p → InTurn t
        → let before = receiver_restarted (sender_restarted t sender) receiver in
        let after = link_run p (counted_anew before) acts in
        LinkLawWithin 0 1 [] after.offered after.acked after.delivered }
{}
