//! Examples of the definitions, worked out: a law with an empty body.

ghost use Rattle.std.specs.Prelude.{◌≡◌, [], ◌∷◌, None, Some, false, true};
ghost use Rattle.stab_core.specs.CounterExamples.{four_labels};
ghost use Rattle.stab_core.specs.LinkSetup.{setup};
ghost use Rattle.stab_core.specs.Replay.{clean_start};
ghost use Rattle.stab_exchanges.specs.Exchanges.{completed_exchanges, sending};
ghost use Rattle.stab_exchanges.specs.TreeExchanges.{exchanges_at, is_at_rest, tree_of_links};
ghost use Rattle.stab_line.specs.Ends.{new_receiver, new_sender, offered_to};
ghost use Rattle.stab_line.specs.Passes.{pass};
ghost use Rattle.stab_line.specs.Progress.{connects, exchange};
ghost use Rattle.stab_line.specs.SessionLink.{SessionLink, ack_comes, ack_sent, frame_comes};
ghost use Rattle.stab_line.specs.SessionLink.{frame_sent, happens, item_offered, link_run};
ghost use Rattle.stab_line.specs.SessionLink.{no_connection, receiver_accepts, receiver_leaves};
ghost use Rattle.stab_line.specs.SessionLink.{sender_makes, stranger_makes};
ghost use Rattle.stab_line.specs.SessionTree.{SessionTree, tree_run};
ghost use Rattle.stab_treecore.specs.Network.{Network};
ghost use Rattle.stab_treecore.specs.WholeTree.{received};

/// The receiver's end makes connection 4, and the sender's end accepts it, which holds item 7.
pub fn worked_out()
    // One exchange, also with an offer and another connection between; none where the frame is
    // dropped, or its answer; and none where the answer of another connection comes.
    ensures exchanges { let p = four_labels in
        let ends = no_connection (offered_to (new_sender 0) 7) (new_receiver 1) in
        let t : SessionLink = link_run p ends (connects false 4) in
        (completed_exchanges p t (exchange 4) ≡ 1)
        × (completed_exchanges p t (happens frame_sent ∷ item_offered 8
        ∷ happens (stranger_makes true 5) ∷ happens (frame_comes 4) ∷ happens ack_sent
        ∷ happens (ack_comes 4) ∷ []) ≡ 1)
        × (completed_exchanges p t (happens frame_sent ∷ happens (receiver_leaves 4)
        ∷ happens (frame_comes 4) ∷ happens ack_sent ∷ happens (ack_comes 4) ∷ []) ≡ 0)
        × (completed_exchanges p t (happens frame_sent ∷ happens (frame_comes 4) ∷ happens ack_sent
        ∷ happens (sender_makes 5) ∷ happens (ack_comes 4) ∷ []) ≡ 0)
        × (completed_exchanges p t (happens frame_sent ∷ happens (frame_comes 4)
        ∷ happens (sender_makes 5) ∷ happens (receiver_accepts 5) ∷ happens ack_sent
        ∷ happens (ack_comes 5) ∷ []) ≡ 0) }
    // In the chain r, a, b, over connection 4 of each link, r publishes 7. A pass over both links
    // completes an exchange on each, and b has 7. Then both links are at rest; the one into b was
    // at rest before.
    ensures a_path { let net : Network = record {
      tree = record { names = []; parents = None ∷ Some 0 ∷ Some 1 ∷ [] };
      links = setup four_labels clean_start ∷ setup four_labels clean_start ∷ [];
      openings = record { hold = 0; lists = [] ∷ [] ∷ [] ∷ [] };
      published = 7 ∷ [];
    } in
        let ends = no_connection (new_sender 0) (new_receiver 1) in
        let t : SessionTree = record {
          published = 7 ∷ [];
          counts = λ node. 0;
          links = λ node. link_run four_labels ends (connects false 4);
        } in
        let acts = pass ((1, 4) ∷ (2, 4) ∷ []) in
        let after = tree_run net t acts in
        (exchanges_at net t 1 sending acts ≡ 1) × (exchanges_at net t 2 sending acts ≡ 1)
        × (received (tree_of_links net t) 2 ≡ [])
        × (received (tree_of_links net after) 2 ≡ 7 ∷ [])
        × (is_at_rest net t 1 ≡ false) × (is_at_rest net t 2 ≡ true)
        × (is_at_rest net after 1 ≡ true) × (is_at_rest net after 2 ≡ true) }
{}
