//! The jobs that the calls read and do.

/// The worst start of capacity one and its events.
pub const WORST_START: &str =
    r#"{"capacity":1,"labels":4,"start":{"frames":[[2,99]],"acks":[0],"send":0,"recv":1},
        "events":[["offer",10],"recv_ack","send_ack",["offer",11],"recv_ack","recv_frame",
          "send_ack",["offer",12],"recv_ack",["offer",13],"send_frame","recv_frame"]}"#;

/// A chain in which each link begins with a stray and an acknowledgement of the first item; the
/// inner node begins with two strays.
pub const STRAY_CHAIN: &str =
    r#"{"version":2,"h":2,"openings":[[],[50,51],[]],"capacity":1,"labels":4,
        "tree":[{"name":"r"},{"name":"a","parent":"r"},{"name":"b","parent":"a"}],"items":[],
        "starts":[{"frames":[[2,99]],"acks":[0],"send":0,"recv":1},
          {"frames":[[2,98]],"acks":[0],"send":0,"recv":1}]}"#;

/// A chain of three nodes, where the one between begins with two strays.
pub const CHAIN: &str =
    r#"{"version":2,"h":2,"openings":[[],[50,51],[]],"capacity":1,"labels":4,"items":[1,2,3,4,5],
        "turns":50,"tree":[{"name":"r"},{"name":"a","parent":"r"},{"name":"b","parent":"a"}]}"#;

/// The same chain, whose second link is wider than the first.
pub const WIDER_CHAIN: &str =
    r#"{"version":2,"h":2,"openings":[[],[50,51],[]],"capacity":1,"labels":4,"items":[1,2,3,4,5],
        "turns":50,"links":[null,{"capacity":3,"labels":8}],
        "tree":[{"name":"r"},{"name":"a","parent":"r"},{"name":"b","parent":"a"}]}"#;
