//! The library for agents of one's own: a sender's half, a receiver's half, a node and a session
//! over connections as plain structs, and the words of a store, for C and whatever calls C.
//! `include/rignolda.h` declares what is exported here.
//!
//! No call reads, writes, waits, takes memory or looks at a clock, and none has a `requires`: every
//! bit pattern of a struct means a state, and each call is the step of the definitions of
//! `stab_line` from there. What a call refuses it leaves as it was, and it then returns 0.
#![tactic(auto)]

mod backlog;
mod child;
pub mod laws;
mod line;
mod node;
mod receiver;
mod sender;
mod session;
mod session_node;
mod word;

pub use backlog::{
    rignolda_child_init_at, rignolda_child_needs, rignolda_node_backlog, rignolda_node_forget,
    rignolda_node_left_behind,
};
pub use child::{Child, rignolda_child_init, rignolda_child_on_ack, rignolda_node_poll};
pub use line::{LineFrame, LinkParams, rignolda_params_check};
pub use node::{Node, rignolda_node_init, rignolda_node_on_frame, rignolda_node_publish};
pub use receiver::{
    ReceiverHalf, rignolda_receiver_ack, rignolda_receiver_close, rignolda_receiver_init,
    rignolda_receiver_is_fresh, rignolda_receiver_on_frame,
};
pub use sender::{
    SenderHalf, rignolda_sender_close, rignolda_sender_frame, rignolda_sender_init,
    rignolda_sender_offer, rignolda_sender_on_ack,
};
pub use session::{
    Session, rignolda_session_accepted, rignolda_session_ack, rignolda_session_ended,
    rignolda_session_has, rignolda_session_init, rignolda_session_made, rignolda_session_on_ack,
    rignolda_session_on_frame, rignolda_session_send,
};
pub use session_node::{
    rignolda_session_child_on_ack, rignolda_session_node_on_frame, rignolda_session_poll,
};
pub use word::{
    rignolda_word_frame, rignolda_word_label, rignolda_word_of_frame, rignolda_word_of_label,
};
