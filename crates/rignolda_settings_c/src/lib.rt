//! What agents do with settings, for C and whatever calls C: bodies of settings, as bytes, which of
//! them an agent takes, what waits there to be applied, and what a root publishes; and the messages
//! in which bodies travel, as bytes. `include/rignolda_settings.h` declares what is exported here.
//!
//! No call reads, writes, waits, takes memory or looks at a clock, and none has a `requires`. What
//! a call refuses it leaves as it was, and it then returns 0, but for the check of a body and the
//! reader of messages, which return 0 where there is one, and the reader of a refusal.
#![tactic(auto)]

mod bodies;
mod buffers;
mod message_buffers;
mod messages;
mod publisher;
mod room;
mod taker;
mod waits;
mod ways;
mod words;

pub use bodies::{BodyEntry, BodyHead, rignolda_body_check, rignolda_body_read, rignolda_checksum};
pub use buffers::{rignolda_body_begin, rignolda_body_set, rignolda_body_unset};
pub use message_buffers::{
    rignolda_message_write, rignolda_refusal_write, rignolda_versions_range,
};
pub use messages::{
    WireMessage, rignolda_is_name, rignolda_message_read, rignolda_refusal_read,
    rignolda_versions_read,
};
pub use publisher::{
    NextBody, rignolda_publisher_begin_round, rignolda_publisher_go_above, rignolda_publisher_hold,
    rignolda_publisher_init, rignolda_publisher_is_in_a_round, rignolda_publisher_next,
    rignolda_publisher_publish, rignolda_publisher_waits,
};
pub use room::{rignolda_room_change, rignolda_room_fits};
pub use taker::{
    TakerHeard, rignolda_may_mark, rignolda_number_further, rignolda_number_is_newer,
    rignolda_number_next, rignolda_taker_hears, rignolda_taker_init, rignolda_taker_misses,
};
pub use waits::{rignolda_waits_on_change, rignolda_waits_on_left_out};
pub use ways::{WayAsked, rignolda_way_answer, rignolda_way_over, rignolda_way_unfit};
pub use words::{
    rignolda_frame_head, rignolda_word_read, rignolda_word_reports, rignolda_word_write,
};
