//! What an end of a link is, whatever runs the link.
//!
//! Each end keeps an account of what it did by its own calls, and the two traits [`SendSide`] and
//! [`RecvSide`] say how each call changes it. The layers above use one fact: an end whose calls
//! keep that promise can be handed to any node, over a lock, two atomic words, or a transport of
//! one's own. [`plain`] has two ends without a link, to start from.
#![tactic(auto)]

mod account;
pub mod plain;
mod seen;
mod settled;
mod side;

pub use account::{RecvAccount, SendAccount};
pub use seen::FrameSeen;
pub use settled::Settled;
pub use side::{RecvSide, SendSide};
