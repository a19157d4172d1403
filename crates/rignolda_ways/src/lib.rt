//! The choice of a parent by agents that learn late what others say: the decision of each, and
//! where that leads.
//!
//! Each agent says a way: what it costs to come to a root, and the names from there to itself. In
//! a turn it learns what one candidate said at some time, and takes that way, keeps what it has,
//! or leaves its parent ([`Asked::answer`]). Contracts know no message: what one says may come
//! late, out of order, twice or never. They know rounds, in which what was said before has come or
//! is lost, and then each agent learns of each of its candidates.
//!
//! The layer above uses the decision, which is that of the definition for any bits, and four
//! [`laws`] from any state: nearness that is false goes, by one in each round; after more rounds
//! than its distance an agent has a parent on a shortest path; it keeps that parent; and no ring of
//! parents stays through as many rounds as it has agents.
#![tactic(auto)]

mod asked;
pub mod examples;
pub mod laws;

pub use asked::{Answer, Asked, CIRCLE, NAMES, NONE, Reason};
