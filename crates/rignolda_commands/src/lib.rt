//! What each command of the program `rignolda` reads and writes, without its command line.
//!
//! The layer above uses one fact: what is written is the answer of the command, by the definitions
//! of the layers below, or a fault says why there is none. And whatever holds of the report of a
//! run, or of the link that `stab link` prints, is enough for a judge, so that none is refused for
//! what it says ([`laws`]). [`act_judge`] answers true exactly where the logs of the job that it
//! reads obey the laws under some start, and writes that they do, or what is broken first.
#![tactic(auto)]

mod answer;
mod bounds;
mod check;
mod draw;
mod fault;
mod job;
mod judge;
mod kind;
pub mod laws;
mod random;
mod report;
mod run;
mod scenario;

pub use answer::{act_explain, act_worst};
pub use bounds::act_bounds;
pub use check::act_check;
pub use draw::act_draw;
pub use fault::CommandFault;
pub use judge::act_judge;
pub use random::act_random;
pub use scenario::act_scenario;
