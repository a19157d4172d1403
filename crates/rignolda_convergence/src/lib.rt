//! A tree of agents as a whole: what the root publishes, what links hand on, and what agents apply.
//!
//! Contracts see the tree of links and lists, and beside each node what its agent remembers; they
//! see no body as bytes, file, connection or clock. The laws below this crate speak of lists of a
//! tree, or of an agent that hears a list. Here they are one: from any state of links, lists and
//! agents, once faults end on an agent's path, its settings become those of the root
//! ([`laws::agents_come_to_the_roots_settings`]). Its numbers may be any, as long as the root hears
//! what it reports ([`report_laws::agents_come_to_the_roots_settings_by_reports`]).
#![tactic(auto)]

pub mod examples;
pub mod laws;
pub mod report_examples;
pub mod report_laws;
