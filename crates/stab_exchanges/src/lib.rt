//! What comes of exchanges over connections, whatever lies between them.
//!
//! Contracts see a link over connections that are made again and again, and any acts of its ends
//! and of the network; and a whole tree of such links. `specs/Exchanges.antt` says which exchanges
//! are completed among them. The layer above uses one fact: each acknowledges an item, and is a
//! reading round of the link, so that the laws of convergence hold of connections ([`laws`]).
#![tactic(auto)]

pub mod examples;
pub mod laws;
