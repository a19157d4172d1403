//! Settings that are pushed down a tree: the table that a node has applied is the root's.
//!
//! What users push is a table of keys and values, published again and again as it changes.
//! Contracts know how an item is read as settings, a list of published items, and the places of
//! those that a node received; they know no tree, link or vector. The layer above uses one fact: a
//! node that has received all of a refresh ([`laws`]), which was published after the first items
//! that may be missing, has the root's table as it was when the last item that the node has was
//! published. So a wrong value, whoever set it, lasts no longer than to the next refresh.
#![tactic(auto)]

pub mod examples;
pub mod laws;
