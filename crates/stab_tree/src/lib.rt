//! The tree of a job: which nodes there are, which node is the parent of each, and what the nodes
//! begin with.
//!
//! `read_tree` takes a JSON value apart, and answers the tree that it describes or the first check
//! that fails. A `Tree` is seen as its names and its parents' places in file order
//! (`specs/Nodes.antt`), and its type keeps that they form a tree (`specs/IsTree.antt`): one node
//! alone has no parent, and each node reaches it by parent steps, whose number is its depth.
//! A link is named by its child, and links are in the file order of their children
//! (`specs/Links.antt`). The layer above learns from `Tree::root` that its tree is one, from
//! `Openings` that those that exist fit their tree, and from `laws` what follows for depths and
//! links; `proofs/ForCallers.antt` has induction from the root, and what belongs to each link.
#![tactic(auto)]

mod entry;
pub mod examples;
mod fault;
pub mod laws;
mod name;
mod names;
mod node;
mod opening_fault;
mod openings;
mod parents;
mod read;
mod tree;

pub use fault::TreeFault;
pub use names::MAX_NODES;
pub use node::NodeId;
pub use opening_fault::OpeningFault;
pub use openings::{Openings, is_inner};
pub use read::read_tree;
pub use tree::Tree;
