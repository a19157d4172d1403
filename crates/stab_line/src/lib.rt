//! What a line is and what the laws say of it, whatever the messages go over: queues, connections
//! that are made again, such as TCP, or two registers of a store.
//!
//! Contracts know the two ends of a link, each by itself, a line between them that is first in
//! first out, and whole trees of nodes with such lines; they know no struct and no call. Each kind
//! of line has its own steps, and a law that they are steps of a line, so that the link law and the
//! tree law hold of it. The layer above uses one fact: what the calls of an end do is a step of
//! these definitions (`specs/Acts.antt`, `specs/SessionActs.antt`), and the laws are about every
//! list of such steps ([`laws`], [`session_laws`], [`register_laws`]), or about what comes of some
//! of them ([`progress_laws`]).
#![tactic(auto)]

pub mod laws;
pub mod progress_laws;
pub mod register_laws;
pub mod session_laws;
