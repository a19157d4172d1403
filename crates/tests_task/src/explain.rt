//! The explanation of a link job as a job of a tree, which no command line asks for.

use rignolda_explain::{Kind, explain, explanation_text};
use std::alloc::{AllocError, Global};

/// A link job.
const LINK_JOB: &str = r#"{"capacity":1,"labels":4,
"start":{"frames":[[2,99]],"acks":[0],"send":0,"recv":1},
"events":[["offer",10],"recv_ack"]}"#;

/// The text of the explanation of these bytes, read as a job of a tree.
fn text_of(alloc: Global, bytes: &[u8]) -> Result<String, AllocError> {
    let explanation = explain(alloc, Some(Kind::Job), bytes)?;
    explanation_text(alloc, &explanation)
}

#[test]
fn says_what_a_link_job_lacks_as_a_job(rt: HostRuntime) -> Result<(), AllocError> {
    let text = text_of(rt.alloc(), LINK_JOB.as_bytes())?;
    let want = "tree: missing; a job has a tree, a list of nodes\n\
                items: missing; the items are a list of at most 10000 items, \
                which the root publishes\n\
                events: ignored, since a job has no such member\n\
                start: ignored, since a job has no such member; did you mean \"starts\"?\n\
                stab tree: job: wrong shape\n";
    assert!(rt; text.as_str() == want, "{text}");
    Ok(())
}
