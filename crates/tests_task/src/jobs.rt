//! The scripts and the turns of a job, and the places of its links.

use stab_job::{Job, JobFault, read_job_by_value};
use stab_script::{HalfScript, InAct, OutAct, Script};
use stab_tree::NodeId;
use std::alloc::{AllocError, Global};

/// The acts of a script: for frames out, frames in, acknowledgements out and acknowledgements in.
type Acts = (
    &'static [OutAct],
    &'static [InAct],
    &'static [OutAct],
    &'static [InAct],
);

/// A script without acts.
const NONE: Acts = (&[], &[], &[], &[]);

/// Whether a script has these acts.
fn has_acts(script: &Script, acts: Acts) -> bool {
    script.frames_out() == acts.0
        && script.frames_in() == acts.1
        && script.acks_out() == acts.2
        && script.acks_in() == acts.3
}

/// Whether the next acts of a half are these, each as it is seen and then as it is taken.
fn is_half(half: &mut HalfScript, outs: &[OutAct], ins: &[InAct]) -> bool {
    let mut is_so = true;
    for &act in outs {
        is_so &= half.peek_out() == act;
        is_so &= half.next_out() == act;
    }
    for &act in ins {
        is_so &= half.peek_in() == act;
        is_so &= half.next_in() == act;
    }
    is_so
}

/// Whether the next acts of a half are these, and then it passes and takes.
fn ends_so(half: &mut HalfScript, outs: &[OutAct], ins: &[InAct]) -> bool {
    is_half(half, outs, ins) && is_half(half, &[OutAct::Pass; 2], &[InAct::Take; 2])
}

/// Whether a script has these acts, a copy of it has them too, and each half of that its own.
fn is_script(alloc: Global, script: &Script, acts: Acts) -> Result<bool, AllocError> {
    let copy = script.copy(alloc)?;
    let is_so = has_acts(script, acts) && has_acts(&copy, acts);
    let (mut send, mut recv) = copy.split();
    let is_sent = ends_so(&mut send, acts.0, acts.3);
    Ok(is_so && is_sent && ends_so(&mut recv, acts.2, acts.1))
}

/// Whether a job has two scripts, of these acts.
fn has_scripts(alloc: Global, job: &Job, first: Acts, second: Acts) -> Result<bool, AllocError> {
    match job.scripts() {
        [one, two] => Ok(is_script(alloc, one, first)? && is_script(alloc, two, second)?),
        _ => Ok(false),
    }
}

/// A chain of three nodes, up to the members that a test adds.
const CHAIN_WITH: &str = r#"{"capacity":1,"labels":4,"items":[10],
    "tree":[{"name":"r"},{"name":"a","parent":"r"},{"name":"b","parent":"a"}],"#;

/// The job of that chain and these members.
fn chain(alloc: Global, members: &str) -> Result<Job, JobFault> {
    let text = [CHAIN_WITH, members, "}"].concat(alloc)?;
    read_job_by_value(alloc, text.as_bytes())
}

/// Whether a chain with these members has as many turns, and these scripts.
fn is_read(
    alloc: Global,
    members: &str,
    turns: u32,
    first: Acts,
    second: Acts,
) -> Result<bool, JobFault> {
    let job = chain(alloc, members)?;
    Ok(job.turns() == turns && has_scripts(alloc, &job, first, second)?)
}

#[test]
fn reads_the_scripts_and_the_turns(rt: HostRuntime) -> Result<(), JobFault> {
    use InAct::{Keep, Take};
    use OutAct::{Drop, Evict, Pass};

    const ROWS: &[(&str, u32, Acts, Acts)] = &[
        (r#""more":null"#, 100_000, NONE, NONE),
        (r#""turns":1"#, 1, NONE, NONE),
        (
            r#""scripts":[{"frames_out":"PDE","acks_in":"TK"},null],"turns":1000000"#,
            1_000_000,
            (&[Pass, Drop, Evict], &[], &[], &[Take, Keep]),
            NONE,
        ),
        (
            r#""scripts":[{"frames_in":"K","acks_out":"E","length":null},
            {"frames_out":"DPE","acks_out":"E","acks_in":"K"}]"#,
            100_000,
            (&[], &[Keep], &[Evict], &[]),
            (&[Drop, Pass, Evict], &[], &[Evict], &[Keep]),
        ),
        (
            r#""scripts":[{"seed":[42,54],"length":6,"loss":100,"repeat":0,"frames_out":7},
            {"seed":[42,54],"length":1,"loss":800,"repeat":100}]"#,
            100_000,
            (
                &[Pass, Drop, Pass, Pass, Pass, Pass],
                &[Take, Take, Take, Take, Take, Take],
                &[Pass, Pass, Pass, Pass, Pass, Pass],
                &[Take, Take, Take, Take, Take, Take],
            ),
            (&[Drop], &[Keep], &[Pass], &[Take]),
        ),
        (
            r#""scripts":[{"seed":[42,54],"length":0,"loss":0,"repeat":0},
            {"seed":[42,54],"length":2,"loss":1000,"repeat":1000}]"#,
            100_000,
            NONE,
            (&[Drop, Drop], &[Keep, Keep], &[Drop, Drop], &[Keep, Keep]),
        ),
    ];
    for &(members, turns, first, second) in ROWS {
        let is_so = is_read(rt.alloc(), members, turns, first, second)?;
        assert!(rt; is_so, "{members}");
    }
    Ok(())
}

/// Whether the first script of a job has 100,000 acts for frames out, and keeps the last one of its
/// acknowledgements in.
fn is_long(job: &Job) -> bool {
    match job.scripts().first() {
        Some(script) => {
            script.frames_out().len() == 100_000
                && script.acks_in().last().copied() == Some(InAct::Keep)
        }
        None => false,
    }
}

/// Whether that holds of a chain whose first script has these letters.
fn reads_letters(alloc: Global, outs: &str, ins: &str) -> Result<bool, JobFault> {
    let text = [
        CHAIN_WITH,
        r#""scripts":[{"frames_out":""#,
        outs,
        r#"","acks_in":""#,
        ins,
        r#""},null]}"#,
    ]
    .concat(alloc)?;
    Ok(is_long(&read_job_by_value(alloc, text.as_bytes())?))
}

#[test]
fn reads_100000_letters(rt: HostRuntime) -> Result<(), JobFault> {
    let outs = "E".repeat(rt.alloc(), 100_000)?;
    let ins = "K".repeat(rt.alloc(), 100_000)?;
    let is_read = reads_letters(rt.alloc(), &outs, &ins)?;
    assert!(rt; is_read);
    Ok(())
}

/// The place of the link into the node at this place of a tree, whose root is between its children.
fn link_place(alloc: Global, node: u16) -> Result<Option<u16>, JobFault> {
    let text = r#"{"capacity":1,"labels":4,"items":[],
        "tree":[{"name":"b","parent":"a"},{"name":"r"},{"name":"a","parent":"r"}]}"#;
    let job = read_job_by_value(alloc, text.as_bytes())?;
    Ok(job.tree().link_place(NodeId::new(node)))
}

#[test]
fn no_link_leads_to_a_node_that_is_not_there(rt: HostRuntime) -> Result<(), JobFault> {
    let found = (link_place(rt.alloc(), 3)?, link_place(rt.alloc(), 65535)?);
    assert!(rt; found == (None, None));
    Ok(())
}
