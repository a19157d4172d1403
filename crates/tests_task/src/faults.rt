//! Texts of faults, and their statuses, where no command line shows them.

use stab_core::StartFault;
use stab_job::JobFault;
use stab_node::NodeFault;
use stab_run::RunFault;
use stab_script::{LinkJobFault, PartFault, ScriptFault};
use stab_task::CliFault;
use stab_tree::{NodeId, TreeFault};
use stab_treecore::{TreeStartFault, TreeStepFault};
use std::alloc::AllocError;

#[test]
fn reports_refused_memory_as_that_alone(rt: HostRuntime) {
    assert!(rt;
        JobFault::from(TreeFault::Memory) == JobFault::Memory
            && JobFault::from(ScriptFault::Memory) == JobFault::Memory
            && JobFault::from(TreeFault::Cycle) == JobFault::Tree(TreeFault::Cycle)
            && JobFault::from(ScriptFault::TooLong) == JobFault::Script(ScriptFault::TooLong)
    );
}

/// Refused memory is printed with no prefix, also where the layers above report their own.
#[test]
fn prints_each_fault_with_its_status(rt: HostRuntime) -> Result<(), AllocError> {
    const MEMORY: &str = "out of memory";
    let nobody = NodeId::new(1);
    let faults = [
        (CliFault::Memory, 3, MEMORY),
        (CliFault::LinkJob(LinkJobFault::Memory), 3, MEMORY),
        (CliFault::Job(JobFault::Memory), 3, MEMORY),
        (CliFault::Start(StartFault::Memory), 3, MEMORY),
        (
            CliFault::Tree(TreeStartFault::Start(StartFault::Memory)),
            3,
            MEMORY,
        ),
        (
            CliFault::Tree(TreeStartFault::Step(TreeStepFault::Memory)),
            3,
            MEMORY,
        ),
        (CliFault::Run(RunFault::Memory), 3, MEMORY),
        (
            CliFault::Run(RunFault::Start(nobody, StartFault::Memory)),
            3,
            MEMORY,
        ),
        (
            CliFault::Run(RunFault::Node(nobody, NodeFault::Memory)),
            3,
            MEMORY,
        ),
        (
            CliFault::Run(RunFault::Thread(nobody)),
            3,
            "run: a worker could not be started",
        ),
        (
            CliFault::Run(RunFault::Node(nobody, NodeFault::Gate)),
            3,
            "run: a gate refused",
        ),
        (CliFault::Read, 1, "file: cannot be read"),
        (CliFault::TooLong, 1, "file: too long"),
        (CliFault::Write, 3, "output: cannot be written"),
    ];
    for &(fault, status, text) in &faults {
        let its_text = fault.to_string(rt.alloc())?;
        assert!(rt;
            fault.status() == status && its_text.as_str() == text,
            "{its_text}"
        );
    }
    Ok(())
}

#[test]
fn prints_out_of_memory_where_no_task_reports_it(rt: HostRuntime) -> Result<(), AllocError> {
    let faults = [
        JobFault::Tree(TreeFault::Memory),
        JobFault::Script(ScriptFault::Memory),
    ];
    for &fault in &faults {
        let text = fault.to_string(rt.alloc())?;
        assert!(rt; text.as_str() == "out of memory", "{text}");
    }
    let text = PartFault::Memory.to_string(rt.alloc())?;
    assert!(rt; text.as_str() == "out of memory", "{text}");
    Ok(())
}
