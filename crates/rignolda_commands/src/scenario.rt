//! The command `scenario`: what the steps of a scenario come to at each node.

ghost use Rattle.std.specs.Prelude.{◌≡◌, ◌≢◌, ℕ, List, string_bytes, IfErr, IfOk, IfSome, OnOk};
ghost use Rattle.std.specs.Io.KnownBytes.{Appends, Keeps};
ghost use Rattle.rignolda_commands.specs.Commands.{IsFaultOf, Steps};
ghost use Rattle.rignolda_commands.specs.Told.{IsTold, IsUntold};
ghost use Rattle.rignolda_scenario.specs.Counts.{IsUnrun};
ghost use Rattle.rignolda_scenario.specs.Scenarios.{scenario};

use crate::fault::CommandFault;
use rignolda_scenario::{read_scenario, scenario_text};
use stab_task::{CliFault, load, write_text};
use std::alloc::Global;
use std::io::{Read, Write};

/// Reads a scenario, and writes what its steps come to at each node, counted from the last fault on
/// the node's path. Where there is no such scenario, the fault says which step is wrong, or is that
/// of `stab tree`; and nothing is written unless it is `Write`.
pub fn act_scenario<R: Read, W: Write>(
    alloc: Global,
    reader: &mut R,
    writer: &mut W,
) -> Result<(), CommandFault>
    ensures written { OnOk result (IfSome (R.remaining reader.old) (λ input.
        (text : List ℕ) × IsTold input text
        × Appends (W.contents writer.old) (W.contents writer.new) text)) }
    ensures fault { IfErr result (λ fault. fault ≢ CommandFault.Job CliFault.Write
        → IfSome (R.remaining reader.old) (λ input. IsUntold input fault)) }
    ensures among { IfErr result (IsFaultOf Steps) }
    ensures nothing { IfErr result (λ fault. fault ≢ CommandFault.Job CliFault.Write
        → Keeps (W.contents writer.old) (W.contents writer.new)) }
{
    let text = told_input(alloc, reader)?;
    write_text(writer, &text)?;
    Ok(())
}

/// The text of the scenario that the reader gives.
#[tactic(auto, using(crate::proofs::Told::unloaded, crate::proofs::Among::of_steps))]
fn told_input<R: Read>(alloc: Global, reader: &mut R) -> Result<String, CommandFault>
    ensures told { IfOk result (λ text.
        IfSome (R.remaining reader.old) (λ input. IsTold input (string_bytes text))) }
    ensures fault { IfErr result (λ fault.
        IfSome (R.remaining reader.old) (λ input. IsUntold input fault)) }
    ensures among { IfErr result (IsFaultOf Steps) }
{
    let bytes = load(alloc, reader)?;
    let text = told_bytes(alloc, bytes)?;
    Ok(text)
}

/// The text of the scenario that these bytes are. What was read is freed before what is counted
/// from it takes memory.
#[tactic(auto, using(crate::proofs::Told::unread, crate::proofs::Told::unrun))]
fn told_bytes(alloc: Global, bytes: Vec<u8>) -> Result<String, CommandFault>
    ensures told { IfOk result (λ text. IsTold bytes.items (string_bytes text)) }
    ensures fault { IfErr result (λ fault. IsUntold bytes.items fault) }
{
    let scenario = read_scenario(alloc, &bytes)?;
    drop(bytes);
    let text = scenario_text(alloc, scenario)?;
    Ok(text)
}
