ghost use Rattle.std.specs.Prelude.{◌≡◌, ◌≢◌, ◌⊎◌, ℕ, List, None, IfErr, IfSome, OnOk, option_map};
ghost use Rattle.std.specs.Prelude.{string_bytes};
ghost use Rattle.std.specs.Io.KnownBytes.{Appends, Keeps};
ghost use Rattle.std.specs.IoError.{error_kind};
ghost use Rattle.stab_task.specs.Answers.{IsAnswer, IsFault, IsTaskFault};
ghost use Rattle.stab_task.specs.Hosts.{bytes_of};

use crate::answer::act;
use crate::command::Task;
use crate::fault::CliFault;
use crate::host::Host;
use std::alloc::Global;
use std::io::{self, ErrorKind, Write};
use std::rt::Env;
use std::sync::Wait;
use std::thread::Threads;
use std::time::Clock;

/// The words of the command line, the program's name first. A word that is no text is a refused
/// command line.
pub fn words<R: Env + AllocGlobal>(rt: &R, alloc: Global) -> Result<Vec<String>, CliFault>
    ensures fault { IfErr result (λ fault.
        (fault ≡ CliFault.Memory) ⊎ (fault ≡ CliFault.CommandLine)) }
{
    let args = match std::env::args(rt) {
        Ok(args) => args,
        Err(error) => return Err(fault_of(&error, CliFault::CommandLine)),
    };
    let mut words = Vec::new(alloc);
    for word in args {
        words.push(word)?;
    }
    Ok(words)
}

/// Does a task with its file, or with the standard input of the host where it has none.
pub fn perform<T: Threads + Wait + Clock + Send + Sync, H: Host, W: Write>(
    rt: &T,
    alloc: Global,
    host: &H,
    task: Task,
    path: Option<String>,
    writer: &mut W,
) -> Result<(), CliFault>
    // Where the host tells the bytes that are named, what is written is their answer, and another
    // fault than that of opening the file is one of these bytes.
    ensures answer { OnOk result (IfSome
        (bytes_of (H.standard_bytes host.now) (H.file_bytes host.now) (option_map string_bytes path))
        (λ input. (text : List ℕ) × IsAnswer task input text
        × Appends (W.contents writer.old) (W.contents writer.new) text)) }
    ensures bytes_fault { IfErr result (λ fault. IfSome
        (bytes_of (H.standard_bytes host.now) (H.file_bytes host.now) (option_map string_bytes path))
        (λ input. fault ≢ CliFault.Open → IsFault task input fault)) }
    ensures nothing { IfErr result (λ fault.
        fault ≢ CliFault.Write → Keeps (W.contents writer.old) (W.contents writer.new)) }
    ensures opened { path ≡ None → IfErr result (λ fault. fault ≢ CliFault.Open) }
    ensures named { IfErr result (λ fault. fault ≢ CliFault.CommandLine) }

    // Of a host that tells nothing, another fault than that is one that the task has.
    ensures fault { IfErr result (λ fault.
        (fault ≡ CliFault.Open) ⊎ IsTaskFault task None fault) }
{
    match &path {
        None => act(rt, alloc, task, &mut host.standard(), writer),
        Some(path) => perform_file(rt, alloc, host, task, path, writer),
    }
}

/// Does a task with the file of this name.
fn perform_file<T: Threads + Wait + Clock + Send + Sync, H: Host, W: Write>(
    rt: &T,
    alloc: Global,
    host: &H,
    task: Task,
    path: &str,
    writer: &mut W,
) -> Result<(), CliFault>
    ensures answer { OnOk result (IfSome (H.file_bytes host.now path.now)
        (λ input. (text : List ℕ) × IsAnswer task input text
        × Appends (W.contents writer.old) (W.contents writer.new) text)) }
    ensures bytes_fault { IfErr result (λ fault. IfSome (H.file_bytes host.now path.now)
        (λ input. fault ≢ CliFault.Open → IsFault task input fault)) }
    ensures nothing { IfErr result (λ fault.
        fault ≢ CliFault.Write → Keeps (W.contents writer.old) (W.contents writer.new)) }
    ensures named { IfErr result (λ fault. fault ≢ CliFault.CommandLine) }
    ensures fault { IfErr result (λ fault.
        (fault ≡ CliFault.Open) ⊎ IsTaskFault task None fault) }
{
    match host.open(path) {
        Ok(mut file) => act(rt, alloc, task, &mut file, writer),
        Err(error) => Err(fault_of(&error, CliFault::Open)),
    }
}

/// The fault of an error of the system: memory was refused, or another fault that the caller names.
fn fault_of(error: &io::Error, other: CliFault) -> CliFault
    ensures memory { error_kind error.now ≡ ErrorKind.OutOfMemory → result ≡ CliFault.Memory }
    ensures other { error_kind error.now ≢ ErrorKind.OutOfMemory → result ≡ other }
{
    if error.kind() == ErrorKind::OutOfMemory {
        CliFault::Memory
    } else {
        other
    }
}
