//! The command `random`: the job that it writes.

ghost use Rattle.std.specs.Prelude.{◌≡◌, ◌≢◌, Some, Err};
ghost use Rattle.std.specs.Prelude.{IfErr, OnOk};
ghost use Rattle.std.specs.Io.KnownBytes.{Appends, Keeps};
ghost use Rattle.rignolda_commands.specs.Commands.{IsFaultOf, Random};
ghost use Rattle.rignolda_make.specs.DrawnTexts.{drawn_text};
ghost use Rattle.rignolda_make.specs.Options.{options_fault};
ghost use Rattle.rignolda_make.specs.RandomJobs.{IsRandomText};

use crate::fault::CommandFault;
use rignolda_make::{DrawOptions, OptionsFault, RandomFault, random_text};
use stab_task::{CliFault, write_text};
use std::alloc::Global;
use std::io::Write;

/// Writes a random job by these options: it is read as a job of as many nodes, items, turns and
/// steps as they say, which `stab tree` replays to its end.
pub fn act_random<W: Write>(
    alloc: Global,
    options: &DrawOptions,
    writer: &mut W,
) -> Result<(), CommandFault>
    ensures written { OnOk result (IsRandomText options.now (drawn_text options.now)
        × Appends (W.contents writer.old) (W.contents writer.new) (drawn_text options.now)) }
    ensures unlike { result ≡ Err (CommandFault.Draw RandomFault.Unlike)
        → ¬ IsRandomText options.now (drawn_text options.now) }
    ensures refused { (fault : OptionsFault)
        → result ≡ Err (CommandFault.Draw (RandomFault.Options fault))
        → options_fault options.now ≡ Some fault }
    ensures first { (fault : OptionsFault) → options_fault options.now ≡ Some fault
        → result ≡ Err (CommandFault.Draw (RandomFault.Options fault)) }
    ensures among { IfErr result (IsFaultOf Random) }
    ensures nothing { IfErr result (λ fault. fault ≢ CommandFault.Job CliFault.Write
        → Keeps (W.contents writer.old) (W.contents writer.new)) }
{
    let text = random_text(alloc, options).map_err(CommandFault::Draw)?;
    write_text(writer, &text)?;
    Ok(())
}
