ghost use Rattle.std.specs.Prelude.{◌≡◌, ◌≢◌, ◌⊎◌, ℕ, List, string_bytes};
ghost use Rattle.std.specs.Prelude.{IfErr, IfOk, IfSome, OnOk};
ghost use Rattle.std.specs.Io.KnownBytes.{Appends, Keeps};
ghost use Rattle.rignolda_commands.specs.Explained.{IsReadIfClean};
ghost use Rattle.stab_task.specs.Loading.{IsUnloaded};
ghost use Rattle.rignolda_make.specs.WorstTexts.{IsWorstText};

use rignolda_explain::{explain, explanation_text};
use rignolda_make::worst_text;
use stab_frames::Params;
use stab_task::{CliFault, load, write_text};
use std::alloc::{AllocError, Global};
use std::io::{Read, Write};

/// Writes the worst link job of these parameters: the reader of link jobs reads it as this job.
pub fn act_worst<W: Write>(alloc: Global, params: Params, writer: &mut W) -> Result<(), CliFault>
    ensures written { OnOk result ((text : List ℕ) × IsWorstText params text
        × Appends (W.contents writer.old) (W.contents writer.new) text) }
    ensures fault { IfErr result (λ fault. (fault ≡ CliFault.Write) ⊎ (fault ≡ CliFault.Memory)) }
    ensures nothing { IfErr result (λ fault.
        fault ≢ CliFault.Write → Keeps (W.contents writer.old) (W.contents writer.new)) }
{
    let text = worst_text(alloc, params)?;
    write_text(writer, &text)?;
    Ok(())
}

/// Reads a job, and writes what is wrong with it and where. It answers true where nothing is, which
/// is so only of a job that the reader of its kind accepts.
pub fn act_explain<R: Read, W: Write>(
    alloc: Global,
    reader: &mut R,
    writer: &mut W,
) -> Result<bool, CliFault>
    ensures accepted { IfOk result (λ is_clean.
        IfSome (R.remaining reader.old) (IsReadIfClean is_clean)) }
    // There is no other fault than that of loading the job, or of writing: refused memory is one of
    // either.
    ensures fault { IfErr result (λ fault.
        (fault ≡ CliFault.Write) ⊎ IsUnloaded (R.remaining reader.old) fault) }
    ensures nothing { IfErr result (λ fault.
        fault ≢ CliFault.Write → Keeps (W.contents writer.old) (W.contents writer.new)) }
{
    let (text, is_clean) = explain_input(alloc, reader)?;
    write_text(writer, &text)?;
    Ok(is_clean)
}

/// The text of the explanation of what the reader gives, and whether nothing is wrong with it.
fn explain_input<R: Read>(alloc: Global, reader: &mut R) -> Result<(String, bool), CliFault>
    ensures accepted { IfOk result (λ both.
        IfSome (R.remaining reader.old) (IsReadIfClean both.1)) }
    ensures fault { IfErr result (IsUnloaded (R.remaining reader.old)) }
{
    let bytes = load(alloc, reader)?;
    let explained = explain_bytes(alloc, &bytes)?;
    Ok(explained)
}

/// The text of the explanation of these bytes, and whether nothing is wrong with them.
fn explain_bytes(alloc: Global, bytes: &[u8]) -> Result<(String, bool), AllocError>
    ensures accepted { IfOk result (λ both. IsReadIfClean both.1 bytes.now) }
{
    let explanation = explain(alloc, None, bytes)?;
    let text = explanation_text(alloc, &explanation)?;
    let is_clean = explanation.is_clean();
    Ok((text, is_clean))
}
