//! A text that is written in blocks while it is made, so that little of it is held.

ghost use Rattle.std.specs.Prelude.{◌≡◌, string_bytes, IfErr, OnOk};
ghost use Rattle.rignolda_draw.specs.Written.{Written};

use std::alloc::AllocError;
use std::io::Write;

/// A text of this many bytes is written, and emptied.
const BLOCK: usize = 65_536;

/// Why a run that was replayed before is not drawn to its end.
#[derive(Clone, Copy, Debug, PartialEq, Eq)]
pub enum OutputFault {
    /// Memory was refused.
    Memory,
    /// Writing failed.
    Write,
}

impl From<AllocError> for OutputFault {
    ghost use Rattle.std.specs.Prelude.{◌≡◌};
    ghost use Rattle.rignolda_draw.specs.declared.output.OutputFault.TheVariants.{Memory};

    ghost from_gives = { λ _ fault. fault ≡ Memory };

    fn from(_refused: AllocError) -> OutputFault {
        OutputFault::Memory
    }
}

/// Writes a text that has grown to a block, and empties it. A shorter one is kept.
#[tactic(auto, using(crate::proofs::Writing::kept_whole, crate::proofs::Writing::written_whole))]
pub(crate) fn write_block<W: Write>(writer: &mut W, text: &mut String) -> Result<(), OutputFault>
    ensures written { OnOk result (Written (W.contents writer.old) (W.contents writer.new)
        (string_bytes text.new) (string_bytes text.old)) }
    ensures fault { IfErr result (λ fault. fault ≡ OutputFault.Write) }
{
    if text.len() < BLOCK {
        return Ok(());
    }
    match writer.write_all(text.as_bytes()) {
        Ok(()) => {
            text.clear();
            Ok(())
        }
        Err(_) => Err(OutputFault::Write),
    }
}
