ghost use Rattle.std.specs.Prelude.{◌≡◌, ◌≢◌, ◌+◌, ◌<◌, ◌≤◌, length, take, ◌++◌, Some, Err};
ghost use Rattle.std.specs.Prelude.{true, false, MatchOption, IfOk, IfErr, IsErr, OnOk};
ghost use Rattle.std.specs.Io.KnownBytes.{Consumes, IsAtEnd, Keeps};
ghost use Rattle.stab_task.specs.Loading.{IsWhole, IsLoadFault, IsUnloaded};

use crate::fault::CliFault;
use std::alloc::{AllocError, Global};
use std::io::{ErrorKind, Read};

/// The most bytes of a file.
const MAX_BYTES: usize = 16_777_216;

/// How often a read may be interrupted while one file is loaded.
const MAX_INTERRUPTIONS: usize = 1_000;

/// How many bytes one read asks for.
const CHUNK: usize = 65_536;

/// Each turn gives a byte or more, or is an interruption, but for the last.
const MAX_TURNS: usize = MAX_BYTES + MAX_INTERRUPTIONS + 2;

/// Why a file cannot be loaded.
#[derive(Clone, Copy, Debug, PartialEq, Eq)]
pub enum LoadFault {
    /// Reading failed, or was interrupted too often.
    Read,
    /// There are more than 16,777,216 bytes.
    TooLong,
    /// Memory was refused.
    Memory,
}

impl From<AllocError> for LoadFault {
    ghost use Rattle.std.specs.Prelude.{◌≡◌};
    ghost use Rattle.stab_task.specs.declared.file.LoadFault.TheVariants.{Memory};

    ghost from_gives = { λ _ fault. fault ≡ Memory };

    fn from(_refused: AllocError) -> LoadFault {
        LoadFault::Memory
    }
}

/// All bytes of a reader, at most 16,777,216 of them.
///
/// An interrupted read is tried again, at most 1,000 times; any other fault of the reader is a
/// fault at once. What was read before a fault is gone.
pub fn load<R: Read>(alloc: Global, reader: &mut R) -> Result<Vec<u8>, CliFault>
    ensures whole { IfOk result (λ bytes. IsWhole (R.remaining reader.old) bytes.items) }
    ensures faults { IfErr result (IsUnloaded (R.remaining reader.old)) }
{
    let mut troubles = Troubles {
        interruptions: 0,
        failed: false,
    };
    let bytes = read_all(alloc, reader, &mut troubles)?;
    Ok(bytes)
}

/// What went wrong in the reads of one file.
#[derive(Clone, Copy)]
struct Troubles {
    /// How many of them were interrupted.
    interruptions: usize,
    /// Whether one failed in another way.
    failed: bool,
}

/// All bytes of a reader, or why they cannot be loaded. Reading is given up where a read failed, or
/// the interruptions are more than the most.
fn read_all<R: Read>(
    alloc: Global,
    reader: &mut R,
    troubles: &mut Troubles,
) -> Result<Vec<u8>, LoadFault>
    requires { troubles.old.interruptions ≡ 0 }
    ensures whole { IfOk result (λ bytes. IsWhole (R.remaining reader.old) bytes.items) }
    ensures faults { IfErr result (IsLoadFault (R.remaining reader.old)) }
    ensures given_up { result ≡ Err LoadFault.Read →
        troubles.new.failed ≡ false → MAX_INTERRUPTIONS < troubles.new.interruptions }
{
    let mut chunk = zeros(alloc, CHUNK)?;
    let mut bytes = Vec::new(alloc);
    for _turn in 0..MAX_TURNS {
        match read_chunk(reader, &mut chunk, troubles)? {
            Some(0) => return Ok(bytes),
            Some(count) => append(&mut bytes, &chunk[..count])?,
            None => {
                if troubles.interruptions > MAX_INTERRUPTIONS {
                    return Err(LoadFault::Read);
                }
            }
        }
    }
    unreachable!()
}

/// Bytes to read into, `len` of them.
fn zeros(alloc: Global, len: usize) -> Result<Vec<u8>, AllocError>
    ensures { IfOk result (λ bytes. length bytes.items ≡ len) }
{
    vec![in alloc; 0; len]
}

/// Adds bytes that were read, where the file is not too long by them.
fn append(bytes: &mut Vec<u8>, more: &[u8]) -> Result<(), LoadFault>
    requires { length bytes.old.items ≤ MAX_BYTES }
    ensures appended { OnOk result (bytes.new.items ≡ bytes.old.items ++ more.now) }
    ensures not_too_long { OnOk result (length bytes.new.items ≤ MAX_BYTES) }
    ensures faults { IfErr result (IsLoadFault (Some (bytes.old.items ++ more.now))) }
    ensures was_read { IfErr result (λ fault. fault ≢ LoadFault.Read) }
    ensures too_long { MAX_BYTES < length bytes.old.items + length more.now
        → result ≡ Err LoadFault.TooLong }
{
    if more.len() > MAX_BYTES - bytes.len() {
        return Err(LoadFault::TooLong);
    }
    bytes.extend_from_slice(more)?;
    Ok(())
}

/// One read: how many bytes it gave, none only at the end; or nothing where it was interrupted.
///
/// A reader's contract does not say when it fails, so no clause can forbid a fault of this call;
/// the tests do.
fn read_chunk<R: Read>(
    reader: &mut R,
    chunk: &mut [u8],
    troubles: &mut Troubles,
) -> Result<Option<usize>, LoadFault>
    requires some_room { 0 < length chunk.old }
    requires not_too_often { troubles.old.interruptions ≤ MAX_INTERRUPTIONS }
    ensures room { IfOk result (λ given. MatchOption given (Unit {0})
        (λ count. count ≤ length chunk.new)) }
    ensures bytes { IfOk result (λ given. MatchOption given
        (Keeps (R.remaining reader.old) (R.remaining reader.new))
        (λ count. Consumes (R.remaining reader.old) (R.remaining reader.new)
        (take count chunk.new))) }
    ensures end { IfOk result (λ given. MatchOption given (Unit {0})
        (λ count. count ≡ 0 → IsAtEnd (R.remaining reader.new))) }
    ensures fault { IfErr result (λ fault. fault ≡ LoadFault.Read) }
    ensures counted { IfOk result (λ given. MatchOption given
        (troubles.new.interruptions ≡ troubles.old.interruptions + 1)
        (λ _. troubles.new.interruptions ≡ troubles.old.interruptions)) }
    ensures failed { IsErr result → troubles.new.failed ≡ true }
{
    match reader.read(chunk) {
        Ok(count) => Ok(Some(count)),
        Err(error) => {
            if error.kind() == ErrorKind::Interrupted {
                troubles.interruptions += 1;
                Ok(None)
            } else {
                troubles.failed = true;
                Err(LoadFault::Read)
            }
        }
    }
}
