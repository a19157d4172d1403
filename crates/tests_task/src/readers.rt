//! Readers that fail, are interrupted, or give less or more than they are asked for.

use crate::tasks::{Pieces, WORKS, Work, ends, giving, not_json};
use stab_task::{CliFault, load};
use std::alloc::{AllocError, Global};
use std::io::ErrorKind;
use std::sync::Wait;
use std::thread::Threads;
use std::time::Clock;

const INTERRUPTED: Option<ErrorKind> = Some(ErrorKind::Interrupted);

const OUT_OF_MEMORY: Option<ErrorKind> = Some(ErrorKind::OutOfMemory);

const OTHER: Option<ErrorKind> = Some(ErrorKind::Other);

/// What loading a reader answers.
fn loaded(alloc: Global, reader: Pieces<'_>) -> Result<Vec<u8>, CliFault> {
    let mut reader = reader;
    load(alloc, &mut reader)
}

/// Whether loading a reader answers these bytes.
fn gives(alloc: Global, reader: Pieces<'_>, want: &[u8]) -> bool {
    match loaded(alloc, reader) {
        Ok(bytes) => bytes.as_slice() == want,
        Err(_) => false,
    }
}

/// Whether loading a reader that fails this often, with a failure of this kind, between its pieces
/// and the task over it go on, or report that it cannot be read.
fn reads_on<T: Threads + Wait + Clock + Send + Sync + Alloc<A = Global>>(
    rt: &T,
    work: Work,
    reader: Pieces<'_>,
    (kind, times, goes_on): (Option<ErrorKind>, usize, bool),
) -> bool {
    let reader = Pieces {
        kind,
        times,
        ..reader
    };
    if goes_on {
        gives(rt.alloc(), reader, work.job.as_bytes()) && ends(rt, work, reader, Ok(()))
    } else {
        loaded(rt.alloc(), reader).err() == Some(CliFault::Read)
            && ends(rt, work, reader, Err(CliFault::Read))
    }
}

/// Of what kind a failure is, how often it comes, and whether the reader is read on: a failure is
/// reported, whatever its kind, and an interrupted reader is read on, 1,000 times and no more.
const FAILURES: &[(Option<ErrorKind>, usize, bool)] = &[
    (OTHER, 1, false),
    (OUT_OF_MEMORY, 1, false),
    (INTERRUPTED, 1, true),
    (INTERRUPTED, 1_000, true),
    (INTERRUPTED, 1_001, false),
];

/// Whether a job in pieces of `count` bytes is read, and one that ends after them, or has a byte
/// after them that the reader did not give, is no JSON. Where it wrote nothing its piece has a
/// zero, as at first, and no JSON has a byte 0.
fn is_read_as_given<T: Threads + Wait + Clock + Send + Sync + Alloc<A = Global>>(
    rt: &T,
    work: Work,
    reader: Pieces<'_>,
) -> bool {
    let Pieces { before, after, .. } = reader;
    let in_pieces = Pieces {
        most: before.len().max(1),
        ..reader
    };
    let cut = Pieces { times: 1, ..reader };
    let overstating = Pieces {
        overstates: true,
        ..reader
    };
    let no_json = Err(not_json(work.task));
    let of_cut = if after.is_empty() { Ok(()) } else { no_json };
    reads_on(rt, work, in_pieces, (None, 0, true))
        && gives(rt.alloc(), cut, before)
        && ends(rt, work, cut, of_cut)
        && ends(rt, work, overstating, no_json)
}

#[test]
fn readers_that_fail_and_that_give_less_or_more(rt: HostRuntime) {
    for &work in WORKS {
        for place in 0..=work.job.len() {
            let parted = work.job.as_bytes().split_at_checked(place);
            let (before, after) = parted.unwrap_or((&[], &[]));
            let reader = giving(before, after);
            for &failure in FAILURES {
                assert!(rt; reads_on(&rt, work, reader, failure), "at byte {place}");
            }
            assert!(rt; is_read_as_given(&rt, work, reader), "{place} bytes");
        }
    }
}

/// Whether spaces are loaded in pieces of one byte and of many, and are too long with one more.
fn loads_spaces(alloc: Global, spaces: &[u8]) -> bool {
    let many = giving(spaces, &[]);
    let one = Pieces { most: 1, ..many };
    let most = Pieces {
        most: 65_536,
        ..many
    };
    gives(alloc, one, spaces)
        && gives(alloc, most, spaces)
        && loaded(alloc, giving(spaces, b" ")).err() == Some(CliFault::TooLong)
}

#[test]
fn readers_of_16777216_spaces(rt: HostRuntime) -> Result<(), AllocError> {
    let spaces = vec![in rt.alloc(); b' '; 16_777_216]?;
    assert!(rt; loads_spaces(rt.alloc(), &spaces));
    Ok(())
}
