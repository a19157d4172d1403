use stab_frames::{Frame, Label, Params, Sequence};
use std::alloc::{AllocError, Global};
use thiserror::Error;

/// The label that a receiver remembers at a clean start: no sender that begins with 0 uses it.
const UNUSED_LABEL: Label = Label::MAX;

/// Why a link cannot begin, in the order of the checks.
#[derive(Clone, Copy, Debug, PartialEq, Eq, Hash, Error)]
pub enum StartFault {
    /// There are more frames than the capacity.
    #[error("start: too many frames")]
    TooManyFrames,
    /// There are more acknowledgements than the capacity.
    #[error("start: too many acknowledgements")]
    TooManyAcks,
    /// Memory was refused.
    #[error("out of memory")]
    Memory,
}

/// What a link is before its first event: any frames, acknowledgements and labels, whatever put
/// them there.
#[derive(Debug)]
pub struct Start {
    /// The frames on their way to the receiver, the front first.
    pub frames: Sequence<Frame>,
    /// The labels on their way to the sender, the front first.
    pub acks: Sequence<Label>,
    /// The sender's label.
    pub send_label: Label,
    /// The label that the receiver remembers.
    pub recv_label: Label,
}

impl Drop for Start {
    fn drop(self) {
        let Start {
            frames: _,
            acks: _,
            send_label: _,
            recv_label: _,
        } = self;
    }
}

impl From<AllocError> for StartFault {
    ghost use Rattle.std.specs.Prelude.{◌≡◌};
    ghost use Rattle.stab_core.specs.declared.start.StartFault.TheVariants.{Memory};

    ghost from_gives = { λ _ fault. fault ≡ Memory };

    fn from(_error: AllocError) -> StartFault {
        StartFault::Memory
    }
}

impl Start {
    ghost use Rattle.std.specs.Prelude.{◌≡◌, ◌≢◌, IfOk, IfErr, OnOk};
    ghost use Rattle.stab_frames.specs.Parameters.{AreLawful};
    ghost use Rattle.stab_core.specs.Link.{IsReason};
    ghost use Rattle.stab_core.specs.Replay.{clean_start, IsLawful};

    /// The clean start: empty queues, the send label 0, and a receive label that this sender never
    /// uses. It takes no memory.
    pub fn clean(alloc: Global) -> Start
        ensures { result ≡ clean_start }
    {
        Start {
            frames: Sequence::new(alloc),
            acks: Sequence::new(alloc),
            send_label: 0,
            recv_label: UNUSED_LABEL,
        }
    }

    /// A start with the same frames, acknowledgements and labels.
    pub fn copy(&self, alloc: Global) -> Result<Start, AllocError>
        ensures { IfOk result (λ start. start ≡ self.now) }
    {
        Ok(Start {
            frames: self.frames.copy(alloc)?,
            acks: self.acks.copy(alloc)?,
            send_label: self.send_label,
            recv_label: self.recv_label,
        })
    }

    /// Sees whether a link of these parameters can begin from this start. It takes no memory.
    ///
    /// Too many frames are refused, and then too many acknowledgements. The labels may be any.
    pub fn check(&self, params: Params) -> Result<(), StartFault>
        ensures lawful_params { AreLawful params }
        ensures lawful { OnOk result (IsLawful params self.now) }
        ensures refused { IfErr result (IsReason params self.now) }
        ensures no_memory { IfErr result (λ fault. fault ≢ StartFault.Memory) }
    {
        let capacity = usize::from(params.capacity());
        if self.frames.len() > capacity {
            return Err(StartFault::TooManyFrames);
        }
        if self.acks.len() > capacity {
            return Err(StartFault::TooManyAcks);
        }
        Ok(())
    }
}
