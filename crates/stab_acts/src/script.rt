ghost use Rattle.std.specs.Prelude.{◌≡◌, IfOk};
ghost use Rattle.stab_acts.specs.Scripts.{acts, no_acts, script_of, sender_half, receiver_half};

use crate::act::{InAct, OutAct};
use crate::acts::ActList;
use crate::fault::ScriptFault;
use crate::half::HalfScript;
use std::alloc::{AllocError, Global};
use std::marker::Model;

/// The most acts that a list of a script may have.
pub(crate) const MAX_ACTS: u32 = 100_000;

/// What a link is to lose and to repeat: a list of acts for each of frames going out, frames coming
/// in, acknowledgements going out and acknowledgements coming in. Past its end a list passes or
/// takes. A script never changes, so copies of one that is [shared](Script::share) have the same
/// acts in memory.
#[derive(Debug)]
pub struct Script {
    frames_out: ActList<OutAct>,
    frames_in: ActList<InAct>,
    acks_out: ActList<OutAct>,
    acks_in: ActList<InAct>,
}

impl Drop for Script {
    fn drop(self) {
        let Script {
            frames_out: _,
            frames_in: _,
            acks_out: _,
            acks_in: _,
        } = self;
    }
}

impl Model for Script {
    ghost use Rattle.stab_acts.specs.Scripts.{Acts, acts};

    ghost Value = { Acts };

    ghost view = { λ its. acts its.frames_out its.frames_in its.acks_out its.acks_in };
}

impl Script {
    /// The script of these lists, unless one has more than 100,000 acts. It takes no memory.
    pub fn new(
        frames_out: Vec<OutAct>,
        frames_in: Vec<InAct>,
        acks_out: Vec<OutAct>,
        acks_in: Vec<InAct>,
    ) -> Result<Script, ScriptFault>
        ensures { result
            ≡ script_of (acts frames_out.items frames_in.items acks_out.items acks_in.items) }
    {
        if frames_out.len() > MAX_ACTS as usize
            || frames_in.len() > MAX_ACTS as usize
            || acks_out.len() > MAX_ACTS as usize
            || acks_in.len() > MAX_ACTS as usize
        {
            return Err(ScriptFault::TooLong);
        }
        Ok(Script::from_lists(frames_out, frames_in, acks_out, acks_in))
    }

    /// The script of these lists, of any length.
    pub(crate) fn from_lists(
        frames_out: Vec<OutAct>,
        frames_in: Vec<InAct>,
        acks_out: Vec<OutAct>,
        acks_in: Vec<InAct>,
    ) -> Script
        ensures { result ≡ acts frames_out.items frames_in.items acks_out.items acks_in.items }
    {
        Script {
            frames_out: ActList::from_vec(frames_out),
            frames_in: ActList::from_vec(frames_in),
            acks_out: ActList::from_vec(acks_out),
            acks_in: ActList::from_vec(acks_in),
        }
    }

    /// The script that loses and repeats nothing. It takes no memory.
    pub fn none(alloc: Global) -> Script
        ensures { result ≡ no_acts }
    {
        Script {
            frames_out: ActList::from_vec(Vec::new(alloc)),
            frames_in: ActList::from_vec(Vec::new(alloc)),
            acks_out: ActList::from_vec(Vec::new(alloc)),
            acks_in: ActList::from_vec(Vec::new(alloc)),
        }
    }

    /// The same script, whose copies take no memory for their acts.
    pub fn share(self) -> Result<Script, AllocError>
        ensures { IfOk result (λ script. script ≡ self) }
    {
        let Script {
            frames_out,
            frames_in,
            acks_out,
            acks_in,
        } = self;
        Ok(Script {
            frames_out: frames_out.share()?,
            frames_in: frames_in.share()?,
            acks_out: acks_out.share()?,
            acks_in: acks_in.share()?,
        })
    }

    /// A script of the same acts, which is shared.
    pub fn copy(&self, alloc: Global) -> Result<Script, AllocError>
        ensures { IfOk result (λ script. script ≡ self.now) }
    {
        Ok(Script {
            frames_out: self.frames_out.copy(alloc)?,
            frames_in: self.frames_in.copy(alloc)?,
            acks_out: self.acks_out.copy(alloc)?,
            acks_in: self.acks_in.copy(alloc)?,
        })
    }

    /// The acts for the frames that the sender sends.
    pub fn frames_out(&self) -> &[OutAct]
        ensures { result.now ≡ self.now.frames_out }
    {
        self.frames_out.as_slice()
    }

    /// The acts for the frames that the receiver receives.
    pub fn frames_in(&self) -> &[InAct]
        ensures { result.now ≡ self.now.frames_in }
    {
        self.frames_in.as_slice()
    }

    /// The acts for the acknowledgements that the receiver sends.
    pub fn acks_out(&self) -> &[OutAct]
        ensures { result.now ≡ self.now.acks_out }
    {
        self.acks_out.as_slice()
    }

    /// The acts for the acknowledgements that the sender receives.
    pub fn acks_in(&self) -> &[InAct]
        ensures { result.now ≡ self.now.acks_in }
    {
        self.acks_in.as_slice()
    }

    /// The sender's half and the receiver's half. It takes no memory.
    pub fn split(self) -> (HalfScript, HalfScript)
        ensures sender { result.0 ≡ sender_half self }
        ensures receiver { result.1 ≡ receiver_half self }
    {
        let Script {
            frames_out,
            frames_in,
            acks_out,
            acks_in,
        } = self;
        (
            HalfScript::new(frames_out, acks_in),
            HalfScript::new(acks_out, frames_in),
        )
    }
}
