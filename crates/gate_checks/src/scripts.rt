//! The calls that make a script: a copy, one that is shared, and draws of a generator.

use crate::again::{Calls, Made, Row, push_answer};
use crate::readers::script_of;
use rand_core::Rng;
use rand_pcg::Pcg32;
use stab_script::Script;
use std::alloc::{AllocError, Global};

/// A script with acts in each of its lists.
const SCRIPT: &str = r#"{"frames_out":"DPE","frames_in":"K","acks_out":"ED","acks_in":"TK"}"#;

/// A copy of a script, a script that is shared, and draws of one generator, one after the other: the
/// length of each list, the loss, and the repetition. The last draw but one is refused for its rate,
/// and one draws nothing. Then the generator gave no word but those of the draws.
pub const ROW: Row<'static, ScriptCall> = (
    1,
    &[
        ("Script::copy", ScriptCall::Copy),
        ("Script::share", ScriptCall::Share),
        ("Script::from_seed", ScriptCall::FromSeed(6, 100, 0)),
        ("Script::draw", ScriptCall::Draw(6, 100, 0)),
        ("Script::from_seed", ScriptCall::FromSeed(1, 800, 100)),
        ("Script::draw", ScriptCall::Draw(1, 800, 100)),
        ("Script::from_seed", ScriptCall::FromSeed(0, 500, 500)),
        ("Script::draw", ScriptCall::Draw(0, 500, 500)),
        ("Script::from_seed", ScriptCall::FromSeed(40, 300, 400)),
        ("Script::draw", ScriptCall::Draw(40, 300, 400)),
        ("Script::from_seed", ScriptCall::FromSeed(6, 0, 1001)),
        ("Script::draw", ScriptCall::Draw(6, 0, 1001)),
        ("Script::from_seed", ScriptCall::FromSeed(2, 1000, 1000)),
        ("Script::draw", ScriptCall::Draw(2, 1000, 1000)),
        ("the next word", ScriptCall::NextWord),
    ],
);

/// A script, others for the calls that take one away, and a generator that scripts are drawn of.
#[derive(Drop)]
pub struct Scripts {
    alloc: Global,
    script: Script,
    others: Vec<Script>,
    generator: Pcg32,
}

/// A call that makes a script, or the next word of the generator.
#[derive(Clone, Copy)]
pub enum ScriptCall {
    Copy,
    Share,
    Draw(u32, u16, u16),
    FromSeed(u32, u16, u16),
    NextWord,
}

/// A script for a call, and one for when it is made again.
fn scripts_of(alloc: Global) -> Result<Vec<Script>, AllocError> {
    let mut scripts = Vec::with_capacity(alloc, 2)?;
    for _ in 0..2u32 {
        scripts.push(script_of(alloc, SCRIPT)?)?;
    }
    Ok(scripts)
}

impl Made for Scripts {
    type Given = ();

    fn new(alloc: Global, _given: ()) -> Result<Scripts, AllocError> {
        let script = script_of(alloc, SCRIPT)?;
        let others = scripts_of(alloc)?;
        Ok(Scripts {
            alloc,
            script,
            others,
            generator: Pcg32::new(42, 54),
        })
    }
}

impl Calls for Scripts {
    type Call = ScriptCall;

    fn push_object(&self, text: &mut String) -> Result<(), AllocError> {
        let (state, stream) = (self.generator.state(), self.generator.stream());
        write!(text, "{:?} state {state} stream {stream}", self.script)
    }

    fn make(&mut self, call: &ScriptCall, text: &mut String) -> Result<(), AllocError> {
        let (alloc, generator) = (self.alloc, &mut self.generator);
        match *call {
            ScriptCall::Copy => push_answer(text, self.script.copy(alloc)),
            ScriptCall::Share => {
                let script = self.others.pop().ok_or(AllocError)?;
                push_answer(text, script.share())
            }
            ScriptCall::Draw(len, loss, repeat) => {
                push_answer(text, Script::draw(alloc, generator, len, loss, repeat))
            }
            ScriptCall::FromSeed(len, loss, repeat) => {
                push_answer(text, Script::from_seed(alloc, 42, 54, len, loss, repeat))
            }
            ScriptCall::NextWord => write!(text, "{}", generator.next_u32()),
        }
    }
}
