ghost use Rattle.std.specs.Prelude.{◌≡◌, ◌≢◌, ℕ, ◌≤◌, MatchResult, OnOk, OnErr, Ok, Err, None};
ghost use Rattle.std.specs.Prelude.{Some};
ghost use Rattle.std.specs.Prelude.{map, vec_len, vec_capacity};
ghost use Rattle.rand_core.specs.Stream.{Stream};
ghost use Rattle.stab_acts.specs.Draws.{words, after_words, after_lists, out_of_word, in_of_word};
ghost use Rattle.stab_acts.specs.Draws.{draw_fault, draw_script, pcg32_words};

use crate::act::{InAct, OutAct};
use crate::fault::ScriptFault;
use crate::script::{MAX_ACTS, Script};
use rand_core::Rng;
use rand_pcg::Pcg32;
use std::alloc::Global;

/// The largest rate, which is a number of words in a thousand.
const MAX_RATE: u16 = 1000;

/// An act that is made of a word.
trait Drawn: Sized + Drop {
    // The act of a word, at a rate.
    ghost of_word: { ℕ → ℕ → Self };

    /// The act of a word, at a rate.
    fn of_word(rate: u16, word: u32) -> Self
        ensures { result ≡ of_word rate word };
}

impl Drawn for OutAct {
    ghost of_word = { out_of_word };

    fn of_word(loss: u16, word: u32) -> OutAct {
        if word % u32::from(MAX_RATE) < u32::from(loss) {
            OutAct::Drop
        } else {
            OutAct::Pass
        }
    }
}

impl Drawn for InAct {
    ghost of_word = { in_of_word };

    fn of_word(repeat: u16, word: u32) -> InAct {
        if word % u32::from(MAX_RATE) < u32::from(repeat) {
            InAct::Keep
        } else {
            InAct::Take
        }
    }
}

/// A list of acts, a word each; there is room for them.
#[tactic(auto, unfolding(crate::specs::Draws::words, crate::specs::Draws::after_words))]
fn draw_list<R: Rng, A: Drawn>(rng: &mut R, len: u32, rate: u16, mut room: Vec<A>) -> Vec<A>
    requires empty { vec_len room ≡ 0 }
    requires reserved { len ≤ vec_capacity room }
    ensures acts { result.items ≡ map (A.of_word rate) (words len (R.stream rng.old)) }
    ensures words { R.stream rng.new ≡ after_words len (R.stream rng.old) }
{
    for _drawn in 0..len {
        room.push_reserved(A::of_word(rate, rng.next_u32()));
    }
    room
}

/// The first check that the numbers of a draw fail.
fn check(len: u32, loss: u16, repeat: u16) -> Result<(), ScriptFault>
    ensures { MatchResult result
        (λ _. draw_fault len loss repeat ≡ None)
        (λ fault. draw_fault len loss repeat ≡ Some fault) }
{
    if len > MAX_ACTS {
        return Err(ScriptFault::TooLong);
    }
    if loss > MAX_RATE || repeat > MAX_RATE {
        return Err(ScriptFault::RateOutOfRange);
    }
    Ok(())
}

impl Script {
    /// A script of `len` acts in each list, a word of the generator for each: of frames out, frames
    /// in, acknowledgements out and acknowledgements in, one list after the other. What goes out is
    /// dropped at `loss` words in a thousand, what comes in is kept at `repeat` in a thousand. A
    /// refusal takes no word.
    #[tactic(auto, unfolding(crate::specs::Draws::drawn, crate::specs::Draws::after_lists))]
    pub fn draw<R: Rng>(
        alloc: Global,
        rng: &mut R,
        len: u32,
        loss: u16,
        repeat: u16,
    ) -> Result<Script, ScriptFault>
        ensures script { MatchResult result
            (λ script. draw_script len loss repeat (R.stream rng.old) ≡ Ok script)
            (λ fault. fault ≢ ScriptFault.Memory
            → draw_script len loss repeat (R.stream rng.old) ≡ Err fault) }
        ensures memory { result ≡ Err ScriptFault.Memory → draw_fault len loss repeat ≡ None }
        ensures words { OnOk result (R.stream rng.new ≡ after_lists 4 len (R.stream rng.old)) }
        ensures untouched { OnErr result (rng.new ≡ rng.old) }
    {
        check(len, loss, repeat)?;
        let capacity = len as usize;
        let frames_out = Vec::with_capacity(alloc, capacity)?;
        let frames_in = Vec::with_capacity(alloc, capacity)?;
        let acks_out = Vec::with_capacity(alloc, capacity)?;
        let acks_in = Vec::with_capacity(alloc, capacity)?;
        let frames_out = draw_list(rng, len, loss, frames_out);
        let frames_in = draw_list(rng, len, repeat, frames_in);
        let acks_out = draw_list(rng, len, loss, acks_out);
        let acks_in = draw_list(rng, len, repeat, acks_in);
        Ok(Script::from_lists(frames_out, frames_in, acks_out, acks_in))
    }

    /// The draw on the generator PCG32 that begins at `state` on `stream`.
    pub fn from_seed(
        alloc: Global,
        state: u64,
        stream: u64,
        len: u32,
        loss: u16,
        repeat: u16,
    ) -> Result<Script, ScriptFault>
        ensures script { MatchResult result
            (λ script. draw_script len loss repeat (pcg32_words state stream) ≡ Ok script)
            (λ fault. fault ≢ ScriptFault.Memory
            → draw_script len loss repeat (pcg32_words state stream) ≡ Err fault) }
        ensures memory { result ≡ Err ScriptFault.Memory → draw_fault len loss repeat ≡ None }
    {
        Script::draw(alloc, &mut Pcg32::new(state, stream), len, loss, repeat)
    }
}
