//! The calls of the two ends of a link of either kind: behind a lock, and of two words.
//!
//! An end of either kind makes each call by the end inside. So what is shown here of such an end is
//! shown of the ends of both kinds.

use crate::again::{Calls, Row, make_row, push_answer};
use crate::books::push_book;
use crate::end_calls::{EndCall, OF_ENDS, ROUNDS, ROWS, item_after, params, script_of, start_of};
use crate::texts::Texts;
use stab_core::Start;
use stab_ends::{RecvSide, SendSide};
use stab_lock::{LinkBook, LockLink};
use stab_run::{AnyRecv, AnySend};
use stab_script::Script;
use stab_word::WordLink;
use std::alloc::{AllocError, Global};
use std::sync::Wait;

/// Both ends of a link, and whether it has a lock.
struct Ends<'p, S: SendSide, T: RecvSide<Pass = S::Pass>> {
    has_lock: bool,
    pass: &'p S::Pass,
    send: S,
    recv: T,
}

impl<'p, S: SendSide, T: RecvSide<Pass = S::Pass>> Drop for Ends<'p, S, T> {
    fn drop(self) {
        let Ends {
            has_lock: _,
            pass: _,
            send: _,
            recv: _,
        } = self;
    }
}

impl<'p, S: SendSide, T: RecvSide<Pass = S::Pass>> Calls for Ends<'p, S, T> {
    type Call = EndCall;

    fn owner(&self, call: &EndCall) -> &'static str {
        match call {
            EndCall::Hold => "",
            _ if self.has_lock => "behind a lock, ",
            _ => "over two words, ",
        }
    }

    /// The accounts of both ends.
    fn push_object(&self, text: &mut String) -> Result<(), AllocError> {
        write!(text, "{:?}\n{:?}", self.send.account(), self.recv.account())
    }

    fn make(&mut self, call: &EndCall, text: &mut String) -> Result<(), AllocError> {
        let pass = self.pass;
        match call {
            EndCall::Offer => {
                let item = item_after(self.send.account().offered.as_slice());
                push_answer(text, self.send.offer(pass, item))
            }
            EndCall::Send => push_answer(text, self.send.send(pass)),
            EndCall::PollAck => push_answer(text, self.send.poll_ack(pass)),
            EndCall::Close => push_answer(text, self.send.close(pass)),
            EndCall::PollFrame => push_answer(text, self.recv.poll_frame(pass)),
            EndCall::SendAck => push_answer(text, self.recv.send_ack(pass)),
            EndCall::Note(_) => text.push_str("no call of an end"),
            EndCall::Hold => self.push_object(text),
        }
    }
}

/// Makes the calls: each row on the ends of a link behind a lock, and the rounds on those of a link
/// of two words.
pub fn make_all<R: Wait>(rt: &R, alloc: Global, texts: &mut Texts) -> Result<(), AllocError> {
    for row in &ROWS {
        make_locked(rt, alloc, texts, row)?;
    }
    if make_on_words(rt, alloc, texts).is_err() {
        make_on_words(rt, alloc, texts)?;
    }
    Ok(())
}

/// Makes a row of calls on the ends of a link behind a lock, and tells its book.
fn make_locked<R: Wait>(
    rt: &R,
    alloc: Global,
    texts: &mut Texts,
    row: &Row<'_, EndCall>,
) -> Result<(), AllocError> {
    let link = match lock_link(alloc, row.0) {
        Ok(link) => link,
        Err(_) => {
            texts.tell_refused("", "LockLink::new")?;
            lock_link(alloc, row.0)?
        }
    };
    let (send, recv) = link.split::<R>();
    let ends = (AnySend::Lock(send), AnyRecv::Lock(recv));
    make_on(rt, texts, true, ends, row)?;
    tell_book(texts, &link.into_book())
}

/// The link behind a lock, with its script, of a row that is made so often.
fn lock_link(alloc: Global, times: u32) -> Result<LockLink, AllocError> {
    let params = params()?;
    let start = start_of(alloc, times)?;
    let script = script_of(alloc, times)?;
    LockLink::new(alloc, params, start, script)
        .ok()
        .ok_or(AllocError)
}

/// Tells what a book holds.
fn tell_book(texts: &mut Texts, book: &LinkBook) -> Result<(), AllocError> {
    push_book(&mut texts.answer, book)?;
    texts.tell_answer("", "the book holds")
}

/// Splits a new link of two words, and makes the rounds on its ends. A refused split gives up the
/// opening and the script.
fn make_on_words<R: Wait>(rt: &R, alloc: Global, texts: &mut Texts) -> Result<(), AllocError> {
    let params = params()?;
    let start = Start::clean(alloc);
    let Ok((link, opening)) = WordLink::new(alloc, params, &start) else {
        texts.tell_refused("", "WordLink::new")?;
        return Err(AllocError);
    };
    match link.split(alloc, opening, Script::none(alloc)) {
        Ok((send, recv)) => {
            let ends = (AnySend::<R>::Word(send), AnyRecv::<R>::Word(recv));
            make_on(rt, texts, false, ends, &ROUNDS)
        }
        Err(_) => {
            texts.tell_refused("", "WordLink::split")?;
            Err(AllocError)
        }
    }
}

/// Makes a row of calls on two ends, and tells their accounts.
fn make_on<S: SendSide, T: RecvSide<Pass = S::Pass>>(
    pass: &S::Pass,
    texts: &mut Texts,
    has_lock: bool,
    (send, recv): (S, T),
    row: &Row<'_, EndCall>,
) -> Result<(), AllocError> {
    let mut ends = Ends {
        has_lock,
        pass,
        send,
        recv,
    };
    make_row(texts, &mut ends, row)?;
    make_row(texts, &mut ends, &OF_ENDS)
}
