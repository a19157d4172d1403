//! The calls on the book of a link.

use crate::again::{Calls, Made, Row, make_rows, push_answer};
use crate::end_calls::{EndCall, OF_BOOK, ROWS, item_after, params, script_of, start_of};
use crate::texts::Texts;
use stab_core::{Event, push_link_text};
use stab_lock::LinkBook;
use stab_script::HalfScript;
use std::alloc::{AllocError, Global};

/// An event of each kind.
const NOTES: Row<'static, EndCall> = (
    1,
    &[
        ("note", EndCall::Note(Event::Offer(7))),
        ("note", EndCall::Note(Event::SendFrame)),
        ("note", EndCall::Note(Event::RecvFrame { keep: true })),
        ("note", EndCall::Note(Event::RecvFrame { keep: false })),
        ("note", EndCall::Note(Event::SendAck)),
        ("note", EndCall::Note(Event::RecvAck { keep: true })),
        ("note", EndCall::Note(Event::RecvAck { keep: false })),
        ("note", EndCall::Note(Event::LoseFrame(0))),
        ("note", EndCall::Note(Event::LoseAck(0))),
        ("note", EndCall::Note(Event::Close)),
    ],
);

/// A book with both halves of its script.
#[derive(Drop)]
struct Books {
    book: LinkBook,
    sender: HalfScript,
    receiver: HalfScript,
}

/// Makes the calls: the events, and each row, on a book of its own.
pub fn make_all(alloc: Global, texts: &mut Texts) -> Result<(), AllocError> {
    make_rows::<Books>(alloc, texts, "LinkBook::new", NOTES.0, &[NOTES, OF_BOOK])?;
    for row in &ROWS {
        make_rows::<Books>(alloc, texts, "LinkBook::new", row.0, &[*row, OF_BOOK])?;
    }
    Ok(())
}

impl Made for Books {
    type Given = u32;

    fn new(alloc: Global, times: u32) -> Result<Books, AllocError> {
        let book = book_of(alloc, times)?;
        let (sender, receiver) = script_of(alloc, times)?.split();
        Ok(Books {
            book,
            sender,
            receiver,
        })
    }
}

impl Calls for Books {
    type Call = EndCall;

    fn owner(&self, call: &EndCall) -> &'static str {
        match call {
            EndCall::Hold => "",
            _ => "LinkBook::",
        }
    }

    fn push_object(&self, text: &mut String) -> Result<(), AllocError> {
        push_book(text, &self.book)?;
        let sender = (self.sender.peek_out(), self.sender.peek_in());
        let receiver = (self.receiver.peek_out(), self.receiver.peek_in());
        writeln!(text, "next acts: {sender:?} {receiver:?}")
    }

    fn make(&mut self, call: &EndCall, text: &mut String) -> Result<(), AllocError> {
        match call {
            EndCall::Offer => {
                let item = item_after(self.book.link().offered());
                push_answer(text, self.book.offer(item))
            }
            EndCall::Send => push_answer(text, self.book.send(&mut self.sender)),
            EndCall::PollAck => push_answer(text, self.book.poll_ack(&mut self.sender)),
            EndCall::Close => push_answer(text, self.book.close()),
            EndCall::PollFrame => push_answer(text, self.book.poll_frame(&mut self.receiver)),
            EndCall::SendAck => push_answer(text, self.book.send_ack(&mut self.receiver)),
            EndCall::Note(event) => note(&mut self.book, *event, text),
            EndCall::Hold => self.push_object(text),
        }
    }
}

/// Notes an event.
fn note(book: &mut LinkBook, event: Event, text: &mut String) -> Result<(), AllocError> {
    let effect = book.note(event)?;
    write!(text, "{event:?} gives {effect:?}")
}

/// The book of the link of a row that is made so often.
fn book_of(alloc: Global, times: u32) -> Result<LinkBook, AllocError> {
    let params = params()?;
    let start = start_of(alloc, times)?;
    LinkBook::new(alloc, params, start).ok().ok_or(AllocError)
}

/// Adds what a book holds: its link, and its history in a line.
pub fn push_book(text: &mut String, book: &LinkBook) -> Result<(), AllocError> {
    push_link_text(text, book.link())?;
    text.push_str("history:")?;
    for place in 0..book.history_len() {
        if let Some(event) = book.event_at(place) {
            write!(text, " {event:?}")?;
        }
    }
    text.push_str("\n")
}
