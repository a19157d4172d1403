//! What the lock of a link keeps, and the six calls of the ends on it.

ghost use Rattle.std.specs.Prelude.{◌≡◌, ◌↔◌, [], IfOk, IsTrue, OnErr, OnOk};
ghost use Rattle.stab_acts.specs.Scripts.{Acts, receiver_half, sender_half};
ghost use Rattle.stab_lock.specs.Calls.{offering, sending, polling_ack, closing, polling_frame};
ghost use Rattle.stab_lock.specs.Calls.{sending_ack, answer_of, is_held, no_acts, seen_by};
ghost use Rattle.stab_lock.specs.Scripted.{IsBookOf, IsOf, after_call, before_calls};

use crate::book::LinkBook;
use crate::taken::same_taken;
use stab_acts::{HalfScript, Script};
use stab_core::Effect;
use stab_ends::FrameSeen;
use stab_frames::Item;
use std::alloc::{AllocError, Global};
use std::marker::Model;

/// A book with the script of its link, and both halves of it: each call takes the next act of its
/// own half. Its type keeps that some calls noted the history, so the history is by the script.
#[derive(Debug, Drop)]
pub(crate) struct SharedBook {
    book: LinkBook,
    script: Script,
    sender: HalfScript,
    receiver: HalfScript,
}

impl Model for SharedBook {
    ghost use Rattle.stab_lock.specs.Scripted.{Shared, IsReached};

    ghost Value = { Shared };

    ghost view = { λ b. record {
      book = b.book;
      script = b.script;
      sender = b.sender;
      receiver = b.receiver;
    } };

    ghost invariant = { λ b. IsReached (record {
      book = b.book;
      script = b.script;
      sender = b.sender;
      receiver = b.receiver;
    }) };
}

impl SharedBook {
    /// What the lock of a link keeps before any call.
    pub(crate) fn new(
        alloc: Global,
        book: LinkBook,
        script: &Script,
    ) -> Result<SharedBook, AllocError>
        requires { book.history ≡ [] }
        ensures { IfOk result (λ shared. shared
            ≡ before_calls book.params book.start script.now) }
    {
        let (script, sender, receiver) = with_halves(alloc, script)?;
        Ok(SharedBook {
            book,
            script,
            sender,
            receiver,
        })
    }

    /// Makes room for this many more items in the lists of the link, as far as memory is there.
    pub(crate) fn reserve(&mut self, additional: usize)
        ensures { self.new ≡ self.old }
    {
        self.book.reserve(additional);
    }

    /// Offers an item to the sender.
    pub(crate) fn offer(&mut self, item: Item) -> Result<bool, AllocError>
        ensures noted { OnOk result (self.new ≡ after_call (offering item) self.old) }
        ensures answer { IfOk result (λ taken.
            taken ≡ is_held (answer_of (offering item) self.old.book no_acts)) }
        ensures unchanged { OnErr result (self.new ≡ self.old) }
    {
        self.book.offer(item)
    }

    /// Sends the sender's frame once more.
    pub(crate) fn send(&mut self) -> Result<Effect, AllocError>
        ensures noted { OnOk result (self.new ≡ after_call sending self.old) }
        ensures answer { IfOk result (λ effect.
            effect ≡ answer_of sending self.old.book self.old.sender) }
        ensures unchanged { OnErr result (self.new ≡ self.old) }
    {
        self.book.send(&mut self.sender)
    }

    /// Looks for an acknowledgement, and receives the front one.
    pub(crate) fn poll_ack(&mut self) -> Result<Effect, AllocError>
        ensures noted { OnOk result (self.new ≡ after_call polling_ack self.old) }
        ensures answer { IfOk result (λ effect.
            effect ≡ answer_of polling_ack self.old.book self.old.sender) }
        ensures unchanged { OnErr result (self.new ≡ self.old) }
    {
        self.book.poll_ack(&mut self.sender)
    }

    /// Closes the link for good, where it is open.
    pub(crate) fn close(&mut self) -> Result<Effect, AllocError>
        ensures noted { OnOk result (self.new ≡ after_call closing self.old) }
        ensures answer { IfOk result (λ effect. effect ≡ answer_of closing self.old.book no_acts) }
        ensures unchanged { OnErr result (self.new ≡ self.old) }
    {
        self.book.close()
    }

    /// Looks for a frame, and receives the front one. A closed link shows its close.
    pub(crate) fn poll_frame(&mut self) -> Result<FrameSeen, AllocError>
        ensures noted { OnOk result (self.new ≡ after_call polling_frame self.old) }
        ensures answer { IfOk result (λ seen.
            seen ≡ seen_by (answer_of polling_frame self.old.book self.old.receiver)) }
        ensures unchanged { OnErr result (self.new ≡ self.old) }
    {
        self.book.poll_frame(&mut self.receiver)
    }

    /// Sends the label that the receiver remembers.
    pub(crate) fn send_ack(&mut self) -> Result<Effect, AllocError>
        ensures noted { OnOk result (self.new ≡ after_call sending_ack self.old) }
        ensures answer { IfOk result (λ effect.
            effect ≡ answer_of sending_ack self.old.book self.old.receiver) }
        ensures unchanged { OnErr result (self.new ≡ self.old) }
    {
        self.book.send_ack(&mut self.receiver)
    }

    /// The book, where it is of the same link as `begun`, the one before any call, and the acts that
    /// were taken are those of this script; else `begun`. Its history is by this script as well,
    /// since what calls note depends only on the acts that they take.
    #[tactic(auto, using(crate::proofs::Reached::by_script, crate::proofs::Reached::by_no_call))]
    pub(crate) fn into_book(self, begun: LinkBook, script: &Script) -> LinkBook
        requires { begun.history ≡ [] }
        ensures of_link { IsBookOf begun.params begun.start script.now result }
        ensures kept { IsOf self begun.params begun.start script.now → result ≡ self.book }
    {
        if self.is_of(&begun, script) {
            let SharedBook { book, .. } = self;
            book
        } else {
            begun
        }
    }

    /// Whether this is of a link that begins like this book, and of a script with the same acts as
    /// far as they were taken.
    fn is_of(&self, begun: &LinkBook, script: &Script) -> bool
        ensures { IsTrue result ↔ IsOf self.now begun.now.params begun.now.start script.now }
    {
        self.book.begins_like(begun)
            && same_taken(&self.script, script, &self.sender, &self.receiver)
    }
}

/// A copy of a script, and both halves of another one.
fn with_halves(
    alloc: Global,
    script: &Script,
) -> Result<(Script, HalfScript, HalfScript), AllocError>
    ensures script { IfOk result (λ made. made.0 ≡ script.now) }
    ensures sender { IfOk result (λ made. made.1 ≡ sender_half script.now) }
    ensures receiver { IfOk result (λ made. made.2 ≡ receiver_half script.now) }
{
    let own = script.copy(alloc)?;
    let (sender, receiver) = script.copy(alloc)?.split();
    Ok((own, sender, receiver))
}
